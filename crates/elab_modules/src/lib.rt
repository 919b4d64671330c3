//! The modules of a Verilog text: by their names, which of them is the top, and which an instance may name.
#![tactic(auto)]

pub mod below;
pub mod modules;
pub mod tops;

pub use below::{check_depth, check_module};
pub use modules::numbered;
pub use tops::top_of;
