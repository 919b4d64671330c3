//! The module's side of a joint run: its words, how they settle, what a clock edge makes of them, what the mirror shows
//! and drives, and the calls that reach the module.
//!
//! Each call equals a definition of `joint_ir`. Nothing here knows of C's statements and expressions.
#![tactic(auto)]

pub mod choices;
pub mod halt;
pub mod mirror;
pub mod seen;
pub mod settling;
pub mod steps;
pub mod view;
pub mod words;

pub use halt::Halt;
pub use steps::{Begun, Moved};
pub use view::View;

/// Rows of the elements of objects.
pub type Rows = Vec<Vec<i128>>;
