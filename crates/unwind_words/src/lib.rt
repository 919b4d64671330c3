//! Terms of a module's words: drawn as a run draws them, chosen under a guard, as the rows of its signals, and as what the
//! mirror shows of them and drives.
#![tactic(auto)]

mod choices;
mod draws;
mod mirror;
mod signals;

pub use choices::{choose_all, choose_rows};
pub use draws::{draw_all, draw_registers};
pub use mirror::{driven, mirror_rows};
pub use signals::signal_rows;
