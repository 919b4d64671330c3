//! The module in an unwinding: what settles, what an edge makes of the registers, the view of a moment with the mirror filled from
//! it, the view in which a run begins, and the two calls that reach the module.
#![tactic(auto)]

mod beginning;
mod calls;
mod draws;
mod settling;
mod views;

pub use beginning::{FirstView, first_view};
pub use calls::{next_frame, set_inputs};
pub use views::{Shown, Sources, filled_view, refresh};
