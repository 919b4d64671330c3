//! The two statements that reach the module, unwound in an activation.
#![tactic(auto)]

mod fitting;
mod statements;

pub use statements::{frame_taken, inputs_set};
