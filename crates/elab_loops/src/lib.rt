//! The turns of `for` loops, whose heads are constant but for loop variables.
#![tactic(auto)]

pub mod loops;

pub use loops::{integer_number, is_long, taken_turns, turns_of, values_of, with_turn};
