//! The list of all runs of a pair within bounds.
//!
//! What a run begins with, then the body of `main`, then the tests of what no proof gives yet.
#![tactic(auto)]

mod beginning;
mod rows;
mod whole;

pub use whole::unwind;
