//! Numbers of variables, and the variable with the greatest number in a set of them.
//!
//! Knows nothing of what the numbers count.
#![tactic(auto)]

mod games;
mod ranks;

pub use ranks::Ranks;
