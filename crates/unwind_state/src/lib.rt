//! The state of an unwinding: a term for each element and each word that a run holds, the guards of the ways on, and how
//! both change under a guard.
#![tactic(auto)]

mod guards;
mod state;
mod steps;
mod writes;

pub use guards::{and_bit, chosen, gathered, joined, merged, or, split, turned};
pub use state::{Flow, Guard, Sides, State};
pub use steps::{cut, draw, prop, term_of};
pub use writes::put;
