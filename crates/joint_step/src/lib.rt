//! Joint runs, one statement after another: what `joint_ir` defines as a run, carried out on a list of choices.
//!
//! Knows nothing of how all runs are searched, and of how a run is printed.
#![tactic(auto)]

mod parts;
mod run;
mod walk;

pub use run::{ReplayEnd, Replayed, replay};
