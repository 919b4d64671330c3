//! Which bits of signals a flat expression reads, as sets.
//!
//! Takes expressions over vectors; memories are left to come. Knows nothing of statements.
#![tactic(auto)]

mod expressions;
mod selects;

pub use expressions::add_reads;
