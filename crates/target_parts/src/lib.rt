//! The parts of signals that a target writes, from its left.
//!
//! Takes whole signals, parts with known ends and concatenations of them. Knows nothing of statements.
#![tactic(auto)]

mod targets;

pub use targets::target_parts;
