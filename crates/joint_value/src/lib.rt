//! The values of typed expressions: the numbers that C's objects hold, and what an expression over them gives.
//!
//! Stands on the definition of a run in `joint_ir`, and knows nothing of statements.
#![tactic(auto)]

pub mod arith;
mod exprs;
mod store;

pub use exprs::value;
pub use store::{Rows, Store};
