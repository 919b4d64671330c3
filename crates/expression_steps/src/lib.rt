//! Expressions as terms, with their checks as steps under a guard (C99 6.5).
#![tactic(auto)]

mod elements;
mod exprs;
mod parts;
mod steps;

pub use exprs::expr;
pub use sized_terms::SizedTerm;
pub use steps::Split;
pub use unrolled::{Objects, Unrolled};
