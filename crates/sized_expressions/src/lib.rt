//! Terms of whole flat expressions, at a width and a sign that are handed down (IEEE 1364-2005, 5.4 and 5.5).
#![tactic(auto)]

mod leaves;
mod operators;
mod selects;
mod walk;

pub use walk::size;
