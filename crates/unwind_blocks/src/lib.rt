//! Statements in one another, unwound under a guard.
#![tactic(auto)]

mod blocks;
mod loops;
mod results;
mod tests_of;

pub use blocks::stmt;
