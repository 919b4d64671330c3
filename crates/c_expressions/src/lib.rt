//! Expressions of C, typed: what is wrong in them, the properties in them, their typed form, and the value of the source
//! in a store.
//!
//! Knows nothing of statements and of how names come to be declared.
#![tactic(auto)]

pub mod expressions;

pub use expressions::{converted_to, expression};
