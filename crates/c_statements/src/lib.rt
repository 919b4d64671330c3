//! Statements of C, typed: what they declare, what is wrong in them, the properties in them, and their typed form.
//!
//! Knows nothing of how functions and the objects of file scope come to be declared.
#![tactic(auto)]

pub mod arrays;
pub mod calls;
pub mod labels;
pub mod simple;
pub mod walk;
