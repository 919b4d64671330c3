//! What the names of a C text mean: scopes, and what paths lead to.
//!
//! Knows nothing of expressions and statements, nor of offences.
#![tactic(auto)]

pub mod paths;
pub mod scope;
