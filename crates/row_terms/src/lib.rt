//! Parts side by side and copies of them, as terms: concatenations and replications (IEEE 1364-2005, 5.1.14).
//!
//! `specs/Rows.antt` says what the term of a row of expressions is; `proofs/Joining.antt` puts part after part. Nothing here
//! walks over an expression.
#![tactic(auto)]

mod rows;

pub use rows::{beside, copies};
