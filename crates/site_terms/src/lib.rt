//! Sites as terms: the numbers that stand for what the standard calls unknown are variables.
//!
//! `specs/Sizes.antt` has the record by which a walk over an expression says what it adds, sites and all, and
//! `proofs/Linking.antt` puts two such records together. Nothing here walks over an expression.
#![tactic(auto)]

mod sites;

pub use sites::site;
