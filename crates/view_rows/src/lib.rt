//! Terms that stand for the bits of a view, and stores to them.
//!
//! A row has the term of each word of each signal. In a valuation it stands for a view, and a store under a guard makes of it
//! a row for the view after the writes. Nothing here knows of expressions, targets or statements.
#![tactic(auto)]

mod parts;
mod stores;

pub use stores::{Part, store};
