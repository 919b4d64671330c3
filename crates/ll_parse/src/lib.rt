//! Parsing by a table, one token ahead, with a stack of its own and no recursion.
//!
//! A [`Table`] is a grammar with the production to use for each nonterminal before each kind of token. Whether it
//! is LL(1) is a test that a proof computes once; `parse` needs it, and then gives the one parse tree of a text, or
//! the first token with which no text of the grammar goes on. What a token is, and what a production is for, is
//! nothing to this crate.
#![tactic(auto)]

pub mod examples;
mod machine;
mod placing;
mod table;

pub use machine::parse;
pub use placing::{Placed, places};
pub use table::Table;
