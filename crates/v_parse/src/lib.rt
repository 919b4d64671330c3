//! Reads a Verilog text: its tree, or the place at which it is refused.
//!
//! A text is refused for its syntax at the first token with which the tokens so far begin no text of the grammar, and as too
//! deep at the first node that stands deeper than [`LIMIT`], where only a text that has a tree is too deep. The depth is judged
//! before anything is built.
#![tactic(auto)]

mod lexemes;
mod read;
mod tokens;

pub use read::{LIMIT, ParseEnd, parse_v};
