//! The tokens of Verilog: their kinds, and the rules by which bytes are read as them.
//!
//! Knows nothing of the grammar, and leaves blanks, comments and places to `text_scan`.
#![tactic(auto)]

mod kinds;
mod rules;

pub use kinds::{TokenKind, keywords, marks};
pub use rules::Verilog;
