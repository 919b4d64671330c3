//! The tokens of C: their kinds, the rules by which bytes are read as them, and what directives make of them.
//!
//! Knows nothing of the grammar, and leaves blanks, comments and places to `text_scan`.
#![tactic(auto)]

mod directives;
mod kinds;
mod rules;

pub use directives::{CToken, c_tokens};
pub use kinds::{TokenKind, keywords, marks, suffixes};
pub use rules::C;
