//! The tokens of a text by longest match, with blanks, comments and places, for any language that says which bytes
//! are a token of which kind.
#![tactic(auto)]

mod pieces;
mod scanner;
mod words;

pub use pieces::{Piece, STRAY, TokenRules};
pub use scanner::{Token, tokens_of};
pub use words::{Word, kind_in, longest_in};
