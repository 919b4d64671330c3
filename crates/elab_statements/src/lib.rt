//! The flat form of statements whose text is without offence.
//!
//! Loops are unrolled: each is the block of its copies, in which its variable is a number. A `casez` item says which bits of
//! its values don't count. Nothing is refused: who asks has looked for offences before.
#![tactic(auto)]

pub mod pattern;
pub mod statement;

pub use pattern::flat_pattern;
pub use statement::flat_stmt;
