//! Words of 1 to 128 bits.
//!
//! Each operation gives its whole-number result modulo 2^width; signed ones read their operands as
//! signed numbers. Nothing here allocates or fails.
#![tactic(auto)]

mod arithmetic;
mod op;
mod word;

pub use op::{Op1, Op2};
pub use word::Word;

#[cfg(test)]
mod tests;
