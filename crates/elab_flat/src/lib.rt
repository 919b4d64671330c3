//! The flat form of expressions and targets whose text is without offence.
//!
//! A name becomes the number of its signal, a parameter or a loop variable the number that it is here, and what must be
//! constant its value. Nothing is refused: what an offence leaves without a value is 0, and who asks has looked for offences
//! before.
#![tactic(auto)]

pub mod expression;
pub mod number;
pub mod target;

pub use expression::flat_expr;
pub use target::{flat_target, flat_which};
