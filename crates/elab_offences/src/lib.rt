//! What may be wrong with the expressions and targets of a Verilog text.
//!
//! Each rule that is broken is an offence at a place. Of the offences that are noted the first by place, then number, is kept.
#![tactic(auto)]

pub mod expressions;
pub mod rules;
pub mod targets;

pub use expressions::{constant_expression, expression, selection};
pub use targets::target;
