//! Terms of the operators (IEEE 1364-2005, 5.1), over terms of their operands: each gives the number of `flat_tree`'s table
//! within 8 times its row of weight.
#![tactic(auto)]

mod flags;
mod pairs;
mod shifts;

pub use flags::{UnaryWay, branch, logical, unary, unary_way};
pub use pairs::{Way, divided, operate, way_of};
pub use shifts::{shift, shift_way};
