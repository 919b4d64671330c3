//! C's operators as terms, each with the checks that it makes (C99 6.5).
#![tactic(auto)]

mod arith;
mod tests_of;

pub use arith::{check_for, difference, flipped, minus, product, sum};
use joint_ir::program::PropId;
pub use sized_terms::SizedTerm;
pub use tests_of::{bitwise, compare, converted, is_set, literal, opposite};

/// A check: where the term is 0 the property breaks.
#[derive(Clone, Copy, Debug, PartialEq, Eq)]
pub struct Check {
    pub prop: PropId,
    pub test: SizedTerm,
}

/// The term of a result, with the checks that come before it: one of the divisor, and one of the result.
#[derive(Clone, Copy, Debug, PartialEq, Eq)]
pub struct Checked {
    pub division: Option<Check>,
    pub other: Option<Check>,
    pub value: SizedTerm,
}

/// A number cut to a type, and whether it is in its range.
#[derive(Clone, Copy, Debug, PartialEq, Eq)]
pub struct Cut {
    pub value: SizedTerm,
    pub fits: SizedTerm,
}
