//! Operands at the widths and signs of their contexts, and each operator over their terms, at the width and the sign of the
//! whole (IEEE 1364-2005, Table 5-22, 5.4.1 and 5.5.2).
//!
//! It stands on terms of operators (`operator_terms`) and on lengths and signs (`flat_values`). Nothing here walks over an
//! expression.
#![tactic(auto)]

mod made;
mod stand;

pub use made::{combine, divide, unary};
pub use stand::{OperandContexts, Operands, contexts, divides, operand_form, unary_context};
