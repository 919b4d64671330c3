//! The words of the typer of C: integer types and how operands meet, integer constants, what operators are and which
//! properties they have, and what a typer notes on its way.
//!
//! Knows nothing of names, scopes and statements, nor of what an expression is made of.
#![tactic(auto)]

pub mod literal;
pub mod marks;
pub mod notes;
pub mod types;

pub use joint_ir::INT;
pub use literal::{Literal, read_literal};
pub use marks::{Meaning, division_kind, meant, other_kind, unary_kind, unary_op, update_op};
pub use notes::{Notes, Site, number};
pub use types::{common, named, promoted};
