//! Circuits of words over a net of gates, and the net of a guarded list: `blast`.
#![tactic(auto)]

pub mod gates;

// Words, bit by bit.
pub mod bitwise;

// Words made of the edges of others, without a gate.
pub mod shapes;

// Sums and comparisons.
pub mod sums;

// Reductions and equality.
pub mod reductions;

// Products.
pub mod products;

// Shifts.
pub mod shifts;

// Quotients and remainders.
pub mod quotients;

// All operations.
pub mod operations;

// Edges of all terms.
pub mod edge_table;

// Terms, one node at a time.
pub mod nodes;

// Terms and their parts, on demand.
mod making;

// Whether a list can be translated.
mod order;

// Lists of steps.
mod blasting;

pub use blasting::{Blasted, blast};
pub use nodes::WireList;
pub use order::{blast_if_ordered, is_ordered};
