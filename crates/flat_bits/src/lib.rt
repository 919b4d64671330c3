//! Which bits of its signal the selection of a flat target names, as masks.
//!
//! Takes signals that are no memory, and targets whose constant indexes are numbers. Knows nothing of statements.
#![tactic(auto)]

mod index;
mod selections;

pub use index::{Index, constant_index};
pub use selections::{Named, indexed, named_bits, part, span};
