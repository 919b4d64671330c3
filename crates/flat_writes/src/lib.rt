//! Which bits a flat target assigns, as sets.
//!
//! Takes targets whose signals are no memories. Knows nothing of statements.
#![tactic(auto)]

mod masks;
mod targets;

pub use masks::Extent;
pub use targets::add_bits;
