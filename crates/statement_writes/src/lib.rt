//! Which bits a flat statement may assign, as sets.
//!
//! Takes statements whose targets are no memories. Knows nothing of what is read, nor of offences.
#![tactic(auto)]

mod assigned;

pub use assigned::add_assigned;
