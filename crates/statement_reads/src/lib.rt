//! Which bits a flat statement reads, as sets.
//!
//! Takes statements over vectors; memories are left to come. Knows nothing of what is assigned, nor of offences.
#![tactic(auto)]

mod statements;
mod targets;

pub use statements::add_statement_reads;
pub use targets::add_target_reads;
