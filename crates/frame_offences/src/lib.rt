//! Offences of drivers, judged from the sets of bits that they write: a bit with two drivers, and a bit with none.
//!
//! A driver is a set of bits here. Knows nothing of statements, nor of where a driver stands in a text.
#![tactic(auto)]

mod masks;
mod missing;
mod writers;

pub use missing::first_missing;
pub use writers::second_writer;
