//! What may be wrong with ranges, parameters, ports and names that are declared (IEEE 1364-2005, 4.3.1, 4.9, 4.10 and 12.3.3).
#![tactic(auto)]

pub mod names;
pub mod ports;
pub mod ranges;

pub use names::{declared_again, parameter};
pub use ranges::{memory_range, optional_range, vector_range};
