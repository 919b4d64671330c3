//! The ports of a Verilog module, by its text alone (IEEE 1364-2005, 12.3).
#![tactic(auto)]

pub mod directed;
pub mod ports;

pub use directed::{Directed, directed_in};
pub use ports::{Ports, module_ports};
