//! Wires with two drivers of one bit, and wires with a bit that no driver writes.
//!
//! A driver is an `assign`, a wire's value or a port connection here. Knows nothing of processes, nor of places in a text.
#![tactic(auto)]

mod second;
mod sets;
mod undriven;

pub use second::second_driver;
pub use undriven::undriven_wire;
