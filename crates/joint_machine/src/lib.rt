//! What a joint run holds at one moment, and what its statements do without the calls in them.
//!
//! A machine carries the state of a run, the choices that are left and what was seen so far. Knows nothing of blocks,
//! loops and calls, and of how all runs are searched.
#![tactic(auto)]

pub mod activation;
pub mod machine;
pub mod reaching;
pub mod setting;
pub mod simple;

pub use machine::Machine;
pub use setting::Activation;
