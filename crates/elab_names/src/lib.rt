//! Constant expressions of Verilog, and what the names of a module mean.
//!
//! An expression that must be constant is measured: what stands for itself has a length, a sign and a value; the rest waits
//! for the context that it is handed (IEEE 1364-2005, 5.4 and 5.5).
#![tactic(auto)]

pub mod constant;
pub mod context;
pub mod measure;
pub mod names;
pub mod operator;
pub mod scope;
pub mod select;

pub use constant::{Constant, Standing, Worth};
pub use context::Context;
pub use names::{Entry, ParameterEntry, Shape, SignalEntry, Sort, Turn};
pub use scope::Names;
