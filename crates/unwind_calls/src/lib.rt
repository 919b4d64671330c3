//! Calls of functions with bodies, unwound under a guard: what stands before a body and behind it.
#![tactic(auto)]

mod bodies;
mod brace;
mod entries;
mod parameters;
mod rows;
mod values;

pub use bodies::{Caller, begin, leave};
pub use brace::close;
pub use entries::{may_enter, nought, refuse};
pub use parameters::set_params;
pub use rows::{kept, put_back};
pub use values::arguments;
