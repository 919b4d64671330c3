//! The statements of a list and the groups of a switch: what they do one after another, as lists, where control enters a
//! switch, and which objects are a function's own.
//!
//! `joint_ir` defines both by recursion on trees. The lemmas here say the same of the lists that a program goes over.
#![tactic(auto)]

mod cases;
mod own;

pub use cases::entry;
pub use own::own_end;
