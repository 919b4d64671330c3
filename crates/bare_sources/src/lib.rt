//! A typed C program beside the tree of a Verilog text that is one module with nothing in it, and what is told of the pair that
//! they are.
//!
//! Knows nothing of texts, of how a program is unwound, or of how a verdict is found.
#![tactic(auto)]

// Whether a Verilog text is such a module, and what it is called.
mod bare;

// Whether all statements of a program are unwound, and within which bounds.
mod taken;

// What unwinds a pair.
mod unwinding;

// The pair of both, and what is told of it.
mod joined;

pub use bare::bare_name;
pub use joined::{Joined, told_beside};
pub use taken::{bounds_of, is_taken};
pub use unwinding::Unwinding;
