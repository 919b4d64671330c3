//! Tests of a guarded list: how many gates it is counted as, and whether the choices that it reads are narrow.
//!
//! They are for a caller that doesn't know it of how the list was made.
#![tactic(auto)]

mod narrow;
mod sums;

pub use narrow::are_narrow;
pub use sums::gates;
