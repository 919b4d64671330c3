//! The length and the sign that a flat expression has by itself, in code.
#![tactic(auto)]

mod lengths;

pub use lengths::{LengthSign, own};
