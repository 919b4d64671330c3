//! The words of a command line, as options and file names.
//!
//! Knows the words alone: which options there are and how they are written. What a value may be is looked at by the crate
//! that reads it.
#![tactic(auto)]

mod reading;

pub use reading::{WordsEnd, Written, given};
