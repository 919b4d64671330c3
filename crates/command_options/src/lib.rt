//! The options of the command, from its words.
//!
//! Knows how options are written from `command_words`, and which values they may have; nothing of files or of what a run is.
#![tactic(auto)]

mod asked;
mod limits;
mod names;
mod numbers;
mod reading;

pub use asked::{Decide, Options, UsageEnd};
pub use reading::options;
