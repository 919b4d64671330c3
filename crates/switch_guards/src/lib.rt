//! Where control enters a `switch` (C99 6.8.4.2): a guard for each of its groups, and the ways on among them.
#![tactic(auto)]

mod entries;
mod labels;
mod ways;

pub use entries::{Entries, enter_groups};
pub use ways::{entered, switched};
