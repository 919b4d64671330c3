//! Which programs are made of statements that are unwound today.
#![tactic(auto)]

mod forms;

pub use forms::is_made;
