//! What an unwinding is: a guarded list over terms, and when it covers all runs of a pair within bounds.
//!
//! It knows nothing of how such a list is made, nor of the gates that become of it.
#![tactic(auto)]

use word_eqs::{GuardedList, Terms};

/// A guarded list over terms.
#[derive(Drop)]
pub struct Unwound {
    pub terms: Terms,
    pub list: GuardedList,
}
