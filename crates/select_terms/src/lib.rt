//! Terms of a select by an index, `a[i]`, `a[i +: n]` and `a[i -: n]`, and of a word of a memory.
//!
//! A bit out of range is the bit at the same place of the site's number. The terms are over plain words: nothing here knows
//! of expressions.
#![tactic(auto)]

mod memory_word;
mod selection_terms;

pub use memory_word::read_word;
pub use selection_terms::select;
