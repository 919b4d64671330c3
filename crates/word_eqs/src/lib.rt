//! Terms over words, and lists of steps under guards.
//!
//! Terms are a graph: a term names its parts by their places, and parts stand before what they are
//! parts of. Words and their operations are `bits_core`'s; nothing here knows of C or Verilog.
#![tactic(auto)]

mod list;
mod term;
mod terms;

use bits_core::Word;
pub use list::{Act, GuardedList, Step};
use sqlite_items::Items;
pub use term::{MOST_TERMS, Term, TermId, TermNode, VarId};
pub use terms::Terms;

/// A list of words.
pub type Words = Items<Word>;

/// A list of names of terms.
pub type TermIds = Items<TermId>;

#[cfg(test)]
mod tests;
