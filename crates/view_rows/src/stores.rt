//! A store to part of a word of a row.

ghost use Rattle.std.specs.Prelude.{◌≡◌, ℕ, ◌+◌, ◌-◌, ◌<◌, ◌≤◌, length, slice_index, OnOk};
ghost use Rattle.v_views.specs.Spots.{Shape};
ghost use Rattle.view_rows.specs.Rows.{place_in, IsRow, FitsPart, IsStored};
ghost use Rattle.word_eqs.specs.Graph.{IsGraph, width_in, MOST_TERMS};

use crate::parts::changed;
use std::alloc::AllocError;
use word_eqs::{TermId, Terms};

/// Bits of a word of a signal from a high one down to a low one, counted from 0; the word of what is no memory is 0.
#[derive(Clone, Copy, Debug, PartialEq, Eq)]
pub struct Part {
    pub signal: u32,
    pub word: u32,
    pub high: u8,
    pub low: u8,
}

/// Stores a term to part of a word where a guard is 1. `starts` has the place in `words` of each signal's first word. At
/// most 3 gates a bit. Want of memory is the only error.
pub fn store(
    terms: &mut Terms,
    starts: &[u32],
    words: &mut [TermId],
    part: Part,
    value: TermId,
    guard: TermId,
) -> Result<(), AllocError>
    requires start { part.signal < length starts.now }
    requires inside { slice_index starts.now part.signal + part.word < length words.old }
    requires there { place_in starts.now words.old part.signal part.word < length terms.old.terms }
    requires order { part.low ≤ part.high }
    requires high { part.high < width_in terms.old (place_in starts.now words.old part.signal part.word) }
    requires value { value.0 < length terms.old.terms }
    requires width { width_in terms.old value.0 ≡ part.high - part.low + 1 }
    requires guard { guard.0 < length terms.old.terms }
    requires bit { width_in terms.old guard.0 ≡ 1 }
    requires room { length terms.old.terms + 6 ≤ MOST_TERMS }
    ensures stored { OnOk result ((count : ℕ) (shape : ℕ → Shape) → IsRow count shape starts.now words.old terms.old → FitsPart count shape part → IsStored count shape starts.now words.old words.new part value.0 guard.0 terms.old terms.new) }
    ensures proper { IsGraph terms.new }
{
    let at = starts[part.signal as usize] as usize + part.word as usize;
    let t = changed(terms, words[at], part.high, part.low, value, guard)?;
    words[at] = t;
    Ok(())
}
