//! Stores to parts, the leftmost first.

ghost use Rattle.std.specs.Prelude.{◌≡◌, ℕ, ◌+◌, ◌-◌, ◌*◌, ◌≤◌, ◌<◌, All, length, OnOk};
ghost use Rattle.flat_values.specs.Fits.{shapes_of};
ghost use Rattle.part_stores.specs.Stores.{seen, all_bits, ArePart, IsPartStored, AreStored};
ghost use Rattle.view_rows.specs.Rows.{IsRow, FitsPart};
ghost use Rattle.word_eqs.specs.Graph.{IsGraph, width_in, MOST_TERMS};

use flat_tree::FlatSignal;
use std::alloc::AllocError;
use term_steps::slice;
use view_rows::{Part, store};
use word_eqs::{TermId, Terms};

/// How many bits a part has.
fn bits(part: Part) -> u8
    requires order { part.low ≤ part.high }
    requires high { part.high < 64 }
    ensures { result ≡ part.high - part.low + 1 }
{
    part.high - part.low + 1
}

/// Stores the bits of a term below a place to a part, where a guard is 1.
fn store_piece(
    terms: &mut Terms,
    signals: &[FlatSignal],
    starts: &[u32],
    words: &mut [TermId],
    part: Part,
    value: TermId,
    top: u8,
    guard: TermId,
) -> Result<(), AllocError>
    requires row { IsRow (length signals.now) (seen (shapes_of signals.now)) starts.now words.old terms.old }
    requires fits { FitsPart (length signals.now) (seen (shapes_of signals.now)) part }
    requires high { part.high < 64 }
    requires value { value.0 < length terms.old.terms }
    requires some { part.high - part.low + 1 ≤ top }
    requires within { top ≤ width_in terms.old value.0 }
    requires guard { guard.0 < length terms.old.terms }
    requires bit { width_in terms.old guard.0 ≡ 1 }
    requires room { length terms.old.terms + 7 ≤ MOST_TERMS }
    ensures { OnOk result (IsPartStored (length signals.now) (seen (shapes_of signals.now)) starts.now words.old words.new part value.0 (top - (part.high - part.low + 1)) guard.0 terms.old terms.new) }
{
    let _ = signals;
    let n = bits(part);
    let piece = slice(terms, value, top - 1, top - n)?;
    store(terms, starts, words, part, piece, guard)?;
    Ok(())
}

/// Stores a term to parts where a guard is 1: the leftmost takes its highest bits, and each is written before the next.
/// Want of memory is the only error.
pub fn store_all(
    terms: &mut Terms,
    signals: &[FlatSignal],
    starts: &[u32],
    words: &mut [TermId],
    parts: &[Part],
    value: TermId,
    guard: TermId,
) -> Result<(), AllocError>
    requires row { IsRow (length signals.now) (seen (shapes_of signals.now)) starts.now words.old terms.old }
    requires fits { All (FitsPart (length signals.now) (seen (shapes_of signals.now))) parts.now }
    requires narrow { All ArePart parts.now }
    requires value { value.0 < length terms.old.terms }
    requires width { width_in terms.old value.0 ≡ all_bits parts.now }
    requires guard { guard.0 < length terms.old.terms }
    requires bit { width_in terms.old guard.0 ≡ 1 }
    requires room { length terms.old.terms + 7 * length parts.now ≤ MOST_TERMS }
    ensures { OnOk result (AreStored (length signals.now) (seen (shapes_of signals.now)) starts.now words.old words.new parts.now value.0 0 guard.0 terms.old terms.new) }
{
    let mut top = terms.width_of(value);
    for part in parts {
        store_piece(terms, signals, starts, words, *part, value, top, guard)?;
        top -= bits(*part);
    }
    Ok(())
}
