//! Selects of signals and of numbers.

ghost use Rattle.std.specs.Prelude.{◌≡◌, ◌+◌, ◌*◌, ◌≤◌, length, IfOk};
ghost use Rattle.bits_core.specs.Word.{IsWidth, IsWord};
ghost use Rattle.flat_tree.specs.Measures.{select_weight, select_nodes, number_weight, index_nodes, node};
ghost use Rattle.flat_tree.specs.Values.{select_meant, number_meant};
ghost use Rattle.flat_values.specs.Fits.{FitsSelect, FitsNumber, shapes_of};
ghost use Rattle.sized_expressions.specs.Sized.{IsKnown, IsSized};
ghost use Rattle.src_text.specs.declared.refusal.Place.{Place};
ghost use Rattle.word_eqs.specs.Graph.{IsGraph, MOST_TERMS};

use crate::leaves::{number_part, term_part, word_at};
use bits_core::Word;
use flat_tree::{FlatSelection, FlatSignal};
use flat_values::LengthSign;
use std::alloc::AllocError;
use word_eqs::{TermId, Terms};

/// A select of a signal.
pub fn select(
    terms: &mut Terms,
    signals: &[FlatSignal],
    starts: &[u32],
    words: &[TermId],
    g: u32,
    s: &FlatSelection,
    at: LengthSign,
) -> Result<TermId, AllocError>
    requires known { IsKnown (length signals.now) (shapes_of signals.now) starts.now words.now terms.old g }
    requires fits { FitsSelect (IsKnown (length signals.now) (shapes_of signals.now) starts.now words.now terms.old) (Unit {0}) (Unit {0}) (shapes_of signals.now) g s.now }
    requires at { IsWidth at.length }
    requires room { length terms.old.terms + 32 * select_nodes (shapes_of signals.now) g s.now ≤ MOST_TERMS }
    ensures { IfOk result (λ t. (p : Place) → IsSized starts.now words.now (select_meant (shapes_of signals.now) p g s.now) at.length at.signed (select_weight (shapes_of signals.now) g s.now + node) (select_nodes (shapes_of signals.now) g s.now) terms.old terms.new t.0) }
{
    match s {
        FlatSelection::Part(high, low) => {
            let begin = signals[g as usize].low;
            let x = word_at(starts, words, g, 0);
            let t = term_part(terms, x, begin, *high, *low, at)?;
            Ok(t)
        }
        _ => Err(AllocError),
    }
}

/// A select of a number, whose range begins at `begin`.
pub fn select_number(
    terms: &mut Terms,
    signals: &[FlatSignal],
    starts: &[u32],
    words: &[TermId],
    word: Word,
    begin: u32,
    s: &FlatSelection,
    at: LengthSign,
) -> Result<TermId, AllocError>
    requires fits { FitsNumber (IsKnown (length signals.now) (shapes_of signals.now) starts.now words.now terms.old) (Unit {0}) (Unit {0}) (shapes_of signals.now) word.width begin s.now }
    requires at { IsWidth at.length }
    requires room { length terms.old.terms + 32 * (1 + index_nodes (shapes_of signals.now) s.now) ≤ MOST_TERMS }
    ensures { IfOk result (λ t. (p : Place) → IsSized starts.now words.now (number_meant (shapes_of signals.now) p word begin s.now) at.length at.signed (number_weight (shapes_of signals.now) word.width begin s.now + node) (1 + index_nodes (shapes_of signals.now) s.now) terms.old terms.new t.0) }
{
    match s {
        FlatSelection::Part(high, low) => {
            let t = number_part(terms, word, begin, *high, *low, at)?;
            Ok(t)
        }
        _ => Err(AllocError),
    }
}
