//! Numbers, names and selects whose ends are known: one term, at the width and the sign of the context.

ghost use Rattle.std.specs.Prelude.{◌≡◌, ◌+◌, ◌-◌, ◌<◌, ◌≤◌, length, slice_index, IfOk};
ghost use Rattle.bits_core.specs.Word.{IsWidth, resized};
ghost use Rattle.flat_tree.specs.Values.{part_of};
ghost use Rattle.sized_expressions.specs.Sized.{place_in};
ghost use Rattle.term_steps.specs.Adds.{Adds};
ghost use Rattle.word_eqs.specs.Graph.{IsGraph, width_in, MOST_TERMS};

use bits_core::Word;
use flat_values::LengthSign;
use std::alloc::AllocError;
use term_steps::{constant, resize, slice};
use word_eqs::{TermId, Terms};

/// A number that is known.
pub fn number(terms: &mut Terms, word: Word, at: LengthSign) -> Result<TermId, AllocError>
    requires at { IsWidth at.length }
    requires room { length terms.old.terms + 1 ≤ MOST_TERMS }
    ensures { IfOk result (λ t. Adds terms.old terms.new at.length (λ v. resized at.length at.signed word.width word.value) 0 1 t.0) }
{
    let t = constant(terms, word.resize(at.length, at.signed))?;
    Ok(t)
}

/// The bits of a number from a high end down to a low end, where its range begins at `begin`.
pub fn number_part(
    terms: &mut Terms,
    word: Word,
    begin: u32,
    high: u32,
    low: u32,
    at: LengthSign,
) -> Result<TermId, AllocError>
    requires begin { begin ≤ low }
    requires order { low ≤ high }
    requires within { high < begin + word.width }
    requires at { IsWidth at.length }
    requires room { length terms.old.terms + 1 ≤ MOST_TERMS }
    ensures { IfOk result (λ t. Adds terms.old terms.new at.length (λ v. resized at.length at.signed (high - low + 1) (part_of word.value high low begin)) 0 1 t.0) }
{
    let _width = word.width();
    let part = word.slice((high - begin) as u8, (low - begin) as u8);
    let t = number(terms, part, at)?;
    Ok(t)
}

/// The bits of a term from a high end down to a low end, where its range begins at `begin`.
pub fn term_part(
    terms: &mut Terms,
    x: TermId,
    begin: u32,
    high: u32,
    low: u32,
    at: LengthSign,
) -> Result<TermId, AllocError>
    requires x { x.0 < length terms.old.terms }
    requires begin { begin ≤ low }
    requires order { low ≤ high }
    requires within { high < begin + width_in terms.old x.0 }
    requires at { IsWidth at.length }
    requires room { length terms.old.terms + 2 ≤ MOST_TERMS }
    ensures { IfOk result (λ t. Adds terms.old terms.new at.length (λ v. resized at.length at.signed (high - low + 1) (part_of (v.term x.0).value high low begin)) 0 2 t.0) }
{
    let _width = terms.width_of(x);
    let part = slice(terms, x, (high - begin) as u8, (low - begin) as u8)?;
    let t = resize(terms, part, at.length, at.signed)?;
    Ok(t)
}

/// The term of a signal's word.
pub fn word_at(starts: &[u32], words: &[TermId], g: u32, i: u32) -> TermId
    requires start { g < length starts.now }
    requires inside { slice_index starts.now g + i < length words.now }
    ensures { result.0 ≡ place_in starts.now words.now g i }
{
    let start = starts[g as usize];
    words[start as usize + i as usize]
}
