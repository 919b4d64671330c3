//! A word of a memory at an index.

ghost use Rattle.std.specs.Prelude.{true, ◌≡◌, ◌+◌, ◌-◌, ◌*◌, ◌^◌, ◌<◌, ◌≤◌, All, length, slice_index, nat_eq, nat_lt, if◌then◌else◌, IfOk};
ghost use Rattle.bits_core.specs.Word.{number, bit, at_zero};
ghost use Rattle.word_eqs.specs.Graph.{IsGraph, width_in, places, MOST_TERMS};
ghost use Rattle.word_eqs.specs.declared.term.TermId.{TermId as Id};
ghost use Rattle.term_steps.specs.Adds.{Adds};
ghost use Rattle.flat_tree.specs.Measures.{word_row, node};
ghost use Rattle.flat_tree.specs.Selects.{word_read};
ghost use Rattle.select_terms.specs.Words.{found_then};

use bits_core::{Op2, Word};
use std::alloc::AllocError;
use term_steps::{choose, constant, two};
use word_eqs::{TermId, Terms};

/// How many bits an index has besides its sign.
fn bits_of(width: u8, signed: bool) -> u8
    requires { 0 < width }
    ensures { result ≡ (if signed then width - 1 else width) }
{
    if signed { width - 1 } else { width }
}

/// Whether a number has at most so many bits.
fn fits(number: u32, bits: u8) -> bool
    ensures { result ≡ nat_lt number (2 ^ bits) }
{
    if bits >= 32 {
        return true;
    }
    (number as u64) < (1 << (bits as u32))
}

/// A word where the index is its place, and else what was found so far.
fn chosen(
    terms: &mut Terms,
    index: TermId,
    place: u32,
    word: TermId,
    so_far: TermId,
) -> Result<TermId, AllocError>
    requires index { index.0 < length terms.old.terms }
    requires word { word.0 < length terms.old.terms }
    requires so_far { so_far.0 < length terms.old.terms }
    requires width { width_in terms.old so_far.0 ≡ width_in terms.old word.0 }
    requires room { length terms.old.terms + 3 ≤ MOST_TERMS }
    requires fits { place < 2 ^ width_in terms.old index.0 }
    ensures adds { IfOk result (λ t. Adds terms.old terms.new (width_in terms.old word.0) (λ v. at_zero (bit (nat_eq (v.term index.0).value place)) (v.term so_far.0).value (v.term word.0).value) (4 * width_in terms.old index.0 + 3 * width_in terms.old word.0) 3 t.0) }
    ensures proper { IsGraph terms.new }
{
    let width = terms.width_of(index);
    let number = constant(terms, Word::from_low_bits(width, place as u128))?;
    let here = two(terms, Op2::Eq, index, number)?;
    let t = choose(terms, here, word, so_far)?;
    Ok(t)
}

/// What is found once one word more was looked at. No index is a place that has more bits.
fn found(
    terms: &mut Terms,
    index: TermId,
    signed: bool,
    place: u32,
    word: TermId,
    so_far: TermId,
) -> Result<TermId, AllocError>
    requires index { index.0 < length terms.old.terms }
    requires word { word.0 < length terms.old.terms }
    requires so_far { so_far.0 < length terms.old.terms }
    requires width { width_in terms.old so_far.0 ≡ width_in terms.old word.0 }
    requires room { length terms.old.terms + 3 ≤ MOST_TERMS }
    ensures adds { IfOk result (λ t. Adds terms.old terms.new (width_in terms.old word.0) (λ v. found_then signed (width_in terms.old index.0) (v.term index.0).value place (v.term so_far.0).value (v.term word.0).value) (4 * width_in terms.old index.0 + 3 * width_in terms.old word.0) 3 t.0) }
    ensures proper { IsGraph terms.new }
{
    let width = terms.width_of(index);
    let _ = terms.len();
    if !fits(place, bits_of(width, signed)) {
        return Ok(so_far);
    }
    let t = chosen(terms, index, place, word, so_far)?;
    Ok(t)
}

/// The word of a memory at an index; out of range it is the site's.
pub fn read_word(
    terms: &mut Terms,
    index: TermId,
    signed: bool,
    words: &[TermId],
    site: TermId,
) -> Result<TermId, AllocError>
    requires index { index.0 < length terms.old.terms }
    requires site { site.0 < length terms.old.terms }
    requires words { All (λ (t : Id). t.0 < length terms.old.terms) words.now }
    requires widths { All (λ (t : Id). width_in terms.old t.0 ≡ width_in terms.old site.0) words.now }
    requires few { length words.now ≤ 4096 }
    requires room { length terms.old.terms + 3 * length words.now ≤ MOST_TERMS }
    ensures adds { IfOk result (λ t. Adds terms.old terms.new (width_in terms.old site.0) (λ v. word_read (λ j. (v.term (slice_index (places words.now) j)).value) (length words.now) (v.term site.0).value (number signed (width_in terms.old index.0) (v.term index.0).value)) (8 * (word_row true (length words.now) (width_in terms.old site.0) (width_in terms.old index.0) + node)) (3 * length words.now) t.0) }
    ensures proper { IsGraph terms.new }
{
    let _ = terms.len();
    let mut t = site;
    for j in 0..words.len() {
        t = found(terms, index, signed, j as u32, words[j], t)?;
    }
    Ok(t)
}
