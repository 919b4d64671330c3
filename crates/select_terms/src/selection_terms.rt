//! A select with an index.
//!
//! The signal, with as many zeros to its right as bits are read, is shifted down to the place of the lowest
//! bit; so is a word of ones, which tells the bits in range. Above and below there are zeros alone, and an
//! index that names no bit gives a place beyond all of them.

ghost use Rattle.std.specs.Prelude.{false, ◌≡◌, ◌+◌, ◌-◌, ◌*◌, ◌/◌, ◌%◌, ◌^◌, ◌<◌, ◌≤◌, length, max, true, pos, ◌-ℤ◌, nat_lt, bit_and, bit_or, if◌then◌else◌, IfOk};
ghost use Rattle.bits_core.specs.Word.{number, modulo, resized};
ghost use Rattle.word_eqs.specs.Graph.{IsGraph, width_in, MOST_TERMS};
ghost use Rattle.word_eqs.specs.Meaning.{Values};
ghost use Rattle.term_steps.specs.Adds.{Adds};
ghost use Rattle.select_terms.specs.Shifted.{mixed, place_of};
ghost use Rattle.flat_tree.specs.Measures.{select_row, node};
ghost use Rattle.flat_tree.specs.Selects.{bits_read};

use bits_core::{Op1, Op2, Word};
use std::alloc::AllocError;
use term_steps::{choose, constant, highest, join, resize, turned, two};
use word_eqs::{TermId, Terms};

/// One more than the greatest index of a width.
fn above_all(width: u8, signed: bool) -> u128
    requires some { 0 < width }
    requires within { width < 128 }
    ensures value { result ≡ (if signed then 2 ^ (width - 1) else 2 ^ width) }
    ensures within { result ≤ 2 ^ 127 }
{
    if signed {
        1 << ((width - 1) as u32)
    } else {
        1 << (width as u32)
    }
}

/// The greater of two widths.
fn greater(a: u8, b: u8) -> u8
    ensures { result ≡ max a b }
{
    if a < b { b } else { a }
}

/// The place of the lowest bit that is read, counted from `bits` below the signal's lowest.
fn place(
    terms: &mut Terms,
    index: TermId,
    signed: bool,
    lowest: u64,
    bits: u8,
    width: u8,
) -> Result<TermId, AllocError>
    requires there { index.0 < length terms.old.terms }
    requires some { 0 < width }
    requires within { width ≤ 128 }
    requires room { length terms.old.terms + 3 ≤ MOST_TERMS }
    ensures adds { IfOk result (λ t. Adds terms.old terms.new width (λ v. (resized width signed (width_in terms.old index.0) (v.term index.0).value + modulo width (pos (bits % 2 ^ width) -ℤ pos (lowest % 2 ^ width))) % 2 ^ width) (10 * width) 3 t.0) }
    ensures proper { IsGraph terms.new }
{
    let wide = resize(terms, index, width, signed)?;
    let up = Word::from_low_bits(width, bits as u128);
    let down = Word::from_low_bits(width, lowest as u128);
    let offset = constant(terms, up.apply2(Op2::Sub, down))?;
    let t = two(terms, Op2::Add, wide, offset)?;
    Ok(t)
}

/// So many bits from a place on, of a term with as many zeros to its right.
fn bits_from(terms: &mut Terms, a: TermId, bits: u8, place: TermId) -> Result<TermId, AllocError>
    requires a { a.0 < length terms.old.terms }
    requires place { place.0 < length terms.old.terms }
    requires some { 0 < bits }
    requires fits { width_in terms.old a.0 + bits ≤ width_in terms.old place.0 }
    requires room { length terms.old.terms + 5 ≤ MOST_TERMS }
    ensures adds { IfOk result (λ t. Adds terms.old terms.new bits (λ v. ((v.term a.0).value * 2 ^ bits) / 2 ^ (v.term place.0).value % 2 ^ bits) (40 * width_in terms.old place.0) 5 t.0) }
    ensures proper { IsGraph terms.new }
{
    let width = terms.width_of(place);
    let zeros = constant(terms, Word::from_low_bits(bits, 0))?;
    let padded = join(terms, a, zeros)?;
    let wide = resize(terms, padded, width, false)?;
    let moved = two(terms, Op2::ShrU, wide, place)?;
    let t = resize(terms, moved, bits, false)?;
    Ok(t)
}

/// The first where the mask has ones, and else the second. The first is zero where the mask is.
fn either(
    terms: &mut Terms,
    first: TermId,
    mask: TermId,
    second: TermId,
) -> Result<TermId, AllocError>
    requires first { first.0 < length terms.old.terms }
    requires mask { mask.0 < length terms.old.terms }
    requires second { second.0 < length terms.old.terms }
    requires masks { width_in terms.old mask.0 ≡ width_in terms.old first.0 }
    requires seconds { width_in terms.old second.0 ≡ width_in terms.old first.0 }
    requires room { length terms.old.terms + 3 ≤ MOST_TERMS }
    ensures adds { IfOk result (λ t. Adds terms.old terms.new (width_in terms.old first.0) (λ v. bit_or (v.term first.0).value (bit_and (v.term second.0).value (2 ^ width_in terms.old first.0 - 1 - (v.term mask.0).value))) (2 * width_in terms.old first.0) 3 t.0) }
    ensures proper { IsGraph terms.new }
{
    let outside = turned(terms, mask)?;
    let other = two(terms, Op2::And, second, outside)?;
    let t = two(terms, Op2::Or, first, other)?;
    Ok(t)
}

/// The bits of a signal from a place on that is counted at a width, and the site's where there are none.
fn shifted(
    terms: &mut Terms,
    signal: TermId,
    index: TermId,
    signed: bool,
    lowest: u64,
    width: u8,
    site: TermId,
) -> Result<TermId, AllocError>
    requires signal { signal.0 < length terms.old.terms }
    requires index { index.0 < length terms.old.terms }
    requires site { site.0 < length terms.old.terms }
    requires fits { width_in terms.old signal.0 + width_in terms.old site.0 ≤ width }
    requires within { width ≤ 128 }
    requires room { length terms.old.terms + 17 ≤ MOST_TERMS }
    ensures adds { IfOk result (λ t. Adds terms.old terms.new (width_in terms.old site.0) (λ v. mixed (width_in terms.old site.0) (width_in terms.old signal.0) (v.term signal.0).value (v.term site.0).value (place_of width signed (width_in terms.old index.0) (v.term index.0).value (width_in terms.old site.0) lowest)) (90 * width + 2 * width_in terms.old site.0) 17 t.0) }
    ensures proper { IsGraph terms.new }
{
    let bits = terms.width_of(site);
    let whole = terms.width_of(signal);
    let place = place(terms, index, signed, lowest, bits, width)?;
    let ones = constant(terms, Word::from_low_bits(whole, 0).apply1(Op1::Not))?;
    let read = bits_from(terms, signal, bits, place)?;
    let mask = bits_from(terms, ones, bits, place)?;
    let t = either(terms, read, mask, site)?;
    Ok(t)
}

/// The bits of a signal at an index, where some index of its width may name one.
fn within_reach(
    terms: &mut Terms,
    signal: TermId,
    index: TermId,
    signed: bool,
    lowest: u64,
    site: TermId,
) -> Result<TermId, AllocError>
    requires signal { signal.0 < length terms.old.terms }
    requires index { index.0 < length terms.old.terms }
    requires site { site.0 < length terms.old.terms }
    requires narrow { width_in terms.old index.0 < 128 }
    requires fits { width_in terms.old signal.0 + width_in terms.old site.0 ≤ 128 }
    requires room { length terms.old.terms + 17 ≤ MOST_TERMS }
    requires reach { lowest < width_in terms.old site.0 + (if signed then 2 ^ (width_in terms.old index.0 - 1) else 2 ^ width_in terms.old index.0) }
    ensures adds { IfOk result (λ t. Adds terms.old terms.new (width_in terms.old site.0) (λ v. bits_read (width_in terms.old site.0) (width_in terms.old signal.0) (v.term signal.0).value (v.term site.0).value (number signed (width_in terms.old index.0) (v.term index.0).value -ℤ pos lowest)) (90 * max (width_in terms.old index.0 + 1) (width_in terms.old signal.0 + width_in terms.old site.0) + 2 * width_in terms.old site.0) 17 t.0) }
    ensures proper { IsGraph terms.new }
{
    let bits = terms.width_of(site);
    let whole = terms.width_of(signal);
    let narrow = terms.width_of(index);
    let width = greater(narrow + 1, whole + bits);
    let t = shifted(terms, signal, index, signed, lowest, width, site)?;
    Ok(t)
}

/// The bits of a signal at a signed index of the greatest width, which leaves no room for a carry and needs none.
fn at_full_width(
    terms: &mut Terms,
    signal: TermId,
    index: TermId,
    lowest: u64,
    site: TermId,
) -> Result<TermId, AllocError>
    requires signal { signal.0 < length terms.old.terms }
    requires index { index.0 < length terms.old.terms }
    requires site { site.0 < length terms.old.terms }
    requires wide { width_in terms.old index.0 ≡ 128 }
    requires fits { width_in terms.old signal.0 + width_in terms.old site.0 ≤ 128 }
    requires lowest { lowest < 2 ^ 33 }
    requires room { length terms.old.terms + 17 ≤ MOST_TERMS }
    ensures adds { IfOk result (λ t. Adds terms.old terms.new (width_in terms.old site.0) (λ v. bits_read (width_in terms.old site.0) (width_in terms.old signal.0) (v.term signal.0).value (v.term site.0).value (number true (width_in terms.old index.0) (v.term index.0).value -ℤ pos lowest)) (90 * 128 + 2 * width_in terms.old site.0) 17 t.0) }
    ensures proper { IsGraph terms.new }
{
    let _whole = terms.width_of(signal);
    let t = shifted(terms, signal, index, true, lowest, 128, site)?;
    Ok(t)
}

/// The bits of a signal at an index of the greatest width. Without sign, one whose highest bit is 1 names none.
fn widest(
    terms: &mut Terms,
    signal: TermId,
    index: TermId,
    signed: bool,
    lowest: u64,
    site: TermId,
) -> Result<TermId, AllocError>
    requires signal { signal.0 < length terms.old.terms }
    requires index { index.0 < length terms.old.terms }
    requires site { site.0 < length terms.old.terms }
    requires wide { width_in terms.old index.0 ≡ 128 }
    requires fits { width_in terms.old signal.0 + width_in terms.old site.0 ≤ 128 }
    requires lowest { lowest < 2 ^ 33 }
    requires room { length terms.old.terms + 19 ≤ MOST_TERMS }
    ensures adds { IfOk result (λ t. Adds terms.old terms.new (width_in terms.old site.0) (λ v. bits_read (width_in terms.old site.0) (width_in terms.old signal.0) (v.term signal.0).value (v.term site.0).value (number signed (width_in terms.old index.0) (v.term index.0).value -ℤ pos lowest)) (90 * 128 + 5 * width_in terms.old site.0) 19 t.0) }
    ensures proper { IsGraph terms.new }
{
    let read = at_full_width(terms, signal, index, lowest, site)?;
    if signed {
        return Ok(read);
    }
    let far = highest(terms, index)?;
    let t = choose(terms, far, site, read)?;
    Ok(t)
}

/// The bits of a signal by an index, as many as the site has; those out of range are the site's. `lowest` is the index at
/// which the lowest bit that is read is the signal's lowest.
pub fn select(
    terms: &mut Terms,
    signal: TermId,
    lowest: u64,
    index: TermId,
    signed: bool,
    site: TermId,
) -> Result<TermId, AllocError>
    requires signal { signal.0 < length terms.old.terms }
    requires index { index.0 < length terms.old.terms }
    requires site { site.0 < length terms.old.terms }
    requires fits { width_in terms.old signal.0 + width_in terms.old site.0 ≤ 128 }
    requires lowest { lowest < 2 ^ 33 }
    requires room { length terms.old.terms + 19 ≤ MOST_TERMS }
    ensures adds { IfOk result (λ t. Adds terms.old terms.new (width_in terms.old site.0) (λ v. bits_read (width_in terms.old site.0) (width_in terms.old signal.0) (v.term signal.0).value (v.term site.0).value (number signed (width_in terms.old index.0) (v.term index.0).value -ℤ pos lowest)) (8 * (select_row false true (width_in terms.old signal.0) (width_in terms.old index.0) (width_in terms.old site.0) + node)) 19 t.0) }
    ensures proper { IsGraph terms.new }
{
    let bits = terms.width_of(site);
    let narrow = terms.width_of(index);
    let _ = terms.len();
    if narrow == 128 {
        return widest(terms, signal, index, signed, lowest, site);
    }
    if lowest as u128 >= above_all(narrow, signed) + bits as u128 {
        return Ok(site);
    }
    let t = within_reach(terms, signal, index, signed, lowest, site)?;
    Ok(t)
}
