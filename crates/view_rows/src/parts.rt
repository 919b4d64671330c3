//! Some bits of a term, changed.

ghost use Rattle.std.specs.Prelude.{◌≡◌, ◌+◌, ◌-◌, ◌*◌, ◌/◌, ◌%◌, ◌^◌, ◌<◌, ◌≤◌, length, IfOk};
ghost use Rattle.bits_core.specs.Word.{at_zero};
ghost use Rattle.term_steps.specs.Adds.{Adds};
ghost use Rattle.view_rows.specs.Parts.{upper, lower, mixed, changed as changed_to};
ghost use Rattle.word_eqs.specs.Graph.{IsGraph, width_in, MOST_TERMS};

use std::alloc::AllocError;
use term_steps::{choose, join, slice};
use word_eqs::{TermId, Terms};

/// A part with the bits of a word above it on its left, if there are any.
fn with_upper(terms: &mut Terms, word: TermId, high: u8, part: TermId) -> Result<TermId, AllocError>
    requires word { word.0 < length terms.old.terms }
    requires part { part.0 < length terms.old.terms }
    requires high { high < width_in terms.old word.0 }
    requires within { width_in terms.old word.0 - 1 - high + width_in terms.old part.0 ≤ 128 }
    requires room { length terms.old.terms + 2 ≤ MOST_TERMS }
    ensures adds { IfOk result (λ t. Adds terms.old terms.new (width_in terms.old word.0 - 1 - high + width_in terms.old part.0) (λ v. upper (width_in terms.old word.0) high (width_in terms.old part.0) (v.term word.0).value (v.term part.0).value) 0 2 t.0) }
    ensures proper { IsGraph terms.new }
{
    let width = terms.width_of(word);
    let _ = terms.len();
    if high + 1 == width {
        return Ok(part);
    }
    let above = slice(terms, word, width - 1, high + 1)?;
    let t = join(terms, above, part)?;
    Ok(t)
}

/// A part with the bits of a word below it on its right, if there are any.
fn with_lower(terms: &mut Terms, word: TermId, low: u8, part: TermId) -> Result<TermId, AllocError>
    requires word { word.0 < length terms.old.terms }
    requires part { part.0 < length terms.old.terms }
    requires low { low < width_in terms.old word.0 }
    requires within { width_in terms.old part.0 + low ≤ 128 }
    requires room { length terms.old.terms + 2 ≤ MOST_TERMS }
    ensures adds { IfOk result (λ t. Adds terms.old terms.new (width_in terms.old part.0 + low) (λ v. lower low (v.term word.0).value (v.term part.0).value) 0 2 t.0) }
    ensures proper { IsGraph terms.new }
{
    let _ = terms.len();
    if low == 0 {
        return Ok(part);
    }
    let below = slice(terms, word, low - 1, 0)?;
    let t = join(terms, part, below)?;
    Ok(t)
}

/// A word with other bits from a high one down to a low one.
fn with_part(
    terms: &mut Terms,
    word: TermId,
    high: u8,
    low: u8,
    part: TermId,
) -> Result<TermId, AllocError>
    requires word { word.0 < length terms.old.terms }
    requires part { part.0 < length terms.old.terms }
    requires order { low ≤ high }
    requires high { high < width_in terms.old word.0 }
    requires width { width_in terms.old part.0 ≡ high - low + 1 }
    requires room { length terms.old.terms + 4 ≤ MOST_TERMS }
    ensures adds { IfOk result (λ t. Adds terms.old terms.new (width_in terms.old word.0) (λ v. mixed (width_in terms.old word.0) high low (v.term word.0).value (v.term part.0).value) 0 4 t.0) }
    ensures proper { IsGraph terms.new }
{
    let _width = terms.width_of(word);
    let left = with_upper(terms, word, high, part)?;
    let t = with_lower(terms, word, low, left)?;
    Ok(t)
}

/// The bits of a word from a high one down to a low one, or a value where a guard is 1.
fn chosen(
    terms: &mut Terms,
    word: TermId,
    high: u8,
    low: u8,
    value: TermId,
    guard: TermId,
) -> Result<TermId, AllocError>
    requires word { word.0 < length terms.old.terms }
    requires value { value.0 < length terms.old.terms }
    requires guard { guard.0 < length terms.old.terms }
    requires bit { width_in terms.old guard.0 ≡ 1 }
    requires order { low ≤ high }
    requires high { high < width_in terms.old word.0 }
    requires width { width_in terms.old value.0 ≡ high - low + 1 }
    requires room { length terms.old.terms + 2 ≤ MOST_TERMS }
    ensures adds { IfOk result (λ t. Adds terms.old terms.new (high - low + 1) (λ v. at_zero (v.term guard.0).value ((v.term word.0).value / 2 ^ low % 2 ^ (high - low + 1)) (v.term value.0).value) (3 * (high - low + 1)) 2 t.0) }
    ensures proper { IsGraph terms.new }
{
    let old = slice(terms, word, high, low)?;
    let t = choose(terms, guard, value, old)?;
    Ok(t)
}

/// A word whose bits from a high one down to a low one are those of a value where a guard is 1.
pub fn changed(
    terms: &mut Terms,
    word: TermId,
    high: u8,
    low: u8,
    value: TermId,
    guard: TermId,
) -> Result<TermId, AllocError>
    requires word { word.0 < length terms.old.terms }
    requires value { value.0 < length terms.old.terms }
    requires guard { guard.0 < length terms.old.terms }
    requires bit { width_in terms.old guard.0 ≡ 1 }
    requires order { low ≤ high }
    requires high { high < width_in terms.old word.0 }
    requires width { width_in terms.old value.0 ≡ high - low + 1 }
    requires room { length terms.old.terms + 6 ≤ MOST_TERMS }
    ensures adds { IfOk result (λ t. Adds terms.old terms.new (width_in terms.old word.0) (λ v. changed_to (width_in terms.old word.0) high low (v.term guard.0).value (v.term word.0).value (v.term value.0).value) (3 * (high - low + 1)) 6 t.0) }
    ensures proper { IsGraph terms.new }
{
    let part = chosen(terms, word, high, low, value, guard)?;
    let t = with_part(terms, word, high, low, part)?;
    Ok(t)
}
