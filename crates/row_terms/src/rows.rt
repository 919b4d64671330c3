//! Terms side by side (5.1.14).

ghost use Rattle.std.specs.Prelude.{◌≡◌, ◌+◌, ◌*◌, ◌^◌, ◌<◌, ◌≤◌, length, IfOk};
ghost use Rattle.flat_tree.specs.Operators.{repeated};
ghost use Rattle.row_terms.specs.Rows.{IsBeside, MayStandBeside};
ghost use Rattle.term_steps.specs.Adds.{Adds};
ghost use Rattle.word_eqs.specs.Graph.{IsGraph, width_in, MOST_TERMS};

use std::alloc::AllocError;
use term_steps::join;
use word_eqs::{TermId, Terms};

/// So many copies, a number of at most so many bits: half of them twice, and one more where it is odd.
fn copies_of(terms: &mut Terms, x: TermId, count: u8, bits: u8) -> Result<TermId, AllocError>
    requires x { x.0 < length terms.old.terms }
    requires some { 0 < count }
    requires bits { count < 2 ^ bits }
    requires within { count * width_in terms.old x.0 ≤ 128 }
    requires room { length terms.old.terms + 2 * bits ≤ MOST_TERMS }
    ensures { IfOk result (λ t. Adds terms.old terms.new (count * width_in terms.old x.0) (λ v. repeated count (width_in terms.old x.0) (v.term x.0).value) 0 (2 * bits) t.0) }
{
    let _ = terms.len();
    if count == 1 {
        return Ok(x);
    }
    let half = copies_of(terms, x, count / 2, bits - 1)?;
    let both = join(terms, half, half)?;
    if count % 2 == 0 {
        return Ok(both);
    }
    let t = join(terms, both, x)?;
    Ok(t)
}

/// So many copies of a term side by side, of at most 128 bits. Want of memory is the only error.
pub fn copies(terms: &mut Terms, x: TermId, count: u8) -> Result<TermId, AllocError>
    requires x { x.0 < length terms.old.terms }
    requires some { 0 < count }
    requires within { count * width_in terms.old x.0 ≤ 128 }
    requires room { length terms.old.terms + 16 ≤ MOST_TERMS }
    ensures { IfOk result (λ t. Adds terms.old terms.new (count * width_in terms.old x.0) (λ v. repeated count (width_in terms.old x.0) (v.term x.0).value) 0 16 t.0) }
{
    let t = copies_of(terms, x, count, 8)?;
    Ok(t)
}

/// A term with another on its left, if there is one: both of at most 128 bits. Want of memory is the only error.
pub fn beside(terms: &mut Terms, left: Option<TermId>, x: TermId) -> Result<TermId, AllocError>
    requires x { x.0 < length terms.old.terms }
    requires left { MayStandBeside left terms.old x.0 }
    requires room { length terms.old.terms + 1 ≤ MOST_TERMS }
    ensures { IfOk result (λ t. IsBeside left terms.old terms.new x.0 t.0) }
{
    match left {
        None => Ok(x),
        Some(a) => {
            let t = join(terms, a, x)?;
            Ok(t)
        }
    }
}
