//! Elements of arrays whose index is a term.
#![tactic(auto)]

ghost use Rattle.std.specs.Prelude.{◌≡◌, ◌+◌, ◌*◌, ◌<◌, ◌≤◌, ◌^◌, length, IfOk, nat_eq, bit_and, max};
ghost use Rattle.bits_core.specs.Word.{bit, number, at_zero};
ghost use Rattle.joint_ir.specs.Steps.{is_within};
ghost use Rattle.sized_terms.specs.Sized.{Has, IsMade, bits};
ghost use Rattle.element_terms.specs.Elements.{AreElements, IsRead};
ghost use Rattle.word_eqs.specs.Graph.{MOST_TERMS};

use bits_core::Op2;
use sized_terms::SizedTerm;
use std::alloc::AllocError;
use word_eqs::{TermId, Terms};

/// Whether an index is this number.
fn is_place(terms: &mut Terms, index: SizedTerm, place: u32) -> Result<SizedTerm, AllocError>
    requires has { Has terms.old index }
    requires some { 0 < index.width }
    requires within { index.width ≤ 128 }
    requires below { place < 2 ^ index.width }
    requires room { length terms.old.terms + 2 ≤ MOST_TERMS }
    ensures { IfOk result (λ t. IsMade terms.old terms.new 1 (4 * index.width) 2 t (λ v. bit (nat_eq (bits v index) place))) }
{
    let n = sized_terms::constant(terms, index.width, place as u128)?;
    let t = sized_terms::two(terms, Op2::Eq, index, n)?;
    Ok(t)
}

/// An element where the index is its place, and else what was found so far.
fn chosen(
    terms: &mut Terms,
    index: SizedTerm,
    place: u32,
    element: SizedTerm,
    so_far: SizedTerm,
) -> Result<SizedTerm, AllocError>
    requires has { Has terms.old index }
    requires some { 0 < index.width }
    requires within { index.width ≤ 128 }
    requires below { place < 2 ^ index.width }
    requires element { Has terms.old element }
    requires so_far { Has terms.old so_far }
    requires same { so_far.width ≡ element.width }
    requires room { length terms.old.terms + 3 ≤ MOST_TERMS }
    ensures { IfOk result (λ t. IsMade terms.old terms.new element.width (4 * index.width + 3 * element.width) 3 t (λ v. at_zero (bit (nat_eq (bits v index) place)) (bits v so_far) (bits v element))) }
{
    let here = is_place(terms, index, place)?;
    let t = sized_terms::choose(terms, here, element, so_far)?;
    Ok(t)
}

/// The element of an array at an index that is within it.
pub fn read(
    terms: &mut Terms,
    index: SizedTerm,
    elements: &[TermId],
    width: u8,
) -> Result<SizedTerm, AllocError>
    requires has { Has terms.old index }
    requires some { 0 < index.width }
    requires within { index.width ≤ 128 }
    requires filled { 0 < length elements.now }
    requires elements { AreElements terms.old elements.now width }
    requires fits { length elements.now ≤ 2 ^ index.width }
    requires few { length elements.now < 4294967296 }
    requires room { length terms.old.terms + 3 * length elements.now ≤ MOST_TERMS }
    ensures { IfOk result (λ t. IsRead terms.old terms.new index elements.now width (length elements.now) t) }
{
    // The terms are a graph.
    let _ = terms.len();
    let mut t = SizedTerm {
        term: elements[0],
        width,
    };
    for k in 1..elements.len() {
        let element = SizedTerm {
            term: elements[k],
            width,
        };
        t = chosen(terms, index, k as u32, element, t)?;
    }
    Ok(t)
}

/// What an element becomes by a write under a guard: the new value where the guard is 1 and the index is its place.
pub fn replaced(
    terms: &mut Terms,
    guard: SizedTerm,
    index: SizedTerm,
    place: u32,
    new: SizedTerm,
    old: SizedTerm,
) -> Result<SizedTerm, AllocError>
    requires guard { Has terms.old guard }
    requires bit { guard.width ≡ 1 }
    requires has { Has terms.old index }
    requires some { 0 < index.width }
    requires within { index.width ≤ 128 }
    requires below { place < 2 ^ index.width }
    requires first { Has terms.old new }
    requires second { Has terms.old old }
    requires same { old.width ≡ new.width }
    requires room { length terms.old.terms + 4 ≤ MOST_TERMS }
    ensures { IfOk result (λ t. IsMade terms.old terms.new new.width (4 * index.width + 1 + 3 * new.width) 4 t (λ v. at_zero (bit_and (bits v guard) (bit (nat_eq (bits v index) place))) (bits v old) (bits v new))) }
{
    let here = is_place(terms, index, place)?;
    let both = sized_terms::two(terms, Op2::And, guard, here)?;
    let t = sized_terms::choose(terms, both, new, old)?;
    Ok(t)
}

/// The width at which an index is compared with a length.
fn compared_width(width: u8) -> u8
    ensures { result ≡ max 33 width }
{
    if width < 33 { 33 } else { width }
}

/// Whether an index is within an array of so many elements. It is compared in at least 33 bits, where a negative one is past
/// every length.
pub fn within(
    terms: &mut Terms,
    index: SizedTerm,
    signed: bool,
    count: u32,
) -> Result<SizedTerm, AllocError>
    requires has { Has terms.old index }
    requires some { 0 < index.width }
    requires wide { index.width ≤ 128 }
    requires room { length terms.old.terms + 3 ≤ MOST_TERMS }
    ensures { IfOk result (λ t. IsMade terms.old terms.new 1 (10 * max 33 index.width) 3 t (λ v. bit (is_within count (number signed index.width (bits v index))))) }
{
    let width = compared_width(index.width);
    let wide = sized_terms::resize(terms, index, width, signed)?;
    let limit = sized_terms::constant(terms, width, count as u128)?;
    let t = sized_terms::two(terms, Op2::LtU, wide, limit)?;
    Ok(t)
}
