//! Terms that say their widths, made one node at a time.
//!
//! Each function adds one term to a graph, and says its number in each valuation by those of its parts.
#![tactic(auto)]

ghost use Rattle.std.specs.Prelude.{◌≡◌, ◌+◌, ◌-◌, ◌*◌, ◌/◌, ◌%◌, ◌<◌, ◌≤◌, ◌^◌, length, IfOk, OnErr};
ghost use Rattle.bits_core.specs.Ops.{width1, width2, value1, value2};
ghost use Rattle.bits_core.specs.Word.{at_zero, resized};
ghost use Rattle.word_eqs.specs.Gates.{gates1, gates2};
ghost use Rattle.sized_terms.specs.Sized.{Has, IsMade, bits};
ghost use Rattle.word_eqs.specs.Graph.{MOST_TERMS};

use bits_core::{Op1, Op2, Word};
use std::alloc::AllocError;
use word_eqs::{TermId, TermNode, Terms};

/// A term with its width in bits.
#[derive(Clone, Copy, Debug, PartialEq, Eq)]
pub struct SizedTerm {
    pub term: TermId,
    pub width: u8,
}

/// A constant of a width, whose bits are the low ones of a number.
pub fn constant(terms: &mut Terms, width: u8, number: u128) -> Result<SizedTerm, AllocError>
    requires some { 0 < width }
    requires within { width ≤ 128 }
    requires room { length terms.old.terms < MOST_TERMS }
    ensures { IfOk result (λ t. IsMade terms.old terms.new width 0 1 t (λ v. number % 2 ^ width)) }
{
    let term = terms.add(TermNode::Const(Word::from_low_bits(width, number)))?;
    Ok(SizedTerm { term, width })
}

/// An operation on one term.
pub fn one(terms: &mut Terms, op: Op1, a: SizedTerm) -> Result<SizedTerm, AllocError>
    requires has { Has terms.old a }
    requires room { length terms.old.terms < MOST_TERMS }
    ensures { IfOk result (λ t. IsMade terms.old terms.new (width1 op a.width) (gates1 op a.width) 1 t (λ v. value1 op a.width (bits v a))) }
{
    let term = terms.add(TermNode::One(op, a.term))?;
    Ok(SizedTerm {
        term,
        width: op.width(a.width),
    })
}

/// An operation on two terms of one width.
pub fn two(terms: &mut Terms, op: Op2, a: SizedTerm, b: SizedTerm) -> Result<SizedTerm, AllocError>
    requires first { Has terms.old a }
    requires second { Has terms.old b }
    requires same { b.width ≡ a.width }
    requires room { length terms.old.terms < MOST_TERMS }
    ensures { IfOk result (λ t. IsMade terms.old terms.new (width2 op a.width) (gates2 op a.width) 1 t (λ v. value2 op a.width (bits v a) (bits v b))) }
{
    let term = terms.add(TermNode::Two(op, a.term, b.term))?;
    Ok(SizedTerm {
        term,
        width: op.width(a.width),
    })
}

/// The first of two terms of one width where a term of one bit is 1, and else the second.
pub fn choose(
    terms: &mut Terms,
    test: SizedTerm,
    a: SizedTerm,
    b: SizedTerm,
) -> Result<SizedTerm, AllocError>
    requires test { Has terms.old test }
    requires bit { test.width ≡ 1 }
    requires first { Has terms.old a }
    requires second { Has terms.old b }
    requires same { b.width ≡ a.width }
    requires room { length terms.old.terms < MOST_TERMS }
    ensures { IfOk result (λ t. IsMade terms.old terms.new a.width (3 * a.width) 1 t (λ v. at_zero (bits v test) (bits v b) (bits v a))) }
{
    let term = terms.add(TermNode::Choose(test.term, a.term, b.term))?;
    Ok(SizedTerm {
        term,
        width: a.width,
    })
}

/// A term at another width: extended by its sign or by zeros, or cut.
pub fn resize(
    terms: &mut Terms,
    a: SizedTerm,
    to: u8,
    signed: bool,
) -> Result<SizedTerm, AllocError>
    requires has { Has terms.old a }
    requires some { 0 < to }
    requires within { to ≤ 128 }
    requires room { length terms.old.terms < MOST_TERMS }
    ensures { IfOk result (λ t. IsMade terms.old terms.new to 0 1 t (λ v. resized to signed a.width (bits v a))) }
{
    let term = terms.add(TermNode::Resize(a.term, to, signed))?;
    Ok(SizedTerm { term, width: to })
}

/// The bits of a term from the high to the low, both counted from 0.
pub fn slice(terms: &mut Terms, a: SizedTerm, high: u8, low: u8) -> Result<SizedTerm, AllocError>
    requires has { Has terms.old a }
    requires order { low ≤ high }
    requires within { high < a.width }
    requires room { length terms.old.terms < MOST_TERMS }
    ensures { IfOk result (λ t. IsMade terms.old terms.new (high - low + 1) 0 1 t (λ v. bits v a / 2 ^ low % 2 ^ (high - low + 1))) }
{
    let term = terms.add(TermNode::Slice(a.term, high, low))?;
    Ok(SizedTerm {
        term,
        width: high - low + 1,
    })
}
