//! One term more, by what its parts are worth.

ghost use Rattle.std.specs.Prelude.{◌≡◌, ◌+◌, ◌-◌, ◌*◌, ◌/◌, ◌%◌, ◌^◌, ◌<◌, ◌≤◌, length, IfOk};
ghost use Rattle.bits_core.specs.Word.{at_zero, resized};
ghost use Rattle.bits_core.specs.Ops.{width1, value1, width2, value2};
ghost use Rattle.word_eqs.specs.Graph.{IsGraph, width_in, width_of_var, MOST_TERMS};
ghost use Rattle.word_eqs.specs.Meaning.{Values};
ghost use Rattle.word_eqs.specs.Gates.{gates1, gates2};
ghost use Rattle.term_steps.specs.Adds.{Adds};

use bits_core::{Op1, Op2, Word};
use std::alloc::AllocError;
use word_eqs::{TermId, TermNode, Terms, VarId};

/// A word that is known.
pub fn constant(terms: &mut Terms, word: Word) -> Result<TermId, AllocError>
    requires room { length terms.old.terms + 1 ≤ MOST_TERMS }
    ensures adds { IfOk result (λ t. Adds terms.old terms.new word.width (λ v. word.value) 0 1 t.0) }
    ensures proper { IsGraph terms.new }
{
    let _width = word.width();
    let t = terms.add(TermNode::Const(word))?;
    Ok(t)
}

/// The word of a variable.
pub fn variable(terms: &mut Terms, x: VarId) -> Result<TermId, AllocError>
    requires x { x.0 < length terms.old.vars }
    requires room { length terms.old.terms + 1 ≤ MOST_TERMS }
    ensures adds { IfOk result (λ t. Adds terms.old terms.new (width_of_var terms.old x.0) (λ v. (v.var x.0).value) 0 1 t.0) }
    ensures proper { IsGraph terms.new }
{
    let t = terms.add(TermNode::Var(x))?;
    Ok(t)
}

/// An operation on one term.
pub fn one(terms: &mut Terms, op: Op1, a: TermId) -> Result<TermId, AllocError>
    requires a { a.0 < length terms.old.terms }
    requires room { length terms.old.terms + 1 ≤ MOST_TERMS }
    ensures adds { IfOk result (λ t. Adds terms.old terms.new (width1 op (width_in terms.old a.0)) (λ v. value1 op (width_in terms.old a.0) (v.term a.0).value) (gates1 op (width_in terms.old a.0)) 1 t.0) }
    ensures proper { IsGraph terms.new }
{
    let t = terms.add(TermNode::One(op, a))?;
    Ok(t)
}

/// The bits of a term from the high to the low, counted from 0.
pub fn slice(terms: &mut Terms, a: TermId, high: u8, low: u8) -> Result<TermId, AllocError>
    requires a { a.0 < length terms.old.terms }
    requires order { low ≤ high }
    requires within { high < width_in terms.old a.0 }
    requires room { length terms.old.terms + 1 ≤ MOST_TERMS }
    ensures adds { IfOk result (λ t. Adds terms.old terms.new (high - low + 1) (λ v. (v.term a.0).value / 2 ^ low % 2 ^ (high - low + 1)) 0 1 t.0) }
    ensures proper { IsGraph terms.new }
{
    let t = terms.add(TermNode::Slice(a, high, low))?;
    Ok(t)
}

/// Each bit turned.
pub fn turned(terms: &mut Terms, a: TermId) -> Result<TermId, AllocError>
    requires a { a.0 < length terms.old.terms }
    requires room { length terms.old.terms + 1 ≤ MOST_TERMS }
    ensures adds { IfOk result (λ t. Adds terms.old terms.new (width_in terms.old a.0) (λ v. 2 ^ width_in terms.old a.0 - 1 - (v.term a.0).value) 0 1 t.0) }
    ensures proper { IsGraph terms.new }
{
    let t = terms.add(TermNode::One(Op1::Not, a))?;
    Ok(t)
}

/// An operation on two terms of one width.
pub fn two(terms: &mut Terms, op: Op2, a: TermId, b: TermId) -> Result<TermId, AllocError>
    requires a { a.0 < length terms.old.terms }
    requires b { b.0 < length terms.old.terms }
    requires width { width_in terms.old b.0 ≡ width_in terms.old a.0 }
    requires room { length terms.old.terms + 1 ≤ MOST_TERMS }
    ensures adds { IfOk result (λ t. Adds terms.old terms.new (width2 op (width_in terms.old a.0)) (λ v. value2 op (width_in terms.old a.0) (v.term a.0).value (v.term b.0).value) (gates2 op (width_in terms.old a.0)) 1 t.0) }
    ensures proper { IsGraph terms.new }
{
    let t = terms.add(TermNode::Two(op, a, b))?;
    Ok(t)
}

/// A term at another width.
pub fn resize(terms: &mut Terms, a: TermId, to: u8, signed: bool) -> Result<TermId, AllocError>
    requires a { a.0 < length terms.old.terms }
    requires some { 0 < to }
    requires within { to ≤ 128 }
    requires room { length terms.old.terms + 1 ≤ MOST_TERMS }
    ensures adds { IfOk result (λ t. Adds terms.old terms.new to (λ v. resized to signed (width_in terms.old a.0) (v.term a.0).value) 0 1 t.0) }
    ensures proper { IsGraph terms.new }
{
    let t = terms.add(TermNode::Resize(a, to, signed))?;
    Ok(t)
}

/// One term on the left of another.
pub fn join(terms: &mut Terms, a: TermId, b: TermId) -> Result<TermId, AllocError>
    requires a { a.0 < length terms.old.terms }
    requires b { b.0 < length terms.old.terms }
    requires width { width_in terms.old a.0 + width_in terms.old b.0 ≤ 128 }
    requires room { length terms.old.terms + 1 ≤ MOST_TERMS }
    ensures adds { IfOk result (λ t. Adds terms.old terms.new (width_in terms.old a.0 + width_in terms.old b.0) (λ v. (v.term a.0).value * 2 ^ width_in terms.old b.0 + (v.term b.0).value) 0 1 t.0) }
    ensures proper { IsGraph terms.new }
{
    let t = terms.add(TermNode::Join(a, b))?;
    Ok(t)
}

/// The second where the first, of one bit, is 1, and else the third.
pub fn choose(terms: &mut Terms, test: TermId, a: TermId, b: TermId) -> Result<TermId, AllocError>
    requires test { test.0 < length terms.old.terms }
    requires a { a.0 < length terms.old.terms }
    requires b { b.0 < length terms.old.terms }
    requires bit { width_in terms.old test.0 ≡ 1 }
    requires width { width_in terms.old b.0 ≡ width_in terms.old a.0 }
    requires room { length terms.old.terms + 1 ≤ MOST_TERMS }
    ensures adds { IfOk result (λ t. Adds terms.old terms.new (width_in terms.old a.0) (λ v. at_zero (v.term test.0).value (v.term b.0).value (v.term a.0).value) (3 * width_in terms.old a.0) 1 t.0) }
    ensures proper { IsGraph terms.new }
{
    let t = terms.add(TermNode::Choose(test, a, b))?;
    Ok(t)
}

/// The highest bit of a term.
pub fn highest(terms: &mut Terms, a: TermId) -> Result<TermId, AllocError>
    requires a { a.0 < length terms.old.terms }
    requires room { length terms.old.terms + 1 ≤ MOST_TERMS }
    ensures adds { IfOk result (λ t. Adds terms.old terms.new 1 (λ v. (v.term a.0).value / 2 ^ (width_in terms.old a.0 - 1) % 2) 0 1 t.0) }
    ensures proper { IsGraph terms.new }
{
    let high = terms.width_of(a) - 1;
    let t = terms.add(TermNode::Slice(a, high, high))?;
    Ok(t)
}
