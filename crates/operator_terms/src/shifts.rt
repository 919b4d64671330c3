//! Shifts (5.1.12). The amount has a width of its own and no sign.

ghost use Rattle.std.specs.Prelude.{◌≡◌, ℕ, ◌+◌, ◌*◌, ◌<◌, ◌≤◌, max, true, false, length, IfOk};
ghost use Rattle.bits_core.specs.Ops.{width2, value2};
ghost use Rattle.flat_tree.specs.Operators.{Shifting, form_of, binary_value};
ghost use Rattle.operator_terms.specs.Ways.{looks as looks_at, is_shift};
ghost use Rattle.term_steps.specs.Adds.{Adds};
ghost use Rattle.word_eqs.specs.Gates.{gates2};
ghost use Rattle.word_eqs.specs.Graph.{IsGraph, width_in, MOST_TERMS};

use bits_core::Op2;
use std::alloc::AllocError;
use term_steps::{resize, two};
use v_tree::BinaryOp;
use word_eqs::{TermId, Terms};

/// The operation of a shift, where the result is signed or not.
pub fn shift_way(op: BinaryOp, signed: bool) -> Op2
    requires { form_of op ≡ Shifting }
    ensures value { (w a b : ℕ) → value2 result w a b ≡ binary_value op w signed a b }
    ensures shift { is_shift result ≡ true }
{
    match op {
        BinaryOp::ShiftLeft => Op2::Shl,
        BinaryOp::ArithmeticShiftLeft => Op2::Shl,
        BinaryOp::ArithmeticShiftRight => { if signed { Op2::ShrS } else { Op2::ShrU } }
        _ => Op2::ShrU,
    }
}

/// Whether a shift copies the sign bit.
fn looks(op: Op2) -> bool
    ensures { result ≡ looks_at op }
{
    match op {
        Op2::ShrS => true,
        _ => false,
    }
}

/// A shift by an amount of at most the word's width.
fn narrow(terms: &mut Terms, op: Op2, a: TermId, b: TermId) -> Result<TermId, AllocError>
    requires a { a.0 < length terms.old.terms }
    requires b { b.0 < length terms.old.terms }
    requires shift { is_shift op ≡ true }
    requires order { width_in terms.old b.0 ≤ width_in terms.old a.0 }
    requires room { length terms.old.terms + 3 ≤ MOST_TERMS }
    ensures adds { IfOk result (λ t. Adds terms.old terms.new (width_in terms.old a.0) (λ v. value2 op (width_in terms.old a.0) (v.term a.0).value (v.term b.0).value) (40 * max (width_in terms.old a.0) (width_in terms.old b.0)) 3 t.0) }
    ensures proper { IsGraph terms.new }
{
    let width = terms.width_of(a);
    let amount = resize(terms, b, width, false)?;
    let t = two(terms, op, a, amount)?;
    Ok(t)
}

/// A shift by an amount that is wider than the word.
fn wide(terms: &mut Terms, op: Op2, a: TermId, b: TermId) -> Result<TermId, AllocError>
    requires a { a.0 < length terms.old.terms }
    requires b { b.0 < length terms.old.terms }
    requires shift { is_shift op ≡ true }
    requires order { width_in terms.old a.0 ≤ width_in terms.old b.0 }
    requires room { length terms.old.terms + 3 ≤ MOST_TERMS }
    ensures adds { IfOk result (λ t. Adds terms.old terms.new (width_in terms.old a.0) (λ v. value2 op (width_in terms.old a.0) (v.term a.0).value (v.term b.0).value) (40 * max (width_in terms.old a.0) (width_in terms.old b.0)) 3 t.0) }
    ensures proper { IsGraph terms.new }
{
    let short = terms.width_of(a);
    let width = terms.width_of(b);
    let word = resize(terms, a, width, looks(op))?;
    let moved = two(terms, op, word, b)?;
    let t = resize(terms, moved, short, false)?;
    Ok(t)
}

/// A term shifted by another.
pub fn shift(terms: &mut Terms, op: Op2, a: TermId, b: TermId) -> Result<TermId, AllocError>
    requires a { a.0 < length terms.old.terms }
    requires b { b.0 < length terms.old.terms }
    requires shift { is_shift op ≡ true }
    requires room { length terms.old.terms + 3 ≤ MOST_TERMS }
    ensures adds { IfOk result (λ t. Adds terms.old terms.new (width_in terms.old a.0) (λ v. value2 op (width_in terms.old a.0) (v.term a.0).value (v.term b.0).value) (40 * max (width_in terms.old a.0) (width_in terms.old b.0)) 3 t.0) }
    ensures proper { IsGraph terms.new }
{
    let width = terms.width_of(a);
    let amount = terms.width_of(b);
    if amount <= width {
        narrow(terms, op, a, b)
    } else {
        wide(terms, op, a, b)
    }
}
