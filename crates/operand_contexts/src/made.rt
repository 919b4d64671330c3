//! An operator over the terms of its operands, at the width and the sign of the whole (5.4.1, 5.5.2).

ghost use Rattle.std.specs.Prelude.{◌≡◌, ℕ, ◌+◌, ◌*◌, ◌<◌, ◌≤◌, ◌&&◌, ◌||◌, true, false, length, IfOk, if◌then◌else◌};
ghost use Rattle.bits_core.specs.Word.{IsWidth, at_zero, bit, resized};
ghost use Rattle.flat_tree.specs.Measures.{binary_row, unary_row};
ghost use Rattle.flat_tree.specs.Operators.{InContext, Comparing, Logical, Shifting, form_of, binary_value, unary_value, truth, is_reduction as reduces};
ghost use Rattle.operator_terms.specs.Ways.{is_made};
ghost use Rattle.operand_contexts.specs.Contexts.{has_site, combined, FitForm, unary_combined};
ghost use Rattle.term_steps.specs.Adds.{Adds};
ghost use Rattle.word_eqs.specs.Graph.{IsGraph, width_in, MOST_TERMS};

use crate::stand::{Operands, is_reduction, operand_form};
use flat_values::LengthSign;
use operator_terms::{
    divided, logical, operate, shift, shift_way, unary as made_by, unary_way, way_of,
};
use std::alloc::AllocError;
use term_steps::resize;
use v_tree::{BinaryOp, UnaryOp};
use word_eqs::{TermId, Terms};

/// An operator whose operands are in the context.
fn in_context(
    terms: &mut Terms,
    op: BinaryOp,
    signed: bool,
    x: TermId,
    y: TermId,
) -> Result<TermId, AllocError>
    requires form { form_of op ≡ InContext }
    requires x { x.0 < length terms.old.terms }
    requires y { y.0 < length terms.old.terms }
    requires width { width_in terms.old y.0 ≡ width_in terms.old x.0 }
    requires room { length terms.old.terms + 4 ≤ MOST_TERMS }
    ensures adds { IfOk result (λ t. Adds terms.old terms.new (width_in terms.old x.0) (λ v. binary_value op (width_in terms.old x.0) signed (v.term x.0).value (v.term y.0).value) (8 * binary_row op (width_in terms.old x.0) (width_in terms.old y.0)) 4 t.0) }
    ensures proper { IsGraph terms.new }
{
    let way = way_of(op, signed);
    let t = operate(terms, way, x, y)?;
    Ok(t)
}

/// A comparison, whose flag is extended.
fn compared(
    terms: &mut Terms,
    op: BinaryOp,
    both: bool,
    x: TermId,
    y: TermId,
    at: LengthSign,
) -> Result<TermId, AllocError>
    requires form { form_of op ≡ Comparing }
    requires x { x.0 < length terms.old.terms }
    requires y { y.0 < length terms.old.terms }
    requires width { width_in terms.old y.0 ≡ width_in terms.old x.0 }
    requires at { IsWidth at.length }
    requires room { length terms.old.terms + 4 ≤ MOST_TERMS }
    ensures adds { IfOk result (λ t. Adds terms.old terms.new at.length (λ v. resized at.length at.signed 1 (binary_value op (width_in terms.old x.0) both (v.term x.0).value (v.term y.0).value)) (8 * binary_row op (width_in terms.old x.0) (width_in terms.old y.0)) 4 t.0) }
    ensures proper { IsGraph terms.new }
{
    let way = way_of(op, both);
    let flag = operate(terms, way, x, y)?;
    let t = resize(terms, flag, at.length, at.signed)?;
    Ok(t)
}

/// Whether a logical operator asks for both operands.
fn is_and(op: BinaryOp) -> bool
    requires { form_of op ≡ Logical }
    ensures value { (a b : ℕ) → bit (if result then truth a && truth b else truth a || truth b) ≡ binary_value op 1 false a b }
    ensures row { (w v : ℕ) → w + v + 4 ≡ binary_row op w v }
{
    match op {
        BinaryOp::LogicalAnd => true,
        _ => false,
    }
}

/// `&&` or `||`, whose flag is extended.
fn both_or_one(
    terms: &mut Terms,
    op: BinaryOp,
    x: TermId,
    y: TermId,
    at: LengthSign,
) -> Result<TermId, AllocError>
    requires form { form_of op ≡ Logical }
    requires x { x.0 < length terms.old.terms }
    requires y { y.0 < length terms.old.terms }
    requires at { IsWidth at.length }
    requires room { length terms.old.terms + 4 ≤ MOST_TERMS }
    ensures adds { IfOk result (λ t. Adds terms.old terms.new at.length (λ v. resized at.length at.signed 1 (binary_value op 1 false (v.term x.0).value (v.term y.0).value)) (8 * binary_row op (width_in terms.old x.0) (width_in terms.old y.0)) 4 t.0) }
    ensures proper { IsGraph terms.new }
{
    let flag = logical(terms, is_and(op), x, y)?;
    let t = resize(terms, flag, at.length, at.signed)?;
    Ok(t)
}

/// A shift.
fn shifted(
    terms: &mut Terms,
    op: BinaryOp,
    signed: bool,
    x: TermId,
    y: TermId,
) -> Result<TermId, AllocError>
    requires form { form_of op ≡ Shifting }
    requires x { x.0 < length terms.old.terms }
    requires y { y.0 < length terms.old.terms }
    requires room { length terms.old.terms + 4 ≤ MOST_TERMS }
    ensures adds { IfOk result (λ t. Adds terms.old terms.new (width_in terms.old x.0) (λ v. binary_value op (width_in terms.old x.0) signed (v.term x.0).value (v.term y.0).value) (8 * binary_row op (width_in terms.old x.0) (width_in terms.old y.0)) 4 t.0) }
    ensures proper { IsGraph terms.new }
{
    let way = shift_way(op, signed);
    let t = shift(terms, way, x, y)?;
    Ok(t)
}

/// A binary operator without a site over its operands, which stand at their widths; `both` is the sign of what is compared.
pub fn combine(
    terms: &mut Terms,
    op: BinaryOp,
    both: bool,
    x: TermId,
    y: TermId,
    at: LengthSign,
) -> Result<TermId, AllocError>
    requires plain { has_site (form_of op) ≡ false }
    requires x { x.0 < length terms.old.terms }
    requires y { y.0 < length terms.old.terms }
    requires widths { FitForm (form_of op) at.length (width_in terms.old x.0) (width_in terms.old y.0) }
    requires at { IsWidth at.length }
    requires room { length terms.old.terms + 4 ≤ MOST_TERMS }
    ensures adds { IfOk result (λ t. Adds terms.old terms.new at.length (λ v. combined (form_of op) (binary_value op) (width_in terms.old x.0) both at.length at.signed (v.term x.0).value (v.term y.0).value) (8 * binary_row op (width_in terms.old x.0) (width_in terms.old y.0)) 4 t.0) }
    ensures proper { IsGraph terms.new }
{
    let _ = terms.len();
    match operand_form(op) {
        Operands::InContext => in_context(terms, op, at.signed, x, y),
        Operands::Dividing => Err(AllocError),
        Operands::Comparing => compared(terms, op, both, x, y, at),
        Operands::Logical => both_or_one(terms, op, x, y, at),
        Operands::Shifting => shifted(terms, op, at.signed, x, y),
    }
}

/// Whether a unary operator is any but `+`, which gives its operand.
fn is_operation(op: UnaryOp) -> bool
    ensures { result ≡ is_made op }
{
    match op {
        UnaryOp::Plus => false,
        UnaryOp::Minus
        | UnaryOp::BitNot
        | UnaryOp::LogicalNot
        | UnaryOp::ReduceAnd
        | UnaryOp::ReduceNand
        | UnaryOp::ReduceOr
        | UnaryOp::ReduceNor
        | UnaryOp::ReduceXor
        | UnaryOp::ReduceXnor => true,
    }
}

/// What a unary operator makes of its operand: the operand itself for `+`.
fn operated(terms: &mut Terms, op: UnaryOp, x: TermId) -> Result<TermId, AllocError>
    requires x { x.0 < length terms.old.terms }
    requires room { length terms.old.terms + 2 ≤ MOST_TERMS }
    ensures adds { IfOk result (λ t. Adds terms.old terms.new (if reduces op then 1 else width_in terms.old x.0) (λ v. unary_value op (width_in terms.old x.0) (v.term x.0).value) (8 * unary_row op (width_in terms.old x.0)) 2 t.0) }
    ensures proper { IsGraph terms.new }
{
    let _ = terms.len();
    if is_operation(op) {
        let way = unary_way(op);
        let t = made_by(terms, way, x)?;
        return Ok(t);
    }
    Ok(x)
}

/// A unary operator over its operand; a flag is extended.
pub fn unary(
    terms: &mut Terms,
    op: UnaryOp,
    x: TermId,
    at: LengthSign,
) -> Result<TermId, AllocError>
    requires x { x.0 < length terms.old.terms }
    requires width { (if reduces op then width_in terms.old x.0 else at.length) ≡ width_in terms.old x.0 }
    requires at { IsWidth at.length }
    requires room { length terms.old.terms + 3 ≤ MOST_TERMS }
    ensures adds { IfOk result (λ t. Adds terms.old terms.new at.length (λ v. unary_combined op (width_in terms.old x.0) at.length at.signed (v.term x.0).value) (8 * unary_row op (width_in terms.old x.0)) 3 t.0) }
    ensures proper { IsGraph terms.new }
{
    let y = operated(terms, op, x)?;
    if is_reduction(op) {
        let t = resize(terms, y, at.length, at.signed)?;
        return Ok(t);
    }
    Ok(y)
}

/// A quotient or a remainder of operands in the context; by 0 it is the site's number (5.1.5).
pub fn divide(
    terms: &mut Terms,
    op: BinaryOp,
    signed: bool,
    x: TermId,
    y: TermId,
    site: TermId,
) -> Result<TermId, AllocError>
    requires divides { has_site (form_of op) ≡ true }
    requires x { x.0 < length terms.old.terms }
    requires y { y.0 < length terms.old.terms }
    requires site { site.0 < length terms.old.terms }
    requires width { width_in terms.old y.0 ≡ width_in terms.old x.0 }
    requires sites { width_in terms.old site.0 ≡ width_in terms.old x.0 }
    requires room { length terms.old.terms + 4 ≤ MOST_TERMS }
    ensures adds { IfOk result (λ t. Adds terms.old terms.new (width_in terms.old x.0) (λ v. at_zero (v.term y.0).value (v.term site.0).value (binary_value op (width_in terms.old x.0) signed (v.term x.0).value (v.term y.0).value)) (8 * binary_row op (width_in terms.old x.0) (width_in terms.old y.0)) 4 t.0) }
    ensures proper { IsGraph terms.new }
{
    let way = way_of(op, signed);
    let t = divided(terms, way, x, y, site)?;
    Ok(t)
}
