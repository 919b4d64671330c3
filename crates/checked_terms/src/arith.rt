// Operators whose results may be out of range.

ghost use Rattle.std.specs.Prelude.{◌≡◌, ◌+◌, ◌*◌, ◌<◌, ◌≤◌, ◌^◌, neg_ℤ, ◌+ℤ◌, ◌-ℤ◌, ◌*ℤ◌, pos, true, false, Some, None, length, IfOk};
ghost use Rattle.bits_core.specs.Ops.{value1, value2, width2, width1};
ghost use Rattle.bits_core.specs.Word.{number, resized};
ghost use Rattle.word_eqs.specs.Gates.{gates1, gates2};
ghost use Rattle.joint_ir.specs.Types.{converted};
ghost use Rattle.joint_ir.specs.Values.{result_in, Value};
ghost use Rattle.joint_ir.specs.Weights.{unary_weight, product_weight};
ghost use Rattle.sized_terms.specs.Sized.{Has, IsMade, bits};
ghost use Rattle.checked_terms.specs.Checked.{check_of, stands, IsChecked, IsCut, IsPlain, plain};
ghost use Rattle.word_eqs.specs.Graph.{MOST_TERMS};

use crate::{Check, Checked, Cut};
use bits_core::{Op1, Op2};
use joint_ir::IntType;
use joint_ir::program::PropId;
use sized_terms::SizedTerm;
use std::alloc::AllocError;
use word_eqs::Terms;

/// The check of a test, where a property stands for it.
pub fn check_for(prop: Option<PropId>, test: SizedTerm) -> Option<Check>
    ensures { result ≡ check_of prop test }
{
    match prop {
        None => None,
        Some(prop) => Some(Check { prop, test }),
    }
}

/// A number cut to a signed type, and whether it is in its range.
fn cut(terms: &mut Terms, wide: SizedTerm, ty: IntType) -> Result<Cut, AllocError>
    requires has { Has terms.old wide }
    requires ty { IsPlain ty }
    requires signed { ty.signed ≡ true }
    requires wider { ty.bits ≤ wide.width }
    requires within { wide.width ≤ 128 }
    requires room { length terms.old.terms + 3 ≤ MOST_TERMS }
    ensures { IfOk result (λ r. IsCut terms.old terms.new ty wide r) }
{
    let value = sized_terms::resize(terms, wide, ty.bits, true)?;
    let back = sized_terms::resize(terms, value, wide.width, true)?;
    let fits = sized_terms::two(terms, Op2::Eq, back, wide)?;
    Ok(Cut { value, fits })
}

/// An operation at a greater width, on numbers with a sign.
fn wide(
    terms: &mut Terms,
    op: Op2,
    to: u8,
    a: SizedTerm,
    b: SizedTerm,
) -> Result<SizedTerm, AllocError>
    requires first { Has terms.old a }
    requires second { Has terms.old b }
    requires same { b.width ≡ a.width }
    requires some { 0 < to }
    requires within { to ≤ 128 }
    requires room { length terms.old.terms + 3 ≤ MOST_TERMS }
    ensures { IfOk result (λ t. IsMade terms.old terms.new (width2 op to) (gates2 op to) 3 t (λ v. value2 op to (resized to true a.width (bits v a)) (resized to true a.width (bits v b)))) }
{
    let x = sized_terms::resize(terms, a, to, true)?;
    let y = sized_terms::resize(terms, b, to, true)?;
    let t = sized_terms::two(terms, op, x, y)?;
    Ok(t)
}

/// The result of an operation on signed numbers, made at a width at which it fits, with the check that it is in range.
fn signed(
    terms: &mut Terms,
    op: Op2,
    to: u8,
    ty: IntType,
    other: Option<PropId>,
    a: SizedTerm,
    b: SizedTerm,
) -> Result<Checked, AllocError>
    requires first { Has terms.old a }
    requires second { Has terms.old b }
    requires width_a { a.width ≡ ty.bits }
    requires width_b { b.width ≡ ty.bits }
    requires ty { IsPlain ty }
    requires signed { ty.signed ≡ true }
    requires wider { ty.bits ≤ to }
    requires within { to ≤ 128 }
    requires op { width2 op to ≡ to }
    requires room { length terms.old.terms + 6 ≤ MOST_TERMS }
    ensures { IfOk result (λ r. IsChecked terms.old terms.new ty (gates2 op to + 4 * to + 9) 6 r (λ v. result_in ty other (number true to (value2 op to (resized to true ty.bits (bits v a)) (resized to true ty.bits (bits v b)))))) }
{
    let t = wide(terms, op, to, a, b)?;
    let result = cut(terms, t, ty)?;
    Ok(Checked {
        division: None,
        other: check_for(other, result.fits),
        value: result.value,
    })
}

/// The result of an operation on unsigned numbers, modulo 2^bits.
fn unsigned(terms: &mut Terms, op: Op2, a: SizedTerm, b: SizedTerm) -> Result<Checked, AllocError>
    requires first { Has terms.old a }
    requires second { Has terms.old b }
    requires same { b.width ≡ a.width }
    requires room { length terms.old.terms + 1 ≤ MOST_TERMS }
    ensures plain { IfOk result (λ r. r ≡ plain r.value) }
    ensures made { IfOk result (λ r. IsMade terms.old terms.new (width2 op a.width) (gates2 op a.width) 1 r.value (λ v. value2 op a.width (bits v a) (bits v b))) }
{
    let value = sized_terms::two(terms, op, a, b)?;
    Ok(Checked {
        division: None,
        other: None,
        value,
    })
}

/// `+` (C99 6.5.6).
pub fn sum(
    terms: &mut Terms,
    ty: IntType,
    other: Option<PropId>,
    a: SizedTerm,
    b: SizedTerm,
) -> Result<Checked, AllocError>
    requires first { Has terms.old a }
    requires second { Has terms.old b }
    requires width_a { a.width ≡ ty.bits }
    requires width_b { b.width ≡ ty.bits }
    requires ty { IsPlain ty }
    requires wraps { ty.signed ≡ false → other ≡ None }
    requires room { length terms.old.terms + 6 ≤ MOST_TERMS }
    ensures { IfOk result (λ r. IsChecked terms.old terms.new ty (8 * (10 * ty.bits + 32)) 6 r (λ v. result_in ty other (stands ty v a +ℤ stands ty v b))) }
{
    if ty.signed {
        let r = signed(terms, Op2::Add, ty.bits + 1, ty, other, a, b)?;
        Ok(r)
    } else {
        let r = unsigned(terms, Op2::Add, a, b)?;
        Ok(r)
    }
}

/// `-` of two operands (C99 6.5.6).
pub fn difference(
    terms: &mut Terms,
    ty: IntType,
    other: Option<PropId>,
    a: SizedTerm,
    b: SizedTerm,
) -> Result<Checked, AllocError>
    requires first { Has terms.old a }
    requires second { Has terms.old b }
    requires width_a { a.width ≡ ty.bits }
    requires width_b { b.width ≡ ty.bits }
    requires ty { IsPlain ty }
    requires wraps { ty.signed ≡ false → other ≡ None }
    requires room { length terms.old.terms + 6 ≤ MOST_TERMS }
    ensures { IfOk result (λ r. IsChecked terms.old terms.new ty (8 * (10 * ty.bits + 32)) 6 r (λ v. result_in ty other (stands ty v a -ℤ stands ty v b))) }
{
    if ty.signed {
        let r = signed(terms, Op2::Sub, ty.bits + 1, ty, other, a, b)?;
        Ok(r)
    } else {
        let r = unsigned(terms, Op2::Sub, a, b)?;
        Ok(r)
    }
}

/// `*` (C99 6.5.5).
pub fn product(
    terms: &mut Terms,
    ty: IntType,
    other: Option<PropId>,
    a: SizedTerm,
    b: SizedTerm,
) -> Result<Checked, AllocError>
    requires first { Has terms.old a }
    requires second { Has terms.old b }
    requires width_a { a.width ≡ ty.bits }
    requires width_b { b.width ≡ ty.bits }
    requires ty { IsPlain ty }
    requires wraps { ty.signed ≡ false → other ≡ None }
    requires room { length terms.old.terms + 6 ≤ MOST_TERMS }
    ensures { IfOk result (λ r. IsChecked terms.old terms.new ty (8 * product_weight ty) 6 r (λ v. result_in ty other (stands ty v a *ℤ stands ty v b))) }
{
    if ty.signed {
        let r = signed(terms, Op2::Mul, ty.bits + ty.bits, ty, other, a, b)?;
        Ok(r)
    } else {
        let r = unsigned(terms, Op2::Mul, a, b)?;
        Ok(r)
    }
}

/// `-` of a signed operand.
fn signed_minus(
    terms: &mut Terms,
    ty: IntType,
    other: Option<PropId>,
    a: SizedTerm,
) -> Result<Checked, AllocError>
    requires has { Has terms.old a }
    requires width { a.width ≡ ty.bits }
    requires ty { IsPlain ty }
    requires signed { ty.signed ≡ true }
    requires room { length terms.old.terms + 5 ≤ MOST_TERMS }
    ensures { IfOk result (λ r. IsChecked terms.old terms.new ty (8 * (10 * ty.bits + 32)) 5 r (λ v. result_in ty other (neg_ℤ (stands ty v a)))) }
{
    let x = sized_terms::resize(terms, a, ty.bits + 1, true)?;
    let t = sized_terms::one(terms, Op1::Neg, x)?;
    let result = cut(terms, t, ty)?;
    Ok(Checked {
        division: None,
        other: check_for(other, result.fits),
        value: result.value,
    })
}

/// `-` of one operand (C99 6.5.3.3).
pub fn minus(
    terms: &mut Terms,
    ty: IntType,
    other: Option<PropId>,
    a: SizedTerm,
) -> Result<Checked, AllocError>
    requires has { Has terms.old a }
    requires width { a.width ≡ ty.bits }
    requires ty { IsPlain ty }
    requires wraps { ty.signed ≡ false → other ≡ None }
    requires room { length terms.old.terms + 5 ≤ MOST_TERMS }
    ensures { IfOk result (λ r. IsChecked terms.old terms.new ty (8 * (10 * ty.bits + 32)) 5 r (λ v. result_in ty other (neg_ℤ (stands ty v a)))) }
{
    if ty.signed {
        let r = signed_minus(terms, ty, other, a)?;
        Ok(r)
    } else {
        let value = sized_terms::one(terms, Op1::Neg, a)?;
        Ok(Checked {
            division: None,
            other: None,
            value,
        })
    }
}

/// `~` (C99 6.5.3.3).
pub fn flipped(terms: &mut Terms, ty: IntType, a: SizedTerm) -> Result<SizedTerm, AllocError>
    requires has { Has terms.old a }
    requires width { a.width ≡ ty.bits }
    requires ty { IsPlain ty }
    requires room { length terms.old.terms < MOST_TERMS }
    ensures { IfOk result (λ t. IsChecked terms.old terms.new ty 0 1 (plain t) (λ v. Value (converted ty (neg_ℤ (stands ty v a) -ℤ pos 1)))) }
{
    let value = sized_terms::one(terms, Op1::Not, a)?;
    Ok(value)
}
