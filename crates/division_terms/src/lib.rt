//! C's `/` and `%` as terms with their checks (C99 6.5.5).
#![tactic(auto)]

ghost use Rattle.std.specs.Prelude.{◌≡◌, ◌+◌, ◌*◌, ◌<◌, ◌≤◌, ◌^◌, true, false, Some, None, IsSome, length, IfOk, nat_eq, ◌-◌};
ghost use Rattle.bits_core.specs.Ops.{value2, width2};
ghost use Rattle.bits_core.specs.Word.{bit, number};
ghost use Rattle.word_eqs.specs.Gates.{gates2};
ghost use Rattle.joint_ir.specs.Values.{binary_value, Value};
ghost use Rattle.sized_terms.specs.Sized.{Has, IsMade, bits};
ghost use Rattle.checked_terms.specs.Checked.{stands, IsChecked, IsPlain};
ghost use Rattle.division_terms.specs.Division.{quotient_fits, divided};
ghost use Rattle.word_eqs.specs.Graph.{MOST_TERMS};

use bits_core::{Op1, Op2};
use checked_terms::{Checked, check_for};
use joint_ir::program::PropId;
use joint_ir::{BinaryOp, IntType};
use sized_terms::SizedTerm;
use std::alloc::AllocError;
use word_eqs::Terms;

/// Whether a term has this number.
fn is_number(terms: &mut Terms, a: SizedTerm, number: u128) -> Result<SizedTerm, AllocError>
    requires has { Has terms.old a }
    requires some { 0 < a.width }
    requires within { a.width ≤ 128 }
    requires below { number < 2 ^ a.width }
    requires room { length terms.old.terms + 2 ≤ MOST_TERMS }
    ensures { IfOk result (λ t. IsMade terms.old terms.new 1 (4 * a.width) 2 t (λ v. bit (nat_eq (bits v a) number))) }
{
    let n = sized_terms::constant(terms, a.width, number)?;
    let t = sized_terms::two(terms, Op2::Eq, a, n)?;
    Ok(t)
}

/// Whether a signed quotient is in range.
fn fits(terms: &mut Terms, a: SizedTerm, b: SizedTerm) -> Result<SizedTerm, AllocError>
    requires first { Has terms.old a }
    requires second { Has terms.old b }
    requires same { b.width ≡ a.width }
    requires some { 0 < a.width }
    requires within { a.width ≤ 64 }
    requires room { length terms.old.terms + 6 ≤ MOST_TERMS }
    ensures { IfOk result (λ t. IsMade terms.old terms.new 1 (8 * a.width + 1) 6 t (λ v. bit (quotient_fits a.width (bits v a) (bits v b)))) }
{
    let least = is_number(terms, a, half(a.width))?;
    let minus_one = is_number(terms, b, ones(a.width))?;
    let both = sized_terms::two(terms, Op2::And, least, minus_one)?;
    let t = sized_terms::one(terms, Op1::Not, both)?;
    Ok(t)
}

/// 2^(width - 1), the bits of the least number with a sign.
fn half(width: u8) -> u128
    requires some { 0 < width }
    requires within { width ≤ 64 }
    ensures { result ≡ 2 ^ (width - 1) }
{
    1u128 << ((width - 1) as u32)
}

/// 2^width - 1, the bits of -1.
fn ones(width: u8) -> u128
    requires some { 0 < width }
    requires within { width ≤ 64 }
    ensures { result ≡ 2 ^ width - 1 }
{
    (1u128 << (width as u32)) - 1
}

/// A division of signed numbers.
fn signed(
    terms: &mut Terms,
    op: Op2,
    ty: IntType,
    division: Option<PropId>,
    other: Option<PropId>,
    a: SizedTerm,
    b: SizedTerm,
) -> Result<Checked, AllocError>
    requires first { Has terms.old a }
    requires second { Has terms.old b }
    requires width_a { a.width ≡ ty.bits }
    requires width_b { b.width ≡ ty.bits }
    requires ty { IsPlain ty }
    requires op { width2 op ty.bits ≡ ty.bits }
    requires room { length terms.old.terms + 7 ≤ MOST_TERMS }
    ensures { IfOk result (λ r. IsChecked terms.old terms.new ty (gates2 op ty.bits + 9 * ty.bits + 18) 7 r (λ v. divided division other ty.bits (bits v a) (bits v b) (Value (number ty.signed ty.bits (value2 op ty.bits (bits v a) (bits v b)))))) }
{
    let within = fits(terms, a, b)?;
    let value = sized_terms::two(terms, op, a, b)?;
    Ok(Checked {
        division: check_for(division, b),
        other: check_for(other, within),
        value,
    })
}

/// A division of unsigned numbers, whose quotient is always in range.
fn unsigned(
    terms: &mut Terms,
    op: Op2,
    ty: IntType,
    division: Option<PropId>,
    a: SizedTerm,
    b: SizedTerm,
) -> Result<Checked, AllocError>
    requires first { Has terms.old a }
    requires second { Has terms.old b }
    requires width_a { a.width ≡ ty.bits }
    requires width_b { b.width ≡ ty.bits }
    requires op { width2 op ty.bits ≡ ty.bits }
    requires room { length terms.old.terms + 1 ≤ MOST_TERMS }
    ensures { IfOk result (λ r. IsChecked terms.old terms.new ty (gates2 op ty.bits + 9 * ty.bits + 18) 7 r (λ v. divided division None ty.bits (bits v a) (bits v b) (Value (number ty.signed ty.bits (value2 op ty.bits (bits v a) (bits v b)))))) }
{
    let value = sized_terms::two(terms, op, a, b)?;
    Ok(Checked {
        division: check_for(division, b),
        other: None,
        value,
    })
}

/// `/`
pub fn quotient(
    terms: &mut Terms,
    ty: IntType,
    division: Option<PropId>,
    other: Option<PropId>,
    a: SizedTerm,
    b: SizedTerm,
) -> Result<Checked, AllocError>
    requires first { Has terms.old a }
    requires second { Has terms.old b }
    requires width_a { a.width ≡ ty.bits }
    requires width_b { b.width ≡ ty.bits }
    requires ty { IsPlain ty }
    requires division { IsSome division }
    requires wraps { ty.signed ≡ false → other ≡ None }
    requires room { length terms.old.terms + 7 ≤ MOST_TERMS }
    ensures { IfOk result (λ r. IsChecked terms.old terms.new ty (8 * (16 * (ty.bits * ty.bits) + 96 * ty.bits + 32)) 7 r (λ v. binary_value BinaryOp.Div ty division other (stands ty v a) (stands ty v b))) }
{
    if ty.signed {
        let r = signed(terms, Op2::DivS, ty, division, other, a, b)?;
        Ok(r)
    } else {
        let r = unsigned(terms, Op2::DivU, ty, division, a, b)?;
        Ok(r)
    }
}

/// `%`
pub fn remainder(
    terms: &mut Terms,
    ty: IntType,
    division: Option<PropId>,
    other: Option<PropId>,
    a: SizedTerm,
    b: SizedTerm,
) -> Result<Checked, AllocError>
    requires first { Has terms.old a }
    requires second { Has terms.old b }
    requires width_a { a.width ≡ ty.bits }
    requires width_b { b.width ≡ ty.bits }
    requires ty { IsPlain ty }
    requires division { IsSome division }
    requires wraps { ty.signed ≡ false → other ≡ None }
    requires room { length terms.old.terms + 7 ≤ MOST_TERMS }
    ensures { IfOk result (λ r. IsChecked terms.old terms.new ty (8 * (16 * (ty.bits * ty.bits) + 96 * ty.bits + 32)) 7 r (λ v. binary_value BinaryOp.Rem ty division other (stands ty v a) (stands ty v b))) }
{
    if ty.signed {
        let r = signed(terms, Op2::RemS, ty, division, other, a, b)?;
        Ok(r)
    } else {
        let r = unsigned(terms, Op2::RemU, ty, division, a, b)?;
        Ok(r)
    }
}
