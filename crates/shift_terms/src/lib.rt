//! C's `<<` and `>>` as terms with their checks (C99 6.5.7).
#![tactic(auto)]

ghost use Rattle.std.specs.Prelude.{◌≡◌, ◌+◌, ◌*◌, ◌<◌, ◌≤◌, ◌^◌, ◌%◌, ◌&&◌, true, false, None, IsSome, length, IfOk, max};
ghost use Rattle.joint_ir.specs.Values.{binary_value};
ghost use Rattle.sized_terms.specs.Sized.{Has, IsMade, bits};
ghost use Rattle.checked_terms.specs.Checked.{stands, IsChecked, IsPlain};
ghost use Rattle.shift_terms.specs.Shifts.{IsAmountOf, keeps_bit, right_op_of};
ghost use Rattle.word_eqs.specs.Graph.{MOST_TERMS};

use bits_core::{Op1, Op2};
use checked_terms::{Checked, check_for};
use joint_ir::program::PropId;
use joint_ir::{BinaryOp, IntType};
use sized_terms::SizedTerm;
use std::alloc::AllocError;
use word_eqs::Terms;

/// The amount of a shift at the width of what is shifted, and whether it may be shifted by so much.
#[derive(Clone, Copy, Debug, PartialEq, Eq)]
pub struct Amount {
    pub by: SizedTerm,
    pub within: SizedTerm,
}

/// The amount of a shift of a number of type `ty` by one of type `from`.
fn amount_of(
    terms: &mut Terms,
    ty: IntType,
    from: IntType,
    b: SizedTerm,
) -> Result<Amount, AllocError>
    requires has { Has terms.old b }
    requires width { b.width ≡ from.bits }
    requires ty { IsPlain ty }
    requires wide { 32 ≤ from.bits }
    requires narrow { from.bits ≤ 64 }
    requires room { length terms.old.terms + 3 ≤ MOST_TERMS }
    ensures { IfOk result (λ r. IsAmountOf terms.old terms.new ty from b r) }
{
    let limit = sized_terms::constant(terms, b.width, ty.bits as u128)?;
    let within = sized_terms::two(terms, Op2::LtU, b, limit)?;
    let by = sized_terms::resize(terms, b, ty.bits, false)?;
    Ok(Amount { by, within })
}

/// Whether a signed number loses nothing by a left shift, and the amount is one.
fn keeps(
    terms: &mut Terms,
    a: SizedTerm,
    by: SizedTerm,
    shifted: SizedTerm,
    within: SizedTerm,
) -> Result<SizedTerm, AllocError>
    requires first { Has terms.old a }
    requires second { Has terms.old by }
    requires third { Has terms.old shifted }
    requires fourth { Has terms.old within }
    requires width_by { by.width ≡ a.width }
    requires width_shifted { shifted.width ≡ a.width }
    requires bit { within.width ≡ 1 }
    requires some { 0 < a.width }
    requires few { a.width ≤ 64 }
    requires room { length terms.old.terms + 7 ≤ MOST_TERMS }
    ensures { IfOk result (λ t. IsMade terms.old terms.new 1 (54 * a.width + 2) 7 t (λ v. keeps_bit a.width (bits v a) (bits v by) (bits v shifted) (bits v within))) }
{
    let back = sized_terms::two(terms, Op2::ShrS, shifted, by)?;
    let same = sized_terms::two(terms, Op2::Eq, back, a)?;
    let zero = sized_terms::constant(terms, a.width, 0)?;
    let negative = sized_terms::two(terms, Op2::LtS, a, zero)?;
    let natural = sized_terms::one(terms, Op1::Not, negative)?;
    let both = sized_terms::two(terms, Op2::And, same, natural)?;
    let t = sized_terms::two(terms, Op2::And, within, both)?;
    Ok(t)
}

/// `<<`
pub fn left(
    terms: &mut Terms,
    ty: IntType,
    from: IntType,
    prop: Option<PropId>,
    a: SizedTerm,
    b: SizedTerm,
) -> Result<Checked, AllocError>
    requires first { Has terms.old a }
    requires second { Has terms.old b }
    requires width_a { a.width ≡ ty.bits }
    requires width_b { b.width ≡ from.bits }
    requires ty { IsPlain ty }
    requires wide { 32 ≤ from.bits }
    requires narrow { from.bits ≤ 64 }
    requires shift { IsSome prop }
    requires room { length terms.old.terms + 11 ≤ MOST_TERMS }
    ensures { IfOk result (λ r. IsChecked terms.old terms.new ty (8 * (84 * max ty.bits from.bits + 12 * from.bits + 32)) 11 r (λ v. binary_value BinaryOp.Shl ty None prop (stands ty v a) (stands from v b))) }
{
    let amount = amount_of(terms, ty, from, b)?;
    let value = sized_terms::two(terms, Op2::Shl, a, amount.by)?;
    if ty.signed {
        let test = keeps(terms, a, amount.by, value, amount.within)?;
        Ok(Checked {
            division: None,
            other: check_for(prop, test),
            value,
        })
    } else {
        Ok(Checked {
            division: None,
            other: check_for(prop, amount.within),
            value,
        })
    }
}

/// The right shift that fills with the sign, or with zeros.
fn right_op(signed: bool) -> Op2
    ensures { result ≡ right_op_of signed }
{
    if signed { Op2::ShrS } else { Op2::ShrU }
}

/// `>>`
pub fn right(
    terms: &mut Terms,
    ty: IntType,
    from: IntType,
    prop: Option<PropId>,
    a: SizedTerm,
    b: SizedTerm,
) -> Result<Checked, AllocError>
    requires first { Has terms.old a }
    requires second { Has terms.old b }
    requires width_a { a.width ≡ ty.bits }
    requires width_b { b.width ≡ from.bits }
    requires ty { IsPlain ty }
    requires wide { 32 ≤ from.bits }
    requires narrow { from.bits ≤ 64 }
    requires shift { IsSome prop }
    requires room { length terms.old.terms + 11 ≤ MOST_TERMS }
    ensures { IfOk result (λ r. IsChecked terms.old terms.new ty (8 * (84 * max ty.bits from.bits + 12 * from.bits + 32)) 11 r (λ v. binary_value BinaryOp.Shr ty None prop (stands ty v a) (stands from v b))) }
{
    let amount = amount_of(terms, ty, from, b)?;
    let value = sized_terms::two(terms, right_op(ty.signed), a, amount.by)?;
    Ok(Checked {
        division: None,
        other: check_for(prop, amount.within),
        value,
    })
}
