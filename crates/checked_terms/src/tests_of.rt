// Operators that give what is in range: comparisons, bits and conversions.

ghost use Rattle.std.specs.Prelude.{◌≡◌, ◌+◌, ◌*◌, ◌<◌, ◌≤◌, ◌^◌, true, false, nat_lt, length, IfOk, ℕ, Bool};
ghost use Rattle.bits_core.specs.Ops.{value2, width2};
ghost use Rattle.bits_core.specs.Word.{bit, word, modulo, number};
ghost use Rattle.word_eqs.specs.Gates.{gates2};
ghost use Rattle.word_eqs.specs.Meaning.{Values};
ghost use Rattle.joint_ir.specs.Types.{int, converted as converted_to, IsType, InRange};
ghost use Rattle.joint_ir.specs.Values.{bit_of, bitwise as bits_of, is_zero, Value};
ghost use Rattle.joint_ir.specs.Weights.{convert_weight};
ghost use Rattle.sized_terms.specs.Sized.{Has, IsMade, bits};
ghost use Rattle.checked_terms.specs.Checked.{stands, IsChecked, plain, comparison_of};
ghost use Rattle.word_eqs.specs.Graph.{MOST_TERMS};

use bits_core::{Op1, Op2, Word};
use joint_ir::IntType;
use sized_terms::SizedTerm;
use std::alloc::AllocError;
use word_eqs::Terms;

/// Whether a term isn't 0, as a term of one bit.
pub fn is_set(terms: &mut Terms, a: SizedTerm) -> Result<SizedTerm, AllocError>
    requires has { Has terms.old a }
    requires room { length terms.old.terms < MOST_TERMS }
    ensures { IfOk result (λ t. IsMade terms.old terms.new 1 (3 * a.width) 1 t (λ v. bit (nat_lt 0 (bits v a)))) }
{
    let t = sized_terms::one(terms, Op1::RedOr, a)?;
    Ok(t)
}

/// `!` (C99 6.5.3.3): 1 for 0, and else 0, of type `int`.
pub fn opposite(terms: &mut Terms, from: IntType, a: SizedTerm) -> Result<SizedTerm, AllocError>
    requires has { Has terms.old a }
    requires width { a.width ≡ from.bits }
    requires room { length terms.old.terms + 3 ≤ MOST_TERMS }
    ensures { IfOk result (λ t. IsChecked terms.old terms.new int (3 * a.width) 3 (plain t) (λ v. Value (bit_of (is_zero (stands from v a))))) }
{
    let set = is_set(terms, a)?;
    let unset = sized_terms::one(terms, Op1::Not, set)?;
    let t = sized_terms::resize(terms, unset, 32, false)?;
    Ok(t)
}

/// A comparison of two terms, or its opposite, as 0 or 1 of type `int`.
pub fn compare(
    terms: &mut Terms,
    op: Op2,
    negated: bool,
    a: SizedTerm,
    b: SizedTerm,
) -> Result<SizedTerm, AllocError>
    requires first { Has terms.old a }
    requires second { Has terms.old b }
    requires same { b.width ≡ a.width }
    requires op { (w : ℕ) → width2 op w ≡ 1 }
    requires room { length terms.old.terms + 3 ≤ MOST_TERMS }
    ensures { IfOk result (λ t. (test : Values → Bool) → ((v : Values) → bits v a < 2 ^ a.width → bits v b < 2 ^ b.width → value2 op a.width (bits v a) (bits v b) ≡ bit (test v)) → IsChecked terms.old terms.new int (gates2 op a.width) 3 (plain t) (λ v. Value (bit_of (comparison_of negated (test v))))) }
{
    let holds = sized_terms::two(terms, op, a, b)?;
    if negated {
        let fails = sized_terms::one(terms, Op1::Not, holds)?;
        let t = sized_terms::resize(terms, fails, 32, false)?;
        Ok(t)
    } else {
        let t = sized_terms::resize(terms, holds, 32, false)?;
        Ok(t)
    }
}

/// `&`, `|` and `^` (C99 6.5.10 to 6.5.12).
pub fn bitwise(
    terms: &mut Terms,
    op: Op2,
    ty: IntType,
    a: SizedTerm,
    b: SizedTerm,
) -> Result<SizedTerm, AllocError>
    requires first { Has terms.old a }
    requires second { Has terms.old b }
    requires width_a { a.width ≡ ty.bits }
    requires width_b { b.width ≡ ty.bits }
    requires op { width2 op ty.bits ≡ ty.bits }
    requires room { length terms.old.terms < MOST_TERMS }
    ensures { IfOk result (λ t. (f : ℕ → ℕ → ℕ) → ((x y : ℕ) → value2 op ty.bits x y ≡ f x y) → IsChecked terms.old terms.new ty (gates2 op ty.bits) 1 (plain t) (λ v. Value (bits_of f ty (stands ty v a) (stands ty v b)))) }
{
    let t = sized_terms::two(terms, op, a, b)?;
    Ok(t)
}

/// A conversion to a type (C99 6.3.1.2 and 6.3.1.3).
pub fn converted(
    terms: &mut Terms,
    from: IntType,
    ty: IntType,
    a: SizedTerm,
) -> Result<SizedTerm, AllocError>
    requires has { Has terms.old a }
    requires width { a.width ≡ from.bits }
    requires ty { IsType ty }
    requires room { length terms.old.terms < MOST_TERMS }
    ensures { IfOk result (λ t. IsChecked terms.old terms.new ty (8 * convert_weight ty from.bits) 1 (plain t) (λ v. Value (converted_to ty (stands from v a)))) }
{
    if ty.truth {
        let t = is_set(terms, a)?;
        Ok(t)
    } else {
        let t = sized_terms::resize(terms, a, ty.bits, from.signed)?;
        Ok(t)
    }
}

/// The low bits of a number.
fn low_bits(bits: u8, n: i128) -> Word
    requires some { 0 < bits }
    requires within { bits ≤ 64 }
    ensures { result ≡ word bits (modulo bits n) }
{
    if n < 0 {
        let below = (-(n + 1)) as u128;
        Word::from_low_bits(bits, below).apply1(Op1::Not)
    } else {
        Word::from_low_bits(bits, n as u128)
    }
}

/// A number of a type.
pub fn literal(terms: &mut Terms, ty: IntType, n: i128) -> Result<SizedTerm, AllocError>
    requires ty { IsType ty }
    requires within { InRange ty n }
    requires room { length terms.old.terms < MOST_TERMS }
    ensures { IfOk result (λ t. IsChecked terms.old terms.new ty 0 1 (plain t) (λ v. Value n)) }
{
    let word = low_bits(ty.bits, n);
    let t = sized_terms::constant(terms, ty.bits, word.value())?;
    Ok(t)
}
