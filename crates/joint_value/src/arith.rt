//! Arithmetic on the numbers of C's integer types, with the checks that an operator makes (C99 6.3.1.3 and 6.5).

ghost use Rattle.std.specs.Prelude.{◌≡◌, ◌≢◌, ◌+◌, ◌-◌, ◌*◌, ◌<◌, ◌≤◌, ◌^◌, pos, neg_ℤ, ◌+ℤ◌, ◌-ℤ◌, ◌*ℤ◌, ◌≤ℤ◌, ◌<ℤ◌, false, Some, None, int_div, int_rem, unsigned_abs, IfOk, bit_and, bit_or, bit_xor};
ghost use Rattle.bits_core.specs.Word.{word, modulo, number, floor_div};
ghost use Rattle.joint_ir.specs.Types.{lowest as lowest_of, highest as highest_of, in_range as in_range_of, converted as converted_to, truth_of, IsType};
ghost use Rattle.joint_ir.specs.Values.{bit_of, checked as checked_of, result_in as result_of, bitwise as bitwise_of, unary_value, binary_value, is_amount as is_amount_of, Value};
ghost use Rattle.joint_value.specs.Answers.{answer_of, IsSmall, HasWidth, AreFactors, CanOperate, comparison as comparison_of};
ghost use Rattle.joint_ir.specs.declared.expr.BinaryOp.{BinaryOp};

use bits_core::{Op1, Op2, Word};
use joint_ir::program::PropId;
use joint_ir::{BinaryOp, IntType, UnaryOp};

/// The low bits of a number, as a word of so many bits.
fn low_bits(bits: u8, n: i128) -> Word
    requires some { 0 < bits }
    requires within { bits ≤ 64 }
    ensures { result ≡ word bits (modulo bits n) }
{
    if n < 0 {
        let below = (-(n + 1)) as u128;
        Word::from_low_bits(bits, below).apply1(Op1::Not)
    } else {
        Word::from_low_bits(bits, n as u128)
    }
}

/// A word read as a signed or an unsigned number.
fn read(signed: bool, a: Word) -> i128
    requires { a.width ≤ 64 }
    ensures value { result ≡ number signed a.width a.value }
{
    if signed {
        a.to_signed()
    } else {
        a.value() as i128
    }
}

/// The number of a type's range that a number is converted to.
pub fn converted(ty: IntType, n: i128) -> i128
    requires { HasWidth ty }
    ensures { result ≡ converted_to ty n }
{
    if ty.truth {
        if n == 0 { 0 } else { 1 }
    } else {
        read(ty.signed, low_bits(ty.bits, n))
    }
}

/// 2 to the power of a number of bits.
fn power(bits: u8) -> i128
    requires { bits ≤ 64 }
    ensures value { result ≡ pos (2 ^ bits) }
    ensures low { pos 1 ≤ℤ result }
    ensures high { result ≤ℤ pos 18446744073709551616 }
{
    let mut p: u128 = 1;
    for k in 0..bits {
        p *= 2;
    }
    p as i128
}

/// The least number of a type.
fn lowest(ty: IntType) -> i128
    requires { HasWidth ty }
    ensures value { result ≡ lowest_of ty }
    ensures low { neg_ℤ (pos 18446744073709551616) ≤ℤ result }
    ensures high { result ≤ℤ pos 0 }
{
    if ty.signed { -power(ty.bits - 1) } else { 0 }
}

/// The greatest number of a type.
fn highest(ty: IntType) -> i128
    requires { HasWidth ty }
    ensures value { result ≡ highest_of ty }
    ensures low { pos 0 ≤ℤ result }
    ensures high { result ≤ℤ pos 18446744073709551616 }
{
    if ty.signed {
        power(ty.bits - 1) - 1
    } else {
        power(ty.bits) - 1
    }
}

/// Whether a number is in the range of a type.
pub fn in_range(ty: IntType, n: i128) -> bool
    requires { HasWidth ty }
    ensures { result ≡ in_range_of ty n }
{
    lowest(ty) <= n && n <= highest(ty)
}

/// A number, where a check holds or no property stands for it; else that property.
pub fn checked(prop: Option<PropId>, test: bool, n: i128) -> Result<i128, PropId>
    ensures { answer_of result ≡ checked_of prop test (Value n) }
{
    match prop {
        Some(p) => { if test { Ok(n) } else { Err(p) } }
        None => Ok(n),
    }
}

/// A result in a type: its property breaks where it is out of range.
pub fn result_in(ty: IntType, prop: Option<PropId>, n: i128) -> Result<i128, PropId>
    requires { HasWidth ty }
    ensures { answer_of result ≡ result_of ty prop n }
{
    checked(prop, in_range(ty, n), converted(ty, n))
}

/// 1 for true.
pub fn bit(test: bool) -> i128
    ensures { result ≡ bit_of test }
{
    if test { 1 } else { 0 }
}

fn minus(ty: IntType, prop: Option<PropId>, x: i128) -> Result<i128, PropId>
    requires ty { HasWidth ty }
    requires x { IsSmall x }
    ensures { answer_of result ≡ result_of ty prop (neg_ℤ x) }
{
    result_in(ty, prop, -x)
}

/// All bits turned over.
fn flipped(ty: IntType, x: i128) -> i128
    requires ty { HasWidth ty }
    requires x { IsSmall x }
    ensures { result ≡ converted_to ty (neg_ℤ x -ℤ pos 1) }
{
    converted(ty, -x - 1)
}

/// A unary operator of a type.
pub fn unary(op: UnaryOp, ty: IntType, prop: Option<PropId>, x: i128) -> Result<i128, PropId>
    requires ty { HasWidth ty }
    requires x { IsSmall x }
    ensures { answer_of result ≡ unary_value op ty prop x }
{
    match op {
        UnaryOp::Plus => Ok(x),
        UnaryOp::Minus => minus(ty, prop, x),
        UnaryOp::Flip => Ok(flipped(ty, x)),
        UnaryOp::Not => Ok(if x == 0 { 1 } else { 0 }),
    }
}

/// An operation on the bits of two numbers of a type.
fn bits_and(ty: IntType, x: i128, y: i128) -> i128
    requires { HasWidth ty }
    ensures { result ≡ bitwise_of bit_and ty x y }
{
    read(
        ty.signed,
        low_bits(ty.bits, x).apply2(Op2::And, low_bits(ty.bits, y)),
    )
}

fn bits_or(ty: IntType, x: i128, y: i128) -> i128
    requires { HasWidth ty }
    ensures { result ≡ bitwise_of bit_or ty x y }
{
    read(
        ty.signed,
        low_bits(ty.bits, x).apply2(Op2::Or, low_bits(ty.bits, y)),
    )
}

fn bits_xor(ty: IntType, x: i128, y: i128) -> i128
    requires { HasWidth ty }
    ensures { result ≡ bitwise_of bit_xor ty x y }
{
    read(
        ty.signed,
        low_bits(ty.bits, x).apply2(Op2::Xor, low_bits(ty.bits, y)),
    )
}

fn sum(ty: IntType, prop: Option<PropId>, x: i128, y: i128) -> Result<i128, PropId>
    requires ty { HasWidth ty }
    requires x { IsSmall x }
    requires y { IsSmall y }
    ensures { answer_of result ≡ result_of ty prop (x +ℤ y) }
{
    result_in(ty, prop, x + y)
}

fn difference(ty: IntType, prop: Option<PropId>, x: i128, y: i128) -> Result<i128, PropId>
    requires ty { HasWidth ty }
    requires x { IsSmall x }
    requires y { IsSmall y }
    ensures { answer_of result ≡ result_of ty prop (x -ℤ y) }
{
    result_in(ty, prop, x - y)
}

/// A product of two signed numbers, or of two of at most 63 bits.
fn signed_product(ty: IntType, prop: Option<PropId>, x: i128, y: i128) -> Result<i128, PropId>
    requires ty { HasWidth ty }
    requires x { unsigned_abs x ≤ 9223372036854775808 }
    requires y { unsigned_abs y ≤ 9223372036854775808 }
    ensures { answer_of result ≡ result_of ty prop (x *ℤ y) }
{
    result_in(ty, prop, x * y)
}

fn quotient(ty: IntType, prop: Option<PropId>, x: i128, y: i128) -> Result<i128, PropId>
    requires ty { HasWidth ty }
    requires x { IsSmall x }
    requires y { IsSmall y }
    requires some { y ≢ pos 0 }
    ensures { answer_of result ≡ result_of ty prop (int_div x y) }
{
    result_in(ty, prop, x / y)
}

fn quotient_fits(ty: IntType, x: i128, y: i128) -> bool
    requires ty { HasWidth ty }
    requires x { IsSmall x }
    requires y { IsSmall y }
    requires some { y ≢ pos 0 }
    ensures { result ≡ in_range_of ty (int_div x y) }
{
    in_range(ty, x / y)
}

fn rest(x: i128, y: i128) -> i128
    requires x { IsSmall x }
    requires some { y ≢ pos 0 }
    ensures { result ≡ int_rem x y }
{
    x % y
}

fn remainder(ty: IntType, prop: Option<PropId>, x: i128, y: i128) -> Result<i128, PropId>
    requires ty { HasWidth ty }
    requires x { IsSmall x }
    requires y { IsSmall y }
    requires some { y ≢ pos 0 }
    ensures { answer_of result ≡ checked_of prop (in_range_of ty (int_div x y)) (Value (int_rem x y)) }
{
    checked(prop, quotient_fits(ty, x, y), rest(x, y))
}

/// A product of two unsigned numbers below 2^64.
fn unsigned_product(ty: IntType, prop: Option<PropId>, x: i128, y: i128) -> Result<i128, PropId>
    requires ty { HasWidth ty }
    requires sign { ty.signed ≡ false }
    requires truth { ty.truth ≡ false }
    requires x_low { pos 0 ≤ℤ x }
    requires x_high { x <ℤ pos 18446744073709551616 }
    requires y_low { pos 0 ≤ℤ y }
    requires y_high { y <ℤ pos 18446744073709551616 }
    ensures { answer_of result ≡ result_of ty prop (x *ℤ y) }
{
    let product = (x as u128) * (y as u128);
    let fits = product < power(ty.bits) as u128;
    let low = Word::from_low_bits(ty.bits, product);
    checked(prop, fits, low.value() as i128)
}

/// Whether an amount may be shifted by.
fn is_amount(ty: IntType, y: i128) -> bool
    ensures { result ≡ is_amount_of ty y }
{
    y >= 0 && y < ty.bits as i128
}

/// A quotient by 2^y, rounded down.
fn shifted_right(x: i128, y: u8) -> i128
    requires x { IsSmall x }
    requires y { y ≤ 64 }
    ensures { result ≡ floor_div x (2 ^ y) }
{
    let divisor = power(y);
    if x < 0 {
        -1 - (-1 - x) / divisor
    } else {
        x / divisor
    }
}

fn product(ty: IntType, prop: Option<PropId>, x: i128, y: i128) -> Result<i128, PropId>
    requires ty { HasWidth ty }
    requires factors { AreFactors ty x y }
    ensures { answer_of result ≡ result_of ty prop (x *ℤ y) }
{
    if ty.signed {
        signed_product(ty, prop, x, y)
    } else {
        unsigned_product(ty, prop, x, y)
    }
}

/// A division, whose `division` property breaks at a zero divisor.
fn divided(
    ty: IntType,
    division: PropId,
    prop: Option<PropId>,
    x: i128,
    y: i128,
) -> Result<i128, PropId>
    requires ty { HasWidth ty }
    requires x { IsSmall x }
    requires y { IsSmall y }
    ensures { answer_of result ≡ binary_value BinaryOp.Div ty (Some division) prop x y }
{
    if y == 0 {
        Err(division)
    } else {
        quotient(ty, prop, x, y)
    }
}

fn left_over(
    ty: IntType,
    division: PropId,
    prop: Option<PropId>,
    x: i128,
    y: i128,
) -> Result<i128, PropId>
    requires ty { HasWidth ty }
    requires x { IsSmall x }
    requires y { IsSmall y }
    ensures { answer_of result ≡ binary_value BinaryOp.Rem ty (Some division) prop x y }
{
    if y == 0 {
        Err(division)
    } else {
        remainder(ty, prop, x, y)
    }
}

/// A right shift, whose `shift` property breaks at an amount out of range.
fn shift_right(ty: IntType, prop: PropId, x: i128, y: i128) -> Result<i128, PropId>
    requires ty { HasWidth ty }
    requires x { IsSmall x }
    ensures { answer_of result ≡ binary_value BinaryOp.Shr ty None (Some prop) x y }
{
    if is_amount(ty, y) {
        Ok(shifted_right(x, y as u8))
    } else {
        Err(prop)
    }
}

/// The two comparisons and the four orders.
pub fn compare(op: BinaryOp, x: i128, y: i128) -> bool
    ensures { result ≡ comparison_of op x y }
{
    match op {
        BinaryOp::Eq => x == y,
        BinaryOp::Ne => x != y,
        BinaryOp::Lt => x < y,
        BinaryOp::Le => x <= y,
        BinaryOp::Gt => y < x,
        BinaryOp::Ge => y <= x,
        _ => false,
    }
}

/// x times 2^y.
fn shifted_left(x: i128, y: u8) -> i128
    requires low { pos 0 ≤ℤ x }
    requires high { x <ℤ pos 18446744073709551616 }
    requires y { y < 64 }
    ensures value { result ≡ x *ℤ pos (2 ^ y) }
{
    x * power(y)
}

/// A left shift, whose `shift` property breaks at an amount out of range, and with a sign at a number below 0 or a result
/// out of range.
fn shift_left(ty: IntType, prop: PropId, x: i128, y: i128) -> Result<i128, PropId>
    requires ty { HasWidth ty }
    requires low { ty.signed ≡ false → pos 0 ≤ℤ x }
    requires high { x <ℤ pos 18446744073709551616 }
    ensures { answer_of result ≡ binary_value BinaryOp.Shl ty None (Some prop) x y }
{
    if !is_amount(ty, y) {
        return Err(prop);
    }
    if x < 0 {
        return Err(prop);
    }
    let n = shifted_left(x, y as u8);
    if ty.signed && !in_range(ty, n) {
        return Err(prop);
    }
    Ok(converted(ty, n))
}

/// A binary operator of a type; `division` is its property of that kind, and `other` its `overflow` or `shift` property.
pub fn binary(
    op: BinaryOp,
    ty: IntType,
    division: Option<PropId>,
    other: Option<PropId>,
    x: i128,
    y: i128,
) -> Result<i128, PropId>
    requires ty { HasWidth ty }
    requires x { IsSmall x }
    requires y { IsSmall y }
    requires can { CanOperate op ty division other x y }
    ensures { answer_of result ≡ binary_value op ty division other x y }
{
    match op {
        BinaryOp::Add => sum(ty, other, x, y),
        BinaryOp::Sub => difference(ty, other, x, y),
        BinaryOp::Mul => product(ty, other, x, y),
        BinaryOp::Div => match division {
            Some(p) => divided(ty, p, other, x, y),
            None => unreachable!(),
        },
        BinaryOp::Rem => match division {
            Some(p) => left_over(ty, p, other, x, y),
            None => unreachable!(),
        },
        BinaryOp::Shl => match other {
            Some(p) => shift_left(ty, p, x, y),
            None => unreachable!(),
        },
        BinaryOp::Shr => match other {
            Some(p) => shift_right(ty, p, x, y),
            None => unreachable!(),
        },
        BinaryOp::And => Ok(bits_and(ty, x, y)),
        BinaryOp::Or => Ok(bits_or(ty, x, y)),
        BinaryOp::Xor => Ok(bits_xor(ty, x, y)),
        BinaryOp::Eq | BinaryOp::Ne | BinaryOp::Lt | BinaryOp::Le | BinaryOp::Gt | BinaryOp::Ge => {
            Ok(bit(compare(op, x, y)))
        }
    }
}
