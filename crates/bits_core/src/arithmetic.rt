// The operations, on a width and the values of words of that width.

ghost use Rattle.std.specs.Prelude.{◌≡◌, ◌+◌, ◌*◌, ◌%◌, ◌^◌, ◌<◌, ◌≤◌, true, false, pos, neg_ℤ, nat_eq, nat_lt, count_ones, unsigned_abs};
ghost use Rattle.bits_core.specs.Word.{bit as bit_of, modulo, resized, read_signed};
ghost use Rattle.bits_core.specs.Ops.{quotient, remainder, less, value1, value2};
ghost use Rattle.bits_core.specs.declared.op.Op2.TheVariants.{Add, Sub, Mul, Shl, ShrU, ShrS};

use crate::op::{Op1, Op2};

/// The greatest word of a width.
pub fn most(w: u8) -> u128
    requires { w ≤ 128 }
    ensures { result + 1 ≡ 2 ^ w }
{
    if w == 0 {
        return 0;
    }
    u128::MAX >> (128 - w)
}

/// The low bits of a number.
pub fn low(w: u8, x: u128) -> u128
    requires { w ≤ 128 }
    ensures { result ≡ x % 2 ^ w }
{
    let mask = most(w);
    x & mask
}

/// Whether a word is in the half that stands for itself.
pub fn is_low_half(w: u8, x: u128) -> bool
    requires { w ≤ 128 }
    ensures { result ≡ nat_lt (x + x) (2 ^ w) }
{
    let half = most(w) / 2;
    x <= half
}

/// A word negated.
pub fn negated(w: u8, x: u128) -> u128
    requires width { w ≤ 128 }
    requires below { x < 2 ^ w }
    ensures { result ≡ modulo w (neg_ℤ (pos x)) }
{
    if x == 0 {
        return 0;
    }
    most(w) - (x - 1)
}

/// The size of a word read as a signed number.
pub fn size_of_signed(w: u8, x: u128) -> u128
    requires width { w ≤ 128 }
    requires below { x < 2 ^ w }
    ensures { result ≡ unsigned_abs (read_signed (2 ^ w) x) }
{
    if is_low_half(w, x) {
        return x;
    }
    most(w) - x + 1
}

/// The signed quotient.
pub fn quotient_signed(w: u8, x: u128, y: u128) -> u128
    requires width { w ≤ 128 }
    requires left { x < 2 ^ w }
    requires right { y < 2 ^ w }
    ensures { result ≡ quotient true w x y }
{
    if y == 0 {
        return 0;
    }
    let a = size_of_signed(w, x);
    let b = size_of_signed(w, y);
    let q = a / b;
    if is_low_half(w, x) == is_low_half(w, y) {
        q
    } else {
        negated(w, q)
    }
}

/// What is left of a signed division.
pub fn remainder_signed(w: u8, x: u128, y: u128) -> u128
    requires width { w ≤ 128 }
    requires left { x < 2 ^ w }
    requires right { y < 2 ^ w }
    ensures { result ≡ remainder true w x y }
{
    if y == 0 {
        return 0;
    }
    let a = size_of_signed(w, x);
    let b = size_of_signed(w, y);
    let r = a % b;
    if is_low_half(w, x) { r } else { negated(w, r) }
}

/// A product.
pub fn product(w: u8, x: u128, y: u128) -> u128
    requires width { w ≤ 128 }
    ensures { result ≡ value2 Mul w x y }
{
    let p = x.wrapping_mul(y);
    low(w, p)
}

/// A sum.
pub fn sum(w: u8, x: u128, y: u128) -> u128
    requires width { w ≤ 128 }
    ensures { result ≡ value2 Add w x y }
{
    let p = x.wrapping_add(y);
    low(w, p)
}

/// A difference.
pub fn difference(w: u8, x: u128, y: u128) -> u128
    requires width { w ≤ 128 }
    requires left { x < 2 ^ w }
    requires right { y < 2 ^ w }
    ensures { result ≡ value2 Sub w x y }
{
    if y <= x {
        return x - y;
    }
    most(w) - (y - x - 1)
}

/// A word shifted to the left.
pub fn left(w: u8, x: u128, y: u128) -> u128
    requires width { w ≤ 128 }
    requires word { x < 2 ^ w }
    ensures { result ≡ value2 Shl w x y }
{
    if y >= w as u128 {
        return 0;
    }
    let p = x << (y as u32);
    low(w, p)
}

/// A word shifted to the right.
pub fn right(w: u8, x: u128, y: u128) -> u128
    requires width { w ≤ 128 }
    requires word { x < 2 ^ w }
    ensures { result ≡ value2 ShrU w x y }
{
    if y >= w as u128 {
        return 0;
    }
    x >> (y as u32)
}

/// A word shifted to the right, with its sign.
pub fn right_signed(w: u8, x: u128, y: u128) -> u128
    requires width { w ≤ 128 }
    requires word { x < 2 ^ w }
    ensures { result ≡ value2 ShrS w x y }
{
    if is_low_half(w, x) {
        return right(w, x, y);
    }
    let m = most(w);
    let c = m - x;
    let d = right(w, c, y);
    m - d
}

/// Whether a word is less than another as a signed number.
pub fn is_less_signed(w: u8, x: u128, y: u128) -> bool
    requires width { w ≤ 128 }
    requires left { x < 2 ^ w }
    requires right { y < 2 ^ w }
    ensures { result ≡ less true w x y }
{
    let p = is_low_half(w, x);
    if p == is_low_half(w, y) { x < y } else { y < x }
}

/// A word at another width.
pub fn resize(to: u8, signed: bool, w: u8, x: u128) -> u128
    requires to { to ≤ 128 }
    requires width { w ≤ 128 }
    requires word { x < 2 ^ w }
    ensures { result ≡ resized to signed w x }
{
    if !signed {
        return low(to, x);
    }
    if to <= w {
        return low(to, x);
    }
    if is_low_half(w, x) {
        return x;
    }
    let wide = most(to);
    let narrow = most(w);
    wide - (narrow - x)
}

/// The unsigned quotient.
pub fn quotient_unsigned(w: u8, x: u128, y: u128) -> u128
    requires left { x < 2 ^ w }
    ensures { result ≡ quotient false w x y }
{
    if y == 0 {
        return 0;
    }
    x / y
}

/// The unsigned remainder.
pub fn remainder_unsigned(w: u8, x: u128, y: u128) -> u128
    requires left { x < 2 ^ w }
    ensures { result ≡ remainder false w x y }
{
    if y == 0 {
        return 0;
    }
    x % y
}

/// A bit as a number.
pub fn bit(b: bool) -> u128
    ensures { result ≡ bit_of b }
{
    if b { 1 } else { 0 }
}

/// Whether the number of bits that are 1 is odd.
pub fn is_odd(x: u128) -> bool
    ensures { result ≡ nat_eq (count_ones x % 2) 1 }
{
    x.count_ones() % 2 == 1
}

/// An operation on one word.
pub fn apply1(op: Op1, w: u8, x: u128) -> u128
    requires width { w ≤ 128 }
    requires word { x < 2 ^ w }
    ensures value { result ≡ value1 op w x }
{
    match op {
        Op1::Not => most(w) - x,
        Op1::Neg => negated(w, x),
        Op1::RedAnd => {
            let m = most(w);
            bit(x == m)
        }
        Op1::RedOr => bit(x > 0),
        Op1::RedXor => bit(is_odd(x)),
    }
}

/// An operation on two words of one width.
pub fn apply2(op: Op2, w: u8, x: u128, y: u128) -> u128
    requires width { w ≤ 128 }
    requires left { x < 2 ^ w }
    requires right { y < 2 ^ w }
    ensures { result ≡ value2 op w x y }
{
    match op {
        Op2::And => x & y,
        Op2::Or => x | y,
        Op2::Xor => x ^ y,
        Op2::Add => sum(w, x, y),
        Op2::Sub => difference(w, x, y),
        Op2::Mul => product(w, x, y),
        Op2::DivU => quotient_unsigned(w, x, y),
        Op2::DivS => quotient_signed(w, x, y),
        Op2::RemU => remainder_unsigned(w, x, y),
        Op2::RemS => remainder_signed(w, x, y),
        Op2::Shl => left(w, x, y),
        Op2::ShrU => right(w, x, y),
        Op2::ShrS => right_signed(w, x, y),
        Op2::Eq => bit(x == y),
        Op2::LtU => bit(x < y),
        Op2::LtS => bit(is_less_signed(w, x, y)),
    }
}

/// One word on the left of another.
pub fn joined(w: u8, x: u128, n: u8, y: u128) -> u128
    requires width { w + n ≤ 128 }
    requires some { 0 < w }
    requires left { x < 2 ^ w }
    requires right { y < 2 ^ n }
    ensures { result ≡ x * 2 ^ n + y }
{
    (x << (n as u32)) + y
}
