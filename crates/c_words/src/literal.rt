//! Integer constants (C99 6.4.4.1).

ghost use Rattle.std.specs.Prelude.{◌≡◌, ◌≤◌, position};
ghost use Rattle.src_text.specs.Digits.{reading};
ghost use Rattle.std.specs.List.{list_any};
ghost use Rattle.c_words.specs.Literals.{is_suffix as is_suffix_of, is_u as is_u_of, is_l as is_l_of, is_x as is_x_of, body_of, is_hex as is_hex_of, is_octal as is_octal_of, number_or_big, value_of, type_holding as type_holding_of, kept as kept_of, literal_of};

use joint_ir::{INT, IntType, UNSIGNED};
use src_text::read_digits;

/// What an integer constant is: its value, and the first type of its list that holds it.
#[derive(Clone, Copy, Debug, PartialEq, Eq)]
pub struct Literal {
    /// 0 where no type holds the constant.
    pub value: u64,
    /// None where no type holds it.
    pub ty: Option<IntType>,
}

fn is_u(byte: u8) -> bool
    ensures { result ≡ is_u_of byte }
{
    byte == b'u' || byte == b'U'
}

fn is_l(byte: u8) -> bool
    ensures { result ≡ is_l_of byte }
{
    byte == b'l' || byte == b'L'
}

fn is_suffix(byte: u8) -> bool
    ensures { result ≡ is_suffix_of byte }
{
    is_u(byte) || is_l(byte)
}

fn is_x(byte: u8) -> bool
    ensures { result ≡ is_x_of byte }
{
    byte == b'x' || byte == b'X'
}

fn has_u(spelled: &[u8]) -> bool
    ensures { result ≡ list_any is_u_of spelled.now }
{
    spelled.iter().any(|byte| is_u(*byte))
}

fn has_l(spelled: &[u8]) -> bool
    ensures { result ≡ list_any is_l_of spelled.now }
{
    spelled.iter().any(|byte| is_l(*byte))
}

fn suffix_at(spelled: &[u8]) -> Option<usize>
    ensures is { result ≡ position is_suffix_of spelled.now }
{
    spelled.iter().position(|byte| is_suffix(*byte))
}

fn body(spelled: &[u8]) -> &[u8]
    ensures { result.now ≡ body_of spelled.now }
{
    match suffix_at(spelled) {
        None => spelled,
        Some(at) => {
            if at < spelled.len() {
                &spelled[..at]
            } else {
                spelled
            }
        }
    }
}

fn is_hex(body: &[u8]) -> bool
    ensures is { result ≡ is_hex_of body.now }
{
    body.len() > 1 && body[0] == b'0' && is_x(body[1])
}

fn is_octal(body: &[u8]) -> bool
    ensures { result ≡ is_octal_of body.now }
{
    body.len() > 0 && body[0] == b'0'
}

fn number(digits: &[u8], base: u8) -> u128
    requires low { 2 ≤ base }
    requires high { base ≤ 36 }
    ensures { result ≡ number_or_big (reading base digits.now) }
{
    match read_digits(digits, base) {
        Ok(number) => number,
        Err(_) => u128::MAX,
    }
}

fn value(body: &[u8]) -> u128
    ensures { result ≡ value_of body.now }
{
    if body.len() > 1 && is_hex(body) {
        number(&body[2..], 16)
    } else if is_octal(body) {
        number(body, 8)
    } else {
        number(body, 10)
    }
}

const LONG: IntType = IntType {
    bits: 64,
    signed: true,
    truth: false,
};

const UNSIGNED_LONG: IntType = IntType {
    bits: 64,
    signed: false,
    truth: false,
};

fn type_holding(decimal: bool, u: bool, l: bool, value: u128) -> Option<IntType>
    ensures { result ≡ type_holding_of decimal u l value }
{
    if !u && !l && value < 2147483648 {
        Some(INT)
    } else if (u || !decimal) && !l && value < 4294967296 {
        Some(UNSIGNED)
    } else if !u && value < 9223372036854775808 {
        Some(LONG)
    } else if (u || !decimal) && value < 18446744073709551616 {
        Some(UNSIGNED_LONG)
    } else {
        None
    }
}

fn kept(ty: Option<IntType>, value: u128) -> u64
    ensures { result ≡ kept_of ty value }
{
    match ty {
        None => 0,
        Some(_) => {
            if value < 18446744073709551616 {
                value as u64
            } else {
                0
            }
        }
    }
}

/// What an integer constant is, by its spelling.
pub fn read_literal(spelled: &[u8]) -> Literal
    ensures { result ≡ literal_of spelled.now }
{
    let digits = body(spelled);
    let value = value(digits);
    let octal = is_octal(digits);
    let ty = type_holding(!octal, has_u(spelled), has_l(spelled), value);
    let value = kept(ty, value);
    Literal { value, ty }
}
