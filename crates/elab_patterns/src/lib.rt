//! Literals that are items of a `casez`: what they write, and which of their bits don't count (IEEE 1364-2005, 9.5.1).
#![tactic(auto)]

ghost use Rattle.std.specs.Prelude.{◌≡◌, ◌+◌, ◌*◌, ◌%◌, ◌^◌, ◌≤◌, [], ◌∷◌, map, filter, IfOk};
ghost use Rattle.std.specs.Str.Parse.{digits_value_after};
ghost use Rattle.src_text.specs.Digits.{is_digit, value_of};
ghost use Rattle.elab_names.specs.Constants.{radix as radix_of, without_size as without_size_of, sized_to as sized_to_of, sized as sized_of};
ghost use Rattle.elab_patterns.specs.Patterns.{is_loose_byte as is_loose_byte_of, has_loose as has_loose_of, is_loose as is_loose_of, counted_digit as counted_digit_of, loose_digit, begins_loose as begins_loose_of, padding, loose_number as loose_number_of, counted as counted_of, is_pattern as is_pattern_of, counted_constant as counted_constant_of, pattern_constant as pattern_constant_of, none_loose as none_loose_of, loose_without_size as loose_without_size_of, loose_sized as loose_sized_of, loose_bits as loose_bits_of};

use bits_core::Word;
use elab_names::constant::{Constant, literal_constant};
use sqlite_items::Items;
use src_text::{DigitFault, read_digits};
use std::alloc::{AllocError, Global};
use v_tree::{Base, BasedNumber, Literal};

fn radix(base: Base) -> u8
    ensures value { result ≡ radix_of base }
    ensures low { 2 ≤ result }
    ensures high { result ≤ 16 }
{
    match base {
        Base::Binary => 2,
        Base::Octal => 8,
        Base::Decimal => 10,
        Base::Hexadecimal => 16,
    }
}

fn is_loose_byte(byte: u8) -> bool
    ensures { result ≡ is_loose_byte_of byte }
{
    byte == b'z' || (byte == b'Z' || byte == b'?')
}

fn has_loose(base: Base) -> bool
    ensures { result ≡ has_loose_of base }
{
    match base {
        Base::Binary | Base::Octal | Base::Hexadecimal => true,
        Base::Decimal => false,
    }
}

fn is_loose(base: Base, byte: u8) -> bool
    ensures { result ≡ is_loose_of base byte }
{
    has_loose(base) && is_loose_byte(byte)
}

fn counted_digit(base: Base, byte: u8) -> u8
    ensures { result ≡ counted_digit_of base byte }
{
    if is_loose(base, byte) { b'0' } else { byte }
}

fn counted_digits(alloc: Global, base: Base, digits: &[u8]) -> Result<Items<u8>, AllocError>
    ensures { IfOk result (λ l. l ≡ map (counted_digit_of base) digits.now) }
{
    let mut counted = Items::new(alloc);
    for byte in digits {
        counted.push(counted_digit(base, *byte))?;
    }
    Ok(counted)
}

fn counted(alloc: Global, b: &BasedNumber) -> Result<Result<u128, DigitFault>, AllocError>
    ensures { IfOk result (λ n. n ≡ counted_of b.now) }
{
    let digits = counted_digits(alloc, b.base, b.digits.text().as_bytes())?;
    Ok(read_digits(digits.as_slice(), radix(b.base)))
}

/// Whether digits of a literal need not count: of one that is unsigned.
pub fn is_pattern(l: &Literal) -> bool
    ensures { result ≡ is_pattern_of l.now }
{
    match l {
        Literal::Decimal(_) => false,
        Literal::Based(b) => !b.signed,
        Literal::Sized(_, b) => !b.signed,
    }
}

fn without_size(signed: bool, number: Result<u128, DigitFault>) -> Option<Constant>
    ensures { result ≡ without_size_of signed number }
{
    match number {
        Ok(n) => match Word::new(32, n) {
            Some(word) => Some(Constant { word, signed }),
            None => None,
        },
        Err(_) => None,
    }
}

fn sized_to(signed: bool, size: u128, n: u128) -> Option<Constant>
    ensures { result ≡ sized_to_of signed size n }
{
    if size > 0 {
        if size > 128 {
            None
        } else {
            let word = Word::from_low_bits(size as u8, n);
            Some(Constant { word, signed })
        }
    } else {
        None
    }
}

fn sized(
    signed: bool,
    size: Result<u128, DigitFault>,
    number: Result<u128, DigitFault>,
) -> Option<Constant>
    ensures { result ≡ sized_of signed size number }
{
    match size {
        Ok(size) => match number {
            Ok(n) => sized_to(signed, size, n),
            Err(_) => None,
        },
        Err(_) => None,
    }
}

fn counted_constant(alloc: Global, l: &Literal) -> Result<Option<Constant>, AllocError>
    ensures { IfOk result (λ c. c ≡ counted_constant_of l.now) }
{
    match l {
        Literal::Decimal(_) => Ok(literal_constant(l)),
        Literal::Based(b) => {
            let number = counted(alloc, b)?;
            Ok(without_size(b.signed, number))
        }
        Literal::Sized(s, b) => {
            let number = counted(alloc, b)?;
            let size = read_digits(s.digits.text().as_bytes(), 10);
            Ok(sized(b.signed, size, number))
        }
    }
}

/// What a literal that is an item of a `casez` writes: digits that don't count are 0. None where it writes no number.
pub fn pattern_constant(alloc: Global, l: &Literal) -> Result<Option<Constant>, AllocError>
    ensures { IfOk result (λ c. c ≡ pattern_constant_of l.now) }
{
    if is_pattern(l) {
        let c = counted_constant(alloc, l)?;
        Ok(c)
    } else {
        Ok(literal_constant(l))
    }
}

fn begins_loose(base: Base, digits: &[u8]) -> bool
    ensures { result ≡ begins_loose_of base digits.now }
{
    match digits {
        [] => false,
        [first, ..] => is_loose(base, *first),
    }
}

/// The low 128 bits of the digits that stand left of the first one.
fn padded(base: Base, begins: bool) -> u128
    ensures { result ≡ value_of (radix_of base) (padding base begins) % 2 ^ 128 }
{
    if begins { u128::MAX } else { 0 }
}

fn appended(bits: u128, radix: u8, digit: u8) -> u128
    ensures { result ≡ (bits * radix + digit) % 2 ^ 128 }
{
    bits.wrapping_mul(u128::from(radix))
        .wrapping_add(u128::from(digit))
}

/// One more digit, or none where it is `_`.
fn with_digit(bits: u128, base: Base, byte: u8) -> u128
    ensures { result ≡ digits_value_after (radix_of base) bits (filter (is_digit (radix_of base)) (loose_digit base byte ∷ [])) % 2 ^ 128 }
{
    if is_loose(base, byte) {
        appended(bits, radix(base), radix(base) - 1)
    } else if byte == b'_' {
        bits
    } else {
        appended(bits, radix(base), 0)
    }
}

fn loose_number(base: Base, digits: &[u8]) -> u128
    ensures { result ≡ loose_number_of base digits.now }
{
    let mut bits = padded(base, begins_loose(base, digits));
    for byte in digits {
        bits = with_digit(bits, base, *byte);
    }
    bits
}

fn none_loose() -> Word
    ensures { result ≡ none_loose_of }
{
    Word::from_low_bits(128, 0)
}

fn loose_without_size(b: &BasedNumber) -> Word
    ensures { result ≡ loose_without_size_of b.now }
{
    if b.signed {
        none_loose()
    } else {
        let number = loose_number(b.base, b.digits.text().as_bytes());
        Word::from_low_bits(32, number).resize(128, true)
    }
}

fn loose_sized(b: &BasedNumber, c: Option<Constant>) -> Word
    ensures { result ≡ loose_sized_of b.now c }
{
    match c {
        None => none_loose(),
        Some(c) => {
            if b.signed {
                none_loose()
            } else {
                let number = loose_number(b.base, b.digits.text().as_bytes());
                Word::from_low_bits(c.word.width(), number).resize(128, false)
            }
        }
    }
}

/// The bits that don't count of a literal that is an item of a `casez`, as a word of 128 bits.
pub fn loose_bits(alloc: Global, l: &Literal) -> Result<Word, AllocError>
    ensures { IfOk result (λ w. w ≡ loose_bits_of l.now) }
{
    match l {
        Literal::Decimal(_) => Ok(none_loose()),
        Literal::Based(b) => Ok(loose_without_size(b)),
        Literal::Sized(_, b) => {
            let c = pattern_constant(alloc, l)?;
            Ok(loose_sized(b, c))
        }
    }
}
