//! Words of a signal, and the numbers of C's types that stand for them (C99 6.3.1.2 and 6.3.1.3).

ghost use Rattle.std.specs.Prelude.{◌≡◌, ◌<◌, ◌≤◌, ◌^◌};
ghost use Rattle.bits_core.specs.Word.{word, modulo, number};
ghost use Rattle.joint_ir.specs.Types.{converted as converted_to, IsType};
ghost use Rattle.joint_ir.specs.Views.{word_number};

use bits_core::{Op1, Word};
use joint_ir::{IntType, Signal};

/// The low bits of a number, as a word of so many bits.
fn low_word(bits: u8, n: i128) -> Word
    requires some { 0 < bits }
    requires within { bits ≤ 64 }
    ensures { result ≡ word bits (modulo bits n) }
{
    if n < 0 {
        let below = (-(n + 1)) as u128;
        Word::from_low_bits(bits, below).apply1(Op1::Not)
    } else {
        Word::from_low_bits(bits, n as u128)
    }
}

/// The low bits of a number.
pub fn low_bits(bits: u8, n: i128) -> u64
    requires some { 0 < bits }
    requires within { bits ≤ 64 }
    ensures value { result ≡ modulo bits n }
    ensures below { result < 2 ^ bits }
{
    low_word(bits, n).value() as u64
}

/// A word read as a signed or an unsigned number.
fn read(signed: bool, a: Word) -> i128
    requires { a.width ≤ 64 }
    ensures { result ≡ number signed a.width a.value }
{
    if signed {
        a.to_signed()
    } else {
        a.value() as i128
    }
}

/// The word of a width with a value below 2 to it.
pub fn word_of(width: u8, value: u64) -> Word
    requires some { 0 < width }
    requires within { width ≤ 128 }
    requires below { value < 2 ^ width }
    ensures { result ≡ word width value }
{
    Word::from_low_bits(width, value as u128)
}

/// A word of a signal as a number: with a sign where the signal has one.
pub fn number(signal: &Signal, n: u64) -> i128
    requires some { 0 < signal.now.bits }
    requires within { signal.now.bits ≤ 64 }
    requires below { n < 2 ^ signal.now.bits }
    ensures { result ≡ word_number signal.now n }
{
    read(signal.signed, word_of(signal.bits, n))
}

/// The number of a type's range that a number is converted to.
pub fn converted(ty: IntType, n: i128) -> i128
    requires { IsType ty }
    ensures { result ≡ converted_to ty n }
{
    if ty.truth {
        if n == 0 { 0 } else { 1 }
    } else {
        read(ty.signed, low_word(ty.bits, n))
    }
}
