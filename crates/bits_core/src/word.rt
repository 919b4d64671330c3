// Words.

ghost use Rattle.std.specs.Prelude.{◌≡◌, ◌+◌, ◌%◌, ◌^◌, ◌<◌, ◌≤◌, ◌⊎◌, MatchOption, true};
ghost use Rattle.bits_core.specs.Word.{word, IsWord, number, resized_word, sliced, joined};
ghost use Rattle.bits_core.specs.Ops.{word1, word2};

use crate::arithmetic;
use crate::op::{Op1, Op2};
use std::marker::Model;

/// A number of 1 to 128 bits: its width in bits, and a value below 2^width.
#[derive(Clone, Copy, Debug, PartialEq, Eq)]
pub struct Word {
    width: u8,
    value: u128,
}

impl Model for Word {
    ghost use Rattle.bits_core.specs.Word.{Word as Value_of, word as value_of, IsWord as IsProper};

    ghost Value = { Value_of };

    ghost view = { λ a. value_of a.width a.value };

    ghost invariant = { λ a. IsProper (value_of a.width a.value) };

    ghost inverse = { λ a. record { width = a.width; value = a.value } };
}

impl Word {
    /// The word of a width with a value; None where the width or the value is out of range.
    pub fn new(width: u8, value: u128) -> Option<Word>
        ensures { MatchOption result ((width ≡ 0) ⊎ (128 < width) ⊎ (2 ^ width ≤ value)) (λ a. (a ≡ word width value) × IsWord a) }
    {
        if width == 0 || width > 128 {
            return None;
        }
        let m = arithmetic::most(width);
        if value > m {
            return None;
        }
        Some(Word { width, value })
    }

    /// The word of a width whose bits are the low bits of a number.
    pub fn from_low_bits(width: u8, number: u128) -> Word
        requires some { 0 < width }
        requires within { width ≤ 128 }
        ensures value { result ≡ word width (number % 2 ^ width) }
        ensures proper { IsWord result }
    {
        let value = arithmetic::low(width, number);
        Word { width, value }
    }

    /// The number of bits.
    pub fn width(self) -> u8
        ensures width { result ≡ self.width }
        ensures proper { IsWord self }
    {
        self.width
    }

    /// The bits read as an unsigned number.
    pub fn value(self) -> u128
        ensures value { result ≡ self.value }
        ensures proper { IsWord self }
    {
        self.value
    }

    /// The bits read as a signed number.
    pub fn to_signed(self) -> i128
        ensures { result ≡ number true self.width self.value }
    {
        if arithmetic::is_low_half(self.width, self.value) {
            return self.value as i128;
        }
        let opposite = arithmetic::most(self.width) - self.value;
        -(opposite as i128) - 1
    }

    /// The word at another width: extended by its sign or by zeros, or cut.
    pub fn resize(self, to: u8, signed: bool) -> Word
        requires some { 0 < to }
        requires within { to ≤ 128 }
        ensures { result ≡ resized_word to signed self }
    {
        let value = arithmetic::resize(to, signed, self.width, self.value);
        Word { width: to, value }
    }

    /// The bits from the high to the low, both counted from 0.
    pub fn slice(self, high: u8, low: u8) -> Word
        requires order { low ≤ high }
        requires within { high < self.width }
        ensures { result ≡ sliced high low self }
    {
        let width = high - low + 1;
        let value = arithmetic::low(width, self.value >> (low as u32));
        Word { width, value }
    }

    /// This word on the left, and another on the right.
    pub fn join(self, right: Word) -> Word
        requires { self.width + right.width ≤ 128 }
        ensures { result ≡ joined self right }
    {
        let width = self.width + right.width;
        let value = arithmetic::joined(self.width, self.value, right.width, right.value);
        Word { width, value }
    }

    /// An operation on this word.
    pub fn apply1(self, op: Op1) -> Word
        ensures { result ≡ word1 op self }
    {
        let width = op.width(self.width);
        let value = arithmetic::apply1(op, self.width, self.value);
        Word { width, value }
    }

    /// An operation on this word and another of its width.
    pub fn apply2(self, op: Op2, right: Word) -> Word
        requires { right.width ≡ self.width }
        ensures { result ≡ word2 op self right }
    {
        let width = op.width(self.width);
        let value = arithmetic::apply2(op, self.width, self.value, right.value);
        Word { width, value }
    }
}
