//! Literals, and what is known of an expression that must be constant (IEEE 1364-2005, 3.5.1 and 5.4.1).

ghost use Rattle.std.specs.Prelude.{◌≡◌, ◌≤◌};
ghost use Rattle.elab_names.specs.Constants.{is_zero as is_zero_of, is_true as is_true_of, flag as flag_of, radix as radix_of, without_size as without_size_of, sized_to as sized_to_of, sized as sized_of, literal_constant as literal_constant_of, constant_standing, unknown as unknown_of, literal_standing as literal_standing_of, context_of as context_of_of, extended as extended_of, IsContext, IsIn};

use crate::context::Context;
use bits_core::Word;
use src_text::{DigitFault, read_digits};
use v_tree::{Base, Literal};

/// A constant: its bits, read with or without sign.
#[derive(Clone, Copy, Debug)]
pub struct Constant {
    pub word: Word,
    pub signed: bool,
}

/// What is known of the value of an expression that must be constant.
#[derive(Clone, Copy, Debug)]
pub enum Worth {
    Value(Word),
    /// Another offence leaves it open.
    Open,
    /// It names a signal, or divides by 0.
    NotConstant,
}

/// What an expression is by itself. A length past 128 bits is 129; what another offence leaves open is None.
#[derive(Clone, Copy, Debug)]
pub struct Standing {
    pub length: Option<u8>,
    pub signed: Option<bool>,
    pub worth: Worth,
}

/// Whether a word is 0.
pub fn is_zero(w: Word) -> bool
    ensures { result ≡ is_zero_of w }
{
    w.value() == 0
}

/// Whether a word counts as true (5.1.9).
pub fn is_true(w: Word) -> bool
    ensures { result ≡ is_true_of w }
{
    !is_zero(w)
}

/// One bit.
pub fn flag(b: bool) -> Word
    ensures { result ≡ flag_of b }
{
    Word::from_low_bits(1, if b { 1 } else { 0 })
}

fn radix(base: Base) -> u8
    ensures value { result ≡ radix_of base }
    ensures low { 2 ≤ result }
    ensures high { result ≤ 36 }
{
    match base {
        Base::Binary => 2,
        Base::Octal => 8,
        Base::Decimal => 10,
        Base::Hexadecimal => 16,
    }
}

fn without_size(signed: bool, number: Result<u128, DigitFault>) -> Option<Constant>
    ensures { result ≡ without_size_of signed number }
{
    match number {
        Ok(n) => match Word::new(32, n) {
            Some(word) => Some(Constant { word, signed }),
            None => None,
        },
        Err(_) => None,
    }
}

fn sized_to(signed: bool, size: u128, n: u128) -> Option<Constant>
    ensures { result ≡ sized_to_of signed size n }
{
    if size > 0 {
        if size > 128 {
            None
        } else {
            let word = Word::from_low_bits(size as u8, n);
            Some(Constant { word, signed })
        }
    } else {
        None
    }
}

fn sized(
    signed: bool,
    size: Result<u128, DigitFault>,
    number: Result<u128, DigitFault>,
) -> Option<Constant>
    ensures { result ≡ sized_of signed size number }
{
    match size {
        Ok(size) => match number {
            Ok(n) => sized_to(signed, size, n),
            Err(_) => None,
        },
        Err(_) => None,
    }
}

/// What a literal writes; None where it has a digit that its base lacks, `x` and `z` included, a size that isn't from 1 to
/// 128, or a value that no size holds.
pub fn literal_constant(l: &Literal) -> Option<Constant>
    ensures { result ≡ literal_constant_of l.now }
{
    match l {
        Literal::Decimal(d) => without_size(true, read_digits(d.digits.text().as_bytes(), 10)),
        Literal::Based(b) => without_size(
            b.signed,
            read_digits(b.digits.text().as_bytes(), radix(b.base)),
        ),
        Literal::Sized(s, b) => sized(
            b.signed,
            read_digits(s.digits.text().as_bytes(), 10),
            read_digits(b.digits.text().as_bytes(), radix(b.base)),
        ),
    }
}

impl Standing {
    /// A constant.
    pub fn of(c: Constant) -> Standing
        ensures { result ≡ constant_standing c }
    {
        Standing {
            length: Some(c.word.width()),
            signed: Some(c.signed),
            worth: Worth::Value(c.word),
        }
    }

    /// What nothing is known of.
    pub fn unknown() -> Standing
        ensures { result ≡ unknown_of }
    {
        Standing {
            length: None,
            signed: None,
            worth: Worth::Open,
        }
    }
}

/// A literal, where it is a number.
pub fn literal_standing(c: Option<Constant>) -> Standing
    ensures { result ≡ literal_standing_of c }
{
    match c {
        None => Standing::unknown(),
        Some(c) => Standing::of(c),
    }
}

/// The context of a width and a sign, where both are known and the width is from 1 to 128.
pub fn context_of(length: Option<u8>, signed: Option<bool>) -> Option<Context>
    ensures value { result ≡ context_of_of length signed }
    ensures proper { IsContext result }
{
    match (length, signed) {
        (Some(width), Some(signed)) => {
            if width > 0 {
                if width > 128 {
                    None
                } else {
                    Some(Context { width, signed })
                }
            } else {
                None
            }
        }
        (Some(_), None) => None,
        (None, _) => None,
    }
}

/// The value of a part that stands for itself, in a context.
pub fn extended(context: Option<Context>, worth: Worth) -> Worth
    requires { IsContext context }
    ensures value { result ≡ extended_of context worth }
    ensures within { IsIn context result }
{
    match worth {
        Worth::Value(w) => match context {
            None => Worth::Open,
            Some(x) => Worth::Value(w.resize(x.width, x.signed)),
        },
        Worth::Open => Worth::Open,
        Worth::NotConstant => Worth::NotConstant,
    }
}
