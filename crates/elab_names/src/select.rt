//! Selects of constants (IEEE 1364-2005, 5.2.1).

ghost use Rattle.std.specs.Prelude.{◌≡◌, ◌<◌, ◌≤◌, IfSome};
ghost use Rattle.elab_names.specs.Selects.{IsLength};
ghost use Rattle.elab_names.specs.Selects.{near as near_of, known_number, number_at as number_at_of, number_of as number_of_of, bits_at as bits_at_of, part_width as part_width_of, indexed_width as indexed_width_of, part_choice, width_choice, choice_width as choice_width_of, is_varying as is_varying_of, is_varying_choice as is_varying_choice_of, lowest as lowest_of, is_inside as is_inside_of, bits_worth as bits_worth_of, lowest_worth, width_worth, selected_worth as selected_worth_of, entry_low as entry_low_of, is_memory as is_memory_of, bits_of as bits_of_of, select_standing as select_standing_of};

use crate::constant::{Standing, Worth};
use crate::names::{Entry, Turn};
use crate::scope::entry_standing;
use bits_core::{Op2, Word};

const FAR: i64 = 1_099_511_627_776;

/// The number that a part stands for. A number past 2^40 on either side of 0, which no range reaches, is 2^40 there.
#[derive(Clone, Copy, Debug)]
pub enum Number {
    Known(i64),
    /// Another offence leaves it open.
    Open,
    NotConstant,
}

/// A selection, its parts as numbers.
#[derive(Clone, Copy, Debug)]
pub enum Choice {
    Index(Number),
    Range(Number, Number),
    Up(Number, Number),
    Down(Number, Number),
}

fn near(signed: bool, w: Word) -> i64
    ensures { result ≡ near_of signed w }
{
    if signed {
        let z = w.to_signed();
        if z > FAR as i128 {
            FAR
        } else if z < -(FAR as i128) {
            -FAR
        } else {
            z as i64
        }
    } else {
        let n = w.value();
        if n > FAR as u128 { FAR } else { n as i64 }
    }
}

fn number_at(signed: Option<bool>, worth: Worth) -> Number
    ensures { result ≡ number_at_of signed worth }
{
    match worth {
        Worth::Value(w) => match signed {
            None => Number::Open,
            Some(signed) => Number::Known(near(signed, w)),
        },
        Worth::Open => Number::Open,
        Worth::NotConstant => Number::NotConstant,
    }
}

/// The number that a part stands for by its own sign.
pub fn number_of(s: Standing) -> Number
    ensures { result ≡ number_of_of s }
{
    number_at(s.signed, s.worth)
}

fn bits_at(w: Word, from: i128, width: u8) -> Word
    requires some { 0 < width }
    requires within { width ≤ 128 }
    ensures { result ≡ bits_at_of w from width }
{
    let whole = w.resize(128, false);
    let distance = Word::from_low_bits(128, from.unsigned_abs());
    if from < 0 {
        whole.apply2(Op2::Shl, distance).resize(width, false)
    } else {
        whole.apply2(Op2::ShrU, distance).resize(width, false)
    }
}

fn part_width(high: i64, low: i64) -> Option<u8>
    ensures value { result ≡ part_width_of high low }
    ensures some { IfSome result IsLength }
{
    if high < low {
        None
    } else {
        let more = i128::from(high) - i128::from(low);
        if more > 127 {
            None
        } else {
            Some(more as u8 + 1)
        }
    }
}

fn indexed_width(n: i64) -> Option<u8>
    ensures value { result ≡ indexed_width_of n }
    ensures some { IfSome result IsLength }
{
    if n < 1 {
        None
    } else if n > 64 {
        None
    } else {
        Some(n as u8)
    }
}

/// How many bits a select has, where that is known and lawful.
pub fn choice_width(c: Choice) -> Option<u8>
    ensures value { result ≡ choice_width_of c }
    ensures some { IfSome result IsLength }
{
    match c {
        Choice::Index(_) => Some(1),
        Choice::Range(h, l) => match (h, l) {
            (Number::Known(h), Number::Known(l)) => part_width(h, l),
            _ => None,
        },
        Choice::Up(_, w) | Choice::Down(_, w) => match w {
            Number::Known(n) => indexed_width(n),
            _ => None,
        },
    }
}

fn is_varying(n: Number) -> bool
    ensures { result ≡ is_varying_of n }
{
    match n {
        Number::NotConstant => true,
        _ => false,
    }
}

fn is_varying_choice(c: Choice) -> bool
    ensures { result ≡ is_varying_choice_of c }
{
    match c {
        Choice::Index(i) => is_varying(i),
        Choice::Range(a, b) => is_varying(a) || is_varying(b),
        Choice::Up(a, b) => is_varying(a) || is_varying(b),
        Choice::Down(a, b) => is_varying(a) || is_varying(b),
    }
}

/// The lowest bit of a select, by its name's range.
pub fn lowest(c: Choice, width: u8) -> Option<i128>
    ensures { result ≡ lowest_of c width }
{
    match c {
        Choice::Index(Number::Known(i)) => Some(i128::from(i)),
        Choice::Range(_, Number::Known(l)) => Some(i128::from(l)),
        Choice::Up(Number::Known(base), _) => Some(i128::from(base)),
        Choice::Down(Number::Known(base), _) => Some(i128::from(base) - i128::from(width) + 1),
        _ => None,
    }
}

/// Whether a part select lies inside a range of so many bits; other selects may reach past it.
pub fn is_inside(c: Choice, bits: u8, width: u8, from: i128) -> bool
    ensures { result ≡ is_inside_of c bits width from }
{
    match c {
        Choice::Range(_, _) => !(from < 0) && !(from > i128::from(bits) - i128::from(width)),
        _ => true,
    }
}

fn bits_worth(c: Choice, w: Word, width: u8, from: i128) -> Worth
    requires some { 0 < width }
    requires within { width ≤ 128 }
    ensures { result ≡ bits_worth_of c w width from }
{
    if is_inside(c, w.width(), width, from) {
        Worth::Value(bits_at(w, from, width))
    } else {
        Worth::Open
    }
}

fn selected_worth(c: Choice, low: u32, worth: Worth) -> Worth
    ensures { result ≡ selected_worth_of c low worth }
{
    match worth {
        Worth::Value(w) => match choice_width(c) {
            None => Worth::Open,
            Some(width) => match lowest(c, width) {
                None => Worth::Open,
                Some(from) => bits_worth(c, w, width, from - i128::from(low)),
            },
        },
        Worth::Open => Worth::Open,
        Worth::NotConstant => Worth::NotConstant,
    }
}

/// The low end of a name's range, where it is a parameter.
pub fn entry_low(e: &Option<Entry>) -> u32
    ensures { result ≡ entry_low_of e.now }
{
    match e {
        Some(Entry::Parameter(Some(p))) => p.low,
        _ => 0,
    }
}

/// Whether a name stands for a memory.
pub fn is_memory(e: &Option<Entry>) -> bool
    ensures { result ≡ is_memory_of e.now }
{
    match e {
        Some(Entry::Signal(s)) => s.memory,
        _ => false,
    }
}

fn bits_of(c: Choice, low: u32, name: Worth) -> Standing
    ensures { result ≡ bits_of_of c low name }
{
    let worth = if is_varying_choice(c) {
        Worth::NotConstant
    } else {
        selected_worth(c, low, name)
    };
    Standing {
        length: choice_width(c),
        signed: Some(false),
        worth,
    }
}

/// A select: bits without sign, or a word of a memory. A bit that a constant lacks is 0.
pub fn select_standing(turns: &[Turn], e: &Option<Entry>, c: Choice) -> Standing
    ensures { result ≡ select_standing_of turns.now e.now c }
{
    if is_memory(e) {
        entry_standing(turns, e)
    } else {
        let low = entry_low(e);
        let name = entry_standing(turns, e);
        bits_of(c, low, name.worth)
    }
}
