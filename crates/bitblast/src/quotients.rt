//! Quotients and remainders, by restoring division. A zero divisor gives 0.

ghost use Rattle.std.specs.Prelude.{◌≡◌, ◌+◌, ◌*◌, ◌<◌, ◌≤◌, ◌^◌, true, false, length, IfOk, unsigned_abs, if◌then◌else◌};
ghost use Rattle.gate_net.specs.Edge.{edge_value};
ghost use Rattle.bits_core.specs.Word.{read_signed};
ghost use Rattle.bits_core.specs.Ops.{quotient, remainder, value1};
ghost use Rattle.bits_core.specs.declared.op.Op1.TheVariants.{Neg};
ghost use Rattle.bitblast.specs.Circuit.{AreBelow, MakesWord, number_of};
ghost use Rattle.bitblast.specs.Quotients.{MakesStep, MakesDivision};
ghost use Rattle.gate_net.specs.Net.{MOST_NODES};

use crate::bitwise::{Wire, choose_word, masked};
use crate::gates::{either, exclusive};
use crate::reductions::is_some_set;
use crate::shapes::{falsity, filled, shifted_in};
use crate::sums::{difference, negate};
use gate_net::{Edge, Net};
use std::alloc::AllocError;

/// What a step of a division leaves, and a bit of the quotient.
#[derive(Drop)]
struct Taken {
    rest: Wire,
    fits: Edge,
}

/// A step of a division: the rest and the next bit of the dividend, less the divisor where that fits.
/// At most 13 gates a bit.
fn take_divisor(
    net: &mut Net,
    rest: &[Edge],
    next: Edge,
    divisor: &[Edge],
) -> Result<Taken, AllocError>
    requires some { 0 < length rest.now }
    requires widths { length rest.now ≡ length divisor.now }
    requires within { length rest.now ≤ 128 }
    requires room { length net.old + 13 * length rest.now ≤ MOST_NODES }
    requires rest { AreBelow (length net.old) rest.now }
    requires next { next.node < length net.old }
    requires divisor { AreBelow (length net.old) divisor.now }
    ensures { IfOk result (λ made. MakesStep net.old net.new rest.now next divisor.now made.rest.items made.fits) }
{
    let shifted = shifted_in(rest, next);
    let less = difference(net, &shifted.word, divisor)?;
    let fits = either(net, shifted.out, less.carry)?;
    let rest = choose_word(net, fits, &less.word, &shifted.word)?;
    Ok(Taken { rest, fits })
}

/// A quotient and what is left.
#[derive(Drop)]
struct Division {
    quotient: Wire,
    rest: Wire,
}

/// A division of a word by another that isn't 0, from the highest bit down. At most 13 gates for each
/// pair of bits.
fn divide(net: &mut Net, dividend: &[Edge], divisor: &[Edge]) -> Result<Division, AllocError>
    requires some { 0 < length dividend.now }
    requires widths { length dividend.now ≡ length divisor.now }
    requires within { length dividend.now ≤ 128 }
    requires room { length net.old + 13 * (length dividend.now * length dividend.now) ≤ MOST_NODES }
    requires dividend { AreBelow (length net.old) dividend.now }
    requires divisor { AreBelow (length net.old) divisor.now }
    ensures { IfOk result (λ made. MakesDivision net.old net.new (13 * (length dividend.now * length dividend.now)) (length dividend.now) (λ a. number_of a dividend.now) divisor.now made.quotient.items made.rest.items) }
{
    let mut quotient = Wire::new();
    let mut rest = filled(falsity(net), divisor.len());
    for i in (0..dividend.len()).rev() {
        let taken = take_divisor(net, &rest, dividend[i], divisor)?;
        quotient.insert(0, taken.fits);
        rest = taken.rest;
    }
    Ok(Division { quotient, rest })
}

/// The quotient of unsigned words: at most 13 gates for each pair of bits, and 2 a bit.
pub fn divide_unsigned(net: &mut Net, left: &[Edge], right: &[Edge]) -> Result<Wire, AllocError>
    requires some { 0 < length left.now }
    requires widths { length left.now ≡ length right.now }
    requires within { length left.now ≤ 128 }
    requires room { length net.old + (13 * (length left.now * length left.now) + 2 * length left.now) ≤ MOST_NODES }
    requires left { AreBelow (length net.old) left.now }
    requires right { AreBelow (length net.old) right.now }
    ensures { IfOk result (λ made. MakesWord net.old net.new (13 * (length left.now * length left.now) + 2 * length left.now) (length left.now) (λ a. quotient false (length left.now) (number_of a left.now) (number_of a right.now)) made.items) }
{
    let division = divide(net, left, right)?;
    let proper = is_some_set(net, right)?;
    let made = masked(net, &division.quotient, proper)?;
    Ok(made)
}

/// The remainder of unsigned words: at most 13 gates for each pair of bits, and 2 a bit.
pub fn remainder_unsigned(net: &mut Net, left: &[Edge], right: &[Edge]) -> Result<Wire, AllocError>
    requires some { 0 < length left.now }
    requires widths { length left.now ≡ length right.now }
    requires within { length left.now ≤ 128 }
    requires room { length net.old + (13 * (length left.now * length left.now) + 2 * length left.now) ≤ MOST_NODES }
    requires left { AreBelow (length net.old) left.now }
    requires right { AreBelow (length net.old) right.now }
    ensures { IfOk result (λ made. MakesWord net.old net.new (13 * (length left.now * length left.now) + 2 * length left.now) (length left.now) (λ a. remainder false (length left.now) (number_of a left.now) (number_of a right.now)) made.items) }
{
    let division = divide(net, left, right)?;
    let proper = is_some_set(net, right)?;
    let made = masked(net, &division.rest, proper)?;
    Ok(made)
}

/// The size of a signed word: 12 gates a bit.
fn size_of_signed(net: &mut Net, word: &[Edge]) -> Result<Wire, AllocError>
    requires some { 0 < length word.now }
    requires within { length word.now ≤ 128 }
    requires room { length net.old + 12 * length word.now ≤ MOST_NODES }
    requires word { AreBelow (length net.old) word.now }
    ensures { IfOk result (λ made. MakesWord net.old net.new (12 * length word.now) (length word.now) (λ a. unsigned_abs (read_signed (2 ^ length word.now) (number_of a word.now))) made.items) }
{
    let negative = negate(net, word)?;
    let made = choose_word(net, word[word.len() - 1], &negative, word)?;
    Ok(made)
}

/// A word, or its negative where an edge is 1: 12 gates a bit.
fn negate_where(net: &mut Net, condition: Edge, word: &[Edge]) -> Result<Wire, AllocError>
    requires within { length word.now ≤ 128 }
    requires room { length net.old + 12 * length word.now ≤ MOST_NODES }
    requires condition { condition.node < length net.old }
    requires word { AreBelow (length net.old) word.now }
    ensures { IfOk result (λ made. MakesWord net.old net.new (12 * length word.now) (length word.now) (λ a. if edge_value a condition then value1 Neg (length word.now) (number_of a word.now) else number_of a word.now) made.items) }
{
    let negative = negate(net, word)?;
    let made = choose_word(net, condition, &negative, word)?;
    Ok(made)
}

/// The quotient of signed words, cut towards zero: that of their sizes, with the sign that it has. At
/// most 13 gates for each pair of bits, and 41 a bit.
pub fn divide_signed(net: &mut Net, left: &[Edge], right: &[Edge]) -> Result<Wire, AllocError>
    requires some { 0 < length left.now }
    requires widths { length left.now ≡ length right.now }
    requires within { length left.now ≤ 128 }
    requires room { length net.old + (13 * (length left.now * length left.now) + 41 * length left.now) ≤ MOST_NODES }
    requires left { AreBelow (length net.old) left.now }
    requires right { AreBelow (length net.old) right.now }
    ensures { IfOk result (λ made. MakesWord net.old net.new (13 * (length left.now * length left.now) + 41 * length left.now) (length left.now) (λ a. quotient true (length left.now) (number_of a left.now) (number_of a right.now)) made.items) }
{
    let first = size_of_signed(net, left)?;
    let second = size_of_signed(net, right)?;
    let size = divide_unsigned(net, &first, &second)?;
    let apart = exclusive(net, left[left.len() - 1], right[right.len() - 1])?;
    let made = negate_where(net, apart, &size)?;
    Ok(made)
}

/// The remainder of signed words, with the sign of the first: that of their sizes. At most 13 gates for
/// each pair of bits, and 38 a bit.
pub fn remainder_signed(net: &mut Net, left: &[Edge], right: &[Edge]) -> Result<Wire, AllocError>
    requires some { 0 < length left.now }
    requires widths { length left.now ≡ length right.now }
    requires within { length left.now ≤ 128 }
    requires room { length net.old + (13 * (length left.now * length left.now) + 38 * length left.now) ≤ MOST_NODES }
    requires left { AreBelow (length net.old) left.now }
    requires right { AreBelow (length net.old) right.now }
    ensures { IfOk result (λ made. MakesWord net.old net.new (13 * (length left.now * length left.now) + 38 * length left.now) (length left.now) (λ a. remainder true (length left.now) (number_of a left.now) (number_of a right.now)) made.items) }
{
    let first = size_of_signed(net, left)?;
    let second = size_of_signed(net, right)?;
    let size = remainder_unsigned(net, &first, &second)?;
    let made = negate_where(net, left[left.len() - 1], &size)?;
    Ok(made)
}
