//! Shifts by any amount, stage by stage: stage k shifts by 2^k bits where bit k of the amount is 1.

ghost use Rattle.std.specs.Prelude.{◌≡◌, ◌+◌, ◌-◌, ◌*◌, ◌/◌, ◌^◌, ◌<◌, ◌≤◌, ◌++◌, ℕ, Bool, false, length, take, drop, replicate, IfOk};
ghost use Rattle.gate_net.specs.Edge.{edge_value};
ghost use Rattle.bits_core.specs.Ops.{value2};
ghost use Rattle.bits_core.specs.declared.op.Op2.TheVariants.{ShrS};
ghost use Rattle.bitblast.specs.Circuit.{AreBelow, MakesWord, number_of};
ghost use Rattle.bitblast.specs.Shifts.{shifted};
ghost use Rattle.gate_net.specs.Net.{MOST_NODES};

use crate::bitwise::{Wire, choose_word, inverted, masked};
use crate::gates::opposite;
use crate::reductions::is_some_set;
use crate::shapes::{append, falsity, filled};
use gate_net::{Edge, Net};
use std::alloc::AllocError;

/// Where the bits of a word go.
#[derive(Clone, Copy)]
pub enum Direction {
    Left,
    Right,
}

/// A word shifted by a fixed amount of at most its width, with an edge put in.
fn moved(word: &[Edge], direction: Direction, amount: usize, fill: Edge) -> Wire
    requires amount { amount ≤ length word.now }
    requires within { length word.now ≤ 128 }
    ensures bits { length result.items ≡ length word.now }
    ensures there { (nodes : ℕ) → AreBelow nodes word.now → fill.node < nodes → AreBelow nodes result.items }
    ensures value { (a : ℕ → Bool) → edge_value a fill ≡ false → number_of a result.items ≡ shifted direction (length word.now) (number_of a word.now) amount }
{
    match direction {
        Direction::Left => moved_left(word, amount, fill),
        Direction::Right => moved_right(word, amount, fill),
    }
}

fn moved_left(word: &[Edge], amount: usize, fill: Edge) -> Wire
    requires amount { amount ≤ length word.now }
    requires within { length word.now ≤ 128 }
    ensures { result.items ≡ replicate amount fill ++ take (length word.now - amount) word.now }
{
    let mut made = filled(fill, amount);
    append(&mut made, &word[..word.len() - amount]);
    made
}

fn moved_right(word: &[Edge], amount: usize, fill: Edge) -> Wire
    requires amount { amount ≤ length word.now }
    requires within { length word.now ≤ 128 }
    ensures { result.items ≡ drop amount word.now ++ replicate amount fill }
{
    let mut made = Wire::new();
    append(&mut made, &word[amount..]);
    let rest = filled(fill, amount);
    append(&mut made, &rest);
    made
}

/// The least number of stages with which a word can be shifted out whole.
fn stages(width: usize) -> usize
    requires { width ≤ 128 }
    ensures enough { width ≤ 2 ^ result }
    ensures few { result ≤ 7 }
    ensures within { result ≤ width }
{
    match width {
        0..=1 => 0,
        2 => 1,
        3..=4 => 2,
        5..=8 => 3,
        9..=16 => 4,
        17..=32 => 5,
        33..=64 => 6,
        _ => 7,
    }
}

/// A word shifted by the low bits of an amount: 3 gates a bit and stage.
fn shift_in_stages(
    net: &mut Net,
    direction: Direction,
    word: &[Edge],
    amount: &[Edge],
) -> Result<Wire, AllocError>
    requires few { length amount.now ≤ 7 }
    requires within { length word.now ≤ 128 }
    requires room { length net.old + 3 * (length word.now * length amount.now) ≤ MOST_NODES }
    requires word { AreBelow (length net.old) word.now }
    requires amount { AreBelow (length net.old) amount.now }
    ensures { IfOk result (λ made. MakesWord net.old net.new (3 * (length word.now * length amount.now)) (length word.now) (λ a. shifted direction (length word.now) (number_of a word.now) (number_of a amount.now)) made.items) }
{
    let zero = falsity(net);
    let mut made = Wire::new();
    append(&mut made, word);
    for (k, &bit) in amount.iter().enumerate() {
        let far = moved(&made, direction, (1usize << k).min(word.len()), zero);
        made = choose_word(net, bit, &far, &made)?;
    }
    Ok(made)
}

/// A word shifted by another of its width, with zeros put in: at most 23 gates a bit.
pub fn shift(
    net: &mut Net,
    direction: Direction,
    word: &[Edge],
    amount: &[Edge],
) -> Result<Wire, AllocError>
    requires widths { length word.now ≡ length amount.now }
    requires within { length word.now ≤ 128 }
    requires room { length net.old + 23 * length word.now ≤ MOST_NODES }
    requires word { AreBelow (length net.old) word.now }
    requires amount { AreBelow (length net.old) amount.now }
    ensures { IfOk result (λ made. MakesWord net.old net.new (23 * length word.now) (length word.now) (λ a. shifted direction (length word.now) (number_of a word.now) (number_of a amount.now)) made.items) }
{
    let stages = stages(word.len());
    let near = shift_in_stages(net, direction, word, &amount[..stages])?;
    let is_far = is_some_set(net, &amount[stages..])?;
    let made = masked(net, &near, opposite(is_far))?;
    Ok(made)
}

/// A word shifted to the right by another of its width, with its sign put in: at most 29 gates a bit.
/// A negative word is turned before and after.
pub fn shift_right_signed(net: &mut Net, word: &[Edge], amount: &[Edge]) -> Result<Wire, AllocError>
    requires some { 0 < length word.now }
    requires widths { length word.now ≡ length amount.now }
    requires within { length word.now ≤ 128 }
    requires room { length net.old + 29 * length word.now ≤ MOST_NODES }
    requires word { AreBelow (length net.old) word.now }
    requires amount { AreBelow (length net.old) amount.now }
    ensures { IfOk result (λ made. MakesWord net.old net.new (29 * length word.now) (length word.now) (λ a. value2 ShrS (length word.now) (number_of a word.now) (number_of a amount.now)) made.items) }
{
    let sign = word[word.len() - 1];
    let turned = inverted(word);
    let plain = choose_word(net, sign, &turned, word)?;
    let moved = shift(net, Direction::Right, &plain, amount)?;
    let back = inverted(&moved);
    let made = choose_word(net, sign, &back, &moved)?;
    Ok(made)
}
