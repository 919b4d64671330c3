//! The operations of words as circuits, each within the gates that it is counted as.

ghost use Rattle.std.specs.Prelude.{◌≡◌, ◌+◌, ◌<◌, ◌≤◌, length, IfOk};
ghost use Rattle.bits_core.specs.Ops.{value1, value2, width1, width2};
ghost use Rattle.word_eqs.specs.Gates.{gates1, gates2};
ghost use Rattle.bitblast.specs.Circuit.{AreBelow, MakesWord, number_of};
ghost use Rattle.gate_net.specs.Net.{MOST_NODES};

use crate::bitwise::{Bitwise, Wire, bit_by_bit, inverted};
use crate::products::multiply;
use crate::quotients::{divide_signed, divide_unsigned, remainder_signed, remainder_unsigned};
use crate::reductions::{are_all_set, are_equal, is_odd, is_some_set};
use crate::shapes::single;
use crate::shifts::{Direction, shift, shift_right_signed};
use crate::sums::{add, is_less_signed, is_less_unsigned, negate, subtract};
use bits_core::{Op1, Op2};
use gate_net::{Edge, Net};
use std::alloc::AllocError;

/// An operation on one word.
pub fn operate1(net: &mut Net, op: Op1, word: &[Edge]) -> Result<Wire, AllocError>
    requires within { length word.now ≤ 128 }
    requires room { length net.old + gates1 op (length word.now) ≤ MOST_NODES }
    requires word { AreBelow (length net.old) word.now }
    ensures { IfOk result (λ made. MakesWord net.old net.new (gates1 op (length word.now)) (width1 op (length word.now)) (λ a. value1 op (length word.now) (number_of a word.now)) made.items) }
{
    match op {
        Op1::Not => Ok(inverted(word)),
        Op1::Neg => {
            let made = negate(net, word)?;
            Ok(made)
        }
        Op1::RedAnd => {
            let all = are_all_set(net, word)?;
            Ok(single(all))
        }
        Op1::RedOr => {
            let some = is_some_set(net, word)?;
            Ok(single(some))
        }
        Op1::RedXor => {
            let odd = is_odd(net, word)?;
            Ok(single(odd))
        }
    }
}

/// An operation on two words of one width.
pub fn operate2(net: &mut Net, op: Op2, left: &[Edge], right: &[Edge]) -> Result<Wire, AllocError>
    requires some { 0 < length left.now }
    requires widths { length left.now ≡ length right.now }
    requires within { length left.now ≤ 128 }
    requires room { length net.old + gates2 op (length left.now) ≤ MOST_NODES }
    requires left { AreBelow (length net.old) left.now }
    requires right { AreBelow (length net.old) right.now }
    ensures { IfOk result (λ made. MakesWord net.old net.new (gates2 op (length left.now)) (width2 op (length left.now)) (λ a. value2 op (length left.now) (number_of a left.now) (number_of a right.now)) made.items) }
{
    match op {
        Op2::And => bit_by_bit(net, Bitwise::And, left, right),
        Op2::Or => bit_by_bit(net, Bitwise::Or, left, right),
        Op2::Xor => bit_by_bit(net, Bitwise::Xor, left, right),
        Op2::Add => add(net, left, right),
        Op2::Sub => subtract(net, left, right),
        Op2::Mul => multiply(net, left, right),
        Op2::DivU => divide_unsigned(net, left, right),
        Op2::DivS => divide_signed(net, left, right),
        Op2::RemU => remainder_unsigned(net, left, right),
        Op2::RemS => remainder_signed(net, left, right),
        Op2::Shl => shift(net, Direction::Left, left, right),
        Op2::ShrU => {
            let made = shift(net, Direction::Right, left, right)?;
            Ok(made)
        }
        Op2::ShrS => shift_right_signed(net, left, right),
        Op2::Eq => {
            let e = are_equal(net, left, right)?;
            Ok(single(e))
        }
        Op2::LtU => {
            let e = is_less_unsigned(net, left, right)?;
            Ok(single(e))
        }
        Op2::LtS => {
            let e = is_less_signed(net, left, right)?;
            Ok(single(e))
        }
    }
}
