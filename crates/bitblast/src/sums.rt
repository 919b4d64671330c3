//! Sums, differences and comparisons, by a ripple of full adders.

ghost use Rattle.std.specs.Prelude.{◌≡◌, ◌+◌, ◌-◌, ◌*◌, ◌^◌, ◌<◌, ◌≤◌, length, IfOk, true, false};
ghost use Rattle.gate_net.specs.Edge.{edge_value};
ghost use Rattle.bits_core.specs.Word.{bit};
ghost use Rattle.bits_core.specs.Ops.{less, value1, value2};
ghost use Rattle.bits_core.specs.declared.op.Op1.TheVariants.{Neg};
ghost use Rattle.bits_core.specs.declared.op.Op2.TheVariants.{Add, Sub};
ghost use Rattle.bitblast.specs.Circuit.{AreBelow, MakesEdge, MakesSum, MakesWord, number_of};
ghost use Rattle.gate_net.specs.Net.{MOST_NODES};

use crate::bitwise::{Wire, inverted};
use crate::gates::{full_adder, opposite};
use crate::shapes::{falsity, filled, with_top};
use gate_net::{Edge, Net};
use std::alloc::AllocError;

/// The bits of a sum, and the carry out of its highest bit.
#[derive(Drop)]
pub struct Sum {
    pub word: Wire,
    pub carry: Edge,
}

/// The sum of two words and a carry: 9 gates a bit.
pub fn add_with_carry(
    net: &mut Net,
    left: &[Edge],
    right: &[Edge],
    carry_in: Edge,
) -> Result<Sum, AllocError>
    requires widths { length left.now ≡ length right.now }
    requires within { length left.now ≤ 128 }
    requires room { length net.old + 9 * length left.now ≤ MOST_NODES }
    requires left { AreBelow (length net.old) left.now }
    requires right { AreBelow (length net.old) right.now }
    requires carry { carry_in.node < length net.old }
    ensures { IfOk result (λ made. MakesSum net.old net.new (9 * length left.now) (length left.now) (λ a. number_of a left.now + number_of a right.now + bit (edge_value a carry_in)) made.word.items made.carry) }
{
    let mut word = Wire::new();
    let mut carry = carry_in;
    for (i, &p) in left.iter().enumerate() {
        let bits = full_adder(net, p, right[i], carry)?;
        word.push(bits.sum);
        carry = bits.carry;
    }
    Ok(Sum { word, carry })
}

/// The sum of two words, modulo 2^width: 9 gates a bit.
pub fn add(net: &mut Net, left: &[Edge], right: &[Edge]) -> Result<Wire, AllocError>
    requires widths { length left.now ≡ length right.now }
    requires within { length left.now ≤ 128 }
    requires room { length net.old + 9 * length left.now ≤ MOST_NODES }
    requires left { AreBelow (length net.old) left.now }
    requires right { AreBelow (length net.old) right.now }
    ensures { IfOk result (λ made. MakesWord net.old net.new (9 * length left.now) (length left.now) (λ a. value2 Add (length left.now) (number_of a left.now) (number_of a right.now)) made.items) }
{
    let zero = falsity(net);
    let made = add_with_carry(net, left, right, zero)?;
    Ok(made.word)
}

/// The difference of two words and its carry, which is 1 where it isn't below 0: 9 gates a bit.
pub fn difference(net: &mut Net, left: &[Edge], right: &[Edge]) -> Result<Sum, AllocError>
    requires widths { length left.now ≡ length right.now }
    requires within { length left.now ≤ 128 }
    requires room { length net.old + 9 * length left.now ≤ MOST_NODES }
    requires left { AreBelow (length net.old) left.now }
    requires right { AreBelow (length net.old) right.now }
    ensures { IfOk result (λ made. MakesSum net.old net.new (9 * length left.now) (length left.now) (λ a. number_of a left.now + (2 ^ length left.now - number_of a right.now)) made.word.items made.carry) }
{
    let one = net.truth();
    let turned = inverted(right);
    let made = add_with_carry(net, left, &turned, one)?;
    Ok(made)
}

/// The difference of two words, modulo 2^width: 9 gates a bit.
pub fn subtract(net: &mut Net, left: &[Edge], right: &[Edge]) -> Result<Wire, AllocError>
    requires widths { length left.now ≡ length right.now }
    requires within { length left.now ≤ 128 }
    requires room { length net.old + 9 * length left.now ≤ MOST_NODES }
    requires left { AreBelow (length net.old) left.now }
    requires right { AreBelow (length net.old) right.now }
    ensures { IfOk result (λ made. MakesWord net.old net.new (9 * length left.now) (length left.now) (λ a. value2 Sub (length left.now) (number_of a left.now) (number_of a right.now)) made.items) }
{
    let made = difference(net, left, right)?;
    Ok(made.word)
}

/// The negative of a word, modulo 2^width: 9 gates a bit.
pub fn negate(net: &mut Net, word: &[Edge]) -> Result<Wire, AllocError>
    requires within { length word.now ≤ 128 }
    requires room { length net.old + 9 * length word.now ≤ MOST_NODES }
    requires word { AreBelow (length net.old) word.now }
    ensures { IfOk result (λ made. MakesWord net.old net.new (9 * length word.now) (length word.now) (λ a. value1 Neg (length word.now) (number_of a word.now)) made.items) }
{
    let zeros = filled(falsity(net), word.len());
    let made = subtract(net, &zeros, word)?;
    Ok(made)
}

/// Whether a word is less than another as an unsigned number: 9 gates a bit.
pub fn is_less_unsigned(net: &mut Net, left: &[Edge], right: &[Edge]) -> Result<Edge, AllocError>
    requires widths { length left.now ≡ length right.now }
    requires within { length left.now ≤ 128 }
    requires room { length net.old + 9 * length left.now ≤ MOST_NODES }
    requires left { AreBelow (length net.old) left.now }
    requires right { AreBelow (length net.old) right.now }
    ensures { IfOk result (MakesEdge net.old net.new (9 * length left.now) (λ a. less false (length left.now) (number_of a left.now) (number_of a right.now))) }
{
    let made = difference(net, left, right)?;
    Ok(opposite(made.carry))
}

/// Whether a word is less than another as a signed number: 9 gates a bit.
/// With their highest bits exchanged the words have the same order as unsigned numbers.
pub fn is_less_signed(net: &mut Net, left: &[Edge], right: &[Edge]) -> Result<Edge, AllocError>
    requires some { 0 < length left.now }
    requires widths { length left.now ≡ length right.now }
    requires within { length left.now ≤ 128 }
    requires room { length net.old + 9 * length left.now ≤ MOST_NODES }
    requires left { AreBelow (length net.old) left.now }
    requires right { AreBelow (length net.old) right.now }
    ensures { IfOk result (MakesEdge net.old net.new (9 * length left.now) (λ a. less true (length left.now) (number_of a left.now) (number_of a right.now))) }
{
    let top = left.len() - 1;
    let first = with_top(left, right[top]);
    let second = with_top(right, left[top]);
    let e = is_less_unsigned(net, &first, &second)?;
    Ok(e)
}
