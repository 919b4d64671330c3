//! Operations on words that work bit by bit.

ghost use Rattle.std.specs.Prelude.{◌≡◌, ◌+◌, ◌*◌, ◌<◌, ◌≤◌, ℕ, Bool, length, IfOk, if◌then◌else◌};
ghost use Rattle.bits_core.specs.Word.{bit};
ghost use Rattle.bits_core.specs.Ops.{value1};
ghost use Rattle.bits_core.specs.declared.op.Op1.TheVariants.{Not};
ghost use Rattle.gate_net.specs.Edge.{edge_value};
ghost use Rattle.bitblast.specs.Circuit.{AreBelow, MakesEdge, MakesWord, number_of};
ghost use Rattle.bitblast.specs.Bitwise.{bit_gates, bit_result, word_result};
ghost use Rattle.gate_net.specs.Net.{MOST_NODES};

use crate::gates::{both, choose, either, exclusive, opposite};
use arrayvec::ArrayVec;
use gate_net::{Edge, Net};
use std::alloc::AllocError;

/// The edges of a word, the lowest bit first.
pub type Wire = ArrayVec<Edge, 128>;

/// An operation bit by bit.
#[derive(Clone, Copy)]
pub enum Bitwise {
    And,
    Or,
    Xor,
}

fn gate(net: &mut Net, op: Bitwise, p: Edge, q: Edge) -> Result<Edge, AllocError>
    requires room { length net.old + bit_gates op ≤ MOST_NODES }
    requires left { p.node < length net.old }
    requires right { q.node < length net.old }
    ensures { IfOk result (MakesEdge net.old net.new (bit_gates op) (λ a. bit_result op (edge_value a p) (edge_value a q))) }
{
    match op {
        Bitwise::And => both(net, p, q),
        Bitwise::Or => either(net, p, q),
        Bitwise::Xor => exclusive(net, p, q),
    }
}

/// An operation on the bits of two words: 1 gate a bit for `And` and `Or`, 3 for `Xor`.
pub fn bit_by_bit(
    net: &mut Net,
    op: Bitwise,
    left: &[Edge],
    right: &[Edge],
) -> Result<Wire, AllocError>
    requires widths { length left.now ≡ length right.now }
    requires within { length left.now ≤ 128 }
    requires room { length net.old + bit_gates op * length left.now ≤ MOST_NODES }
    requires left { AreBelow (length net.old) left.now }
    requires right { AreBelow (length net.old) right.now }
    ensures { IfOk result (λ made. MakesWord net.old net.new (bit_gates op * length left.now) (length left.now) (λ a. word_result op (number_of a left.now) (number_of a right.now)) made.items) }
{
    let mut made = Wire::new();
    for (i, &p) in left.iter().enumerate() {
        let e = gate(net, op, p, right[i])?;
        made.push(e);
    }
    Ok(made)
}

/// A word where an edge is 1, and else 0: 1 gate a bit.
pub fn masked(net: &mut Net, word: &[Edge], condition: Edge) -> Result<Wire, AllocError>
    requires within { length word.now ≤ 128 }
    requires room { length net.old + length word.now ≤ MOST_NODES }
    requires word { AreBelow (length net.old) word.now }
    requires condition { condition.node < length net.old }
    ensures { IfOk result (λ made. MakesWord net.old net.new (length word.now) (length word.now) (λ a. bit (edge_value a condition) * number_of a word.now) made.items) }
{
    let mut made = Wire::new();
    for &p in word {
        let e = both(net, p, condition)?;
        made.push(e);
    }
    Ok(made)
}

/// The second word where an edge is 1, and else the third: 3 gates a bit.
pub fn choose_word(
    net: &mut Net,
    condition: Edge,
    left: &[Edge],
    right: &[Edge],
) -> Result<Wire, AllocError>
    requires widths { length left.now ≡ length right.now }
    requires within { length left.now ≤ 128 }
    requires room { length net.old + 3 * length left.now ≤ MOST_NODES }
    requires condition { condition.node < length net.old }
    requires left { AreBelow (length net.old) left.now }
    requires right { AreBelow (length net.old) right.now }
    ensures { IfOk result (λ made. MakesWord net.old net.new (3 * length left.now) (length left.now) (λ a. if edge_value a condition then number_of a left.now else number_of a right.now) made.items) }
{
    let mut made = Wire::new();
    for (i, &p) in left.iter().enumerate() {
        let e = choose(net, condition, p, right[i])?;
        made.push(e);
    }
    Ok(made)
}

/// Each bit of a word turned. It takes no gate.
pub fn inverted(word: &[Edge]) -> Wire
    requires { length word.now ≤ 128 }
    ensures bits { length result.items ≡ length word.now }
    ensures there { (nodes : ℕ) → AreBelow nodes word.now → AreBelow nodes result.items }
    ensures value { (a : ℕ → Bool) → number_of a result.items ≡ value1 Not (length word.now) (number_of a word.now) }
{
    let mut made = Wire::new();
    for &e in word {
        made.push(opposite(e));
    }
    made
}
