//! Words made of the edges of others, without a gate.

ghost use Rattle.std.specs.Prelude.{◌≡◌, ◌+◌, ◌-◌, ◌*◌, ◌/◌, ◌%◌, ◌^◌, ◌<◌, ◌≤◌, ◌++◌, ◌∷◌, [], ℕ, Bool, false, length, take, replicate};
ghost use Rattle.gate_net.specs.Edge.{edge_value};
ghost use Rattle.gate_net.specs.Net.{IsValuation};
ghost use Rattle.bits_core.specs.Word.{bit, resized};
ghost use Rattle.bitblast.specs.Circuit.{AreBelow, number_of};

use crate::bitwise::Wire;
use crate::gates::opposite;
use bits_core::Word;
use gate_net::{Edge, Net};

/// The constant 0.
pub fn falsity(net: &Net) -> Edge
    ensures there { result.node < length net.now }
    ensures value { (a : ℕ → Bool) → IsValuation net.now a → edge_value a result ≡ false }
{
    opposite(net.truth())
}

/// A word with more edges on its left.
pub fn append(word: &mut Wire, left: &[Edge])
    requires { length word.old.items + length left.now ≤ 128 }
    ensures { word.new.items ≡ word.old.items ++ left.now }
{
    for &e in left {
        word.push(e);
    }
}

/// A word of copies of one edge.
pub fn filled(e: Edge, width: usize) -> Wire
    requires { width ≤ 128 }
    ensures { result.items ≡ replicate width e }
{
    let mut made = Wire::new();
    for _ in 0..width {
        made.push(e);
    }
    made
}

/// A word whose highest edge is replaced.
pub fn with_top(word: &[Edge], top: Edge) -> Wire
    requires some { 0 < length word.now }
    requires within { length word.now ≤ 128 }
    ensures { result.items ≡ take (length word.now - 1) word.now ++ top ∷ [] }
{
    let mut made = Wire::new();
    append(&mut made, &word[..word.len() - 1]);
    made.push(top);
    made
}

/// A word with one edge more on its right.
pub fn with_low(low: Edge, word: &[Edge]) -> Wire
    requires { length word.now < 128 }
    ensures { result.items ≡ low ∷ word.now }
{
    let mut made = Wire::new();
    made.push(low);
    append(&mut made, word);
    made
}

/// A word shifted to the left by one bit.
#[derive(Drop)]
pub struct Shifted {
    /// The word, without the bit that was the highest.
    pub word: Wire,
    /// That bit.
    pub out: Edge,
}

/// A word shifted to the left by one bit, with an edge put in on the right.
pub fn shifted_in(word: &[Edge], low: Edge) -> Shifted
    requires { length word.now ≤ 128 }
    ensures bits { length result.word.items ≡ length word.now }
    ensures there { (nodes : ℕ) → AreBelow nodes word.now → low.node < nodes → AreBelow nodes result.word.items }
    ensures out_there { (nodes : ℕ) → AreBelow nodes word.now → low.node < nodes → result.out.node < nodes }
    ensures value { (a : ℕ → Bool) → number_of a result.word.items + 2 ^ length word.now * bit (edge_value a result.out) ≡ 2 * number_of a word.now + bit (edge_value a low) }
{
    let mut made = Wire::new();
    let mut out = low;
    for &e in word {
        made.push(out);
        out = e;
    }
    Shifted { word: made, out }
}

/// The constant edge of a bit.
fn constant_edge(net: &Net, set: bool) -> Edge
    ensures there { result.node < length net.now }
    ensures value { (a : ℕ → Bool) → IsValuation net.now a → edge_value a result ≡ set }
{
    if set { net.truth() } else { falsity(net) }
}

/// The constant edges of a word.
pub fn constant(net: &Net, word: Word) -> Wire
    ensures bits { length result.items ≡ word.width }
    ensures there { AreBelow (length net.now) result.items }
    ensures value { (a : ℕ → Bool) → IsValuation net.now a → number_of a result.items ≡ word.value }
{
    let mut made = Wire::new();
    let mut rest = word.value();
    for _ in 0..word.width() {
        made.push(constant_edge(net, rest % 2 == 1));
        rest /= 2;
    }
    made
}

/// The low bits of a word.
fn cut(word: &[Edge], to: usize) -> Wire
    requires to { to ≤ length word.now }
    requires within { length word.now ≤ 128 }
    ensures { result.items ≡ take to word.now }
{
    let mut made = Wire::new();
    append(&mut made, &word[..to]);
    made
}

/// A word with copies of an edge on its left.
fn extended(word: &[Edge], to: usize, fill: Edge) -> Wire
    requires from { length word.now ≤ to }
    requires to { to ≤ 128 }
    ensures { result.items ≡ word.now ++ replicate (to - length word.now) fill }
{
    let mut made = Wire::new();
    append(&mut made, word);
    let rest = filled(fill, to - word.len());
    append(&mut made, &rest);
    made
}

/// A word at another width: extended by its sign or by zeros, or cut.
pub fn resize(net: &Net, word: &[Edge], to: usize, signed: bool) -> Wire
    requires some { 0 < length word.now }
    requires within { length word.now ≤ 128 }
    requires to { to ≤ 128 }
    requires word { AreBelow (length net.now) word.now }
    ensures bits { length result.items ≡ to }
    ensures there { AreBelow (length net.now) result.items }
    ensures value { (a : ℕ → Bool) → IsValuation net.now a → number_of a result.items ≡ resized to signed (length word.now) (number_of a word.now) }
{
    if to <= word.len() {
        return cut(word, to);
    }
    if signed {
        return extended(word, to, word[word.len() - 1]);
    }
    extended(word, to, falsity(net))
}

/// The edges from the high to the low, both counted from 0.
pub fn slice(word: &[Edge], high: usize, low: usize) -> Wire
    requires order { low ≤ high }
    requires high { high < length word.now }
    requires within { length word.now ≤ 128 }
    ensures bits { length result.items ≡ high - low + 1 }
    ensures there { (nodes : ℕ) → AreBelow nodes word.now → AreBelow nodes result.items }
    ensures value { (a : ℕ → Bool) → number_of a result.items ≡ number_of a word.now / 2 ^ low % 2 ^ (high - low + 1) }
{
    let mut made = Wire::new();
    append(&mut made, &word[low..high + 1]);
    made
}

/// A word on the left of another.
pub fn join(left: &[Edge], right: &[Edge]) -> Wire
    requires { length left.now + length right.now ≤ 128 }
    ensures bits { length result.items ≡ length left.now + length right.now }
    ensures there { (nodes : ℕ) → AreBelow nodes left.now → AreBelow nodes right.now → AreBelow nodes result.items }
    ensures value { (a : ℕ → Bool) → number_of a result.items ≡ number_of a left.now * 2 ^ length right.now + number_of a right.now }
{
    let mut made = Wire::new();
    append(&mut made, right);
    append(&mut made, left);
    made
}

/// A word of one edge.
pub fn single(e: Edge) -> Wire
    ensures { result.items ≡ e ∷ [] }
{
    let mut made = Wire::new();
    made.push(e);
    made
}
