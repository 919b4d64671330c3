//! Reductions of a word to one bit, and equality.

ghost use Rattle.std.specs.Prelude.{◌≡◌, ◌+◌, ◌-◌, ◌*◌, ◌%◌, ◌^◌, ◌<◌, ◌≤◌, length, IfOk, nat_eq, nat_lt, count_ones};
ghost use Rattle.bitblast.specs.Circuit.{AreBelow, MakesEdge, number_of};
ghost use Rattle.gate_net.specs.Net.{MOST_NODES};

use crate::bitwise::inverted;
use crate::gates::{both, either, exclusive, opposite};
use crate::shapes::falsity;
use gate_net::{Edge, Net};
use std::alloc::AllocError;

/// Whether some bit is 1: 1 gate a bit.
pub fn is_some_set(net: &mut Net, word: &[Edge]) -> Result<Edge, AllocError>
    requires room { length net.old + length word.now ≤ MOST_NODES }
    requires word { AreBelow (length net.old) word.now }
    ensures { IfOk result (MakesEdge net.old net.new (length word.now) (λ a. nat_lt 0 (number_of a word.now))) }
{
    let mut some = falsity(net);
    for &e in word {
        some = either(net, some, e)?;
    }
    Ok(some)
}

/// Whether all bits are 1: 1 gate a bit.
pub fn are_all_set(net: &mut Net, word: &[Edge]) -> Result<Edge, AllocError>
    requires within { length word.now ≤ 128 }
    requires room { length net.old + length word.now ≤ MOST_NODES }
    requires word { AreBelow (length net.old) word.now }
    ensures { IfOk result (MakesEdge net.old net.new (length word.now) (λ a. nat_eq (number_of a word.now) (2 ^ length word.now - 1))) }
{
    let turned = inverted(word);
    let some = is_some_set(net, &turned)?;
    Ok(opposite(some))
}

/// Whether the number of bits that are 1 is odd: 3 gates a bit.
pub fn is_odd(net: &mut Net, word: &[Edge]) -> Result<Edge, AllocError>
    requires room { length net.old + 3 * length word.now ≤ MOST_NODES }
    requires word { AreBelow (length net.old) word.now }
    ensures { IfOk result (MakesEdge net.old net.new (3 * length word.now) (λ a. nat_eq (count_ones (number_of a word.now) % 2) 1)) }
{
    let mut odd = falsity(net);
    for &e in word {
        odd = exclusive(net, odd, e)?;
    }
    Ok(odd)
}

/// Whether two words are equal: 4 gates a bit.
pub fn are_equal(net: &mut Net, left: &[Edge], right: &[Edge]) -> Result<Edge, AllocError>
    requires widths { length left.now ≡ length right.now }
    requires room { length net.old + 4 * length left.now ≤ MOST_NODES }
    requires left { AreBelow (length net.old) left.now }
    requires right { AreBelow (length net.old) right.now }
    ensures { IfOk result (MakesEdge net.old net.new (4 * length left.now) (λ a. nat_eq (number_of a left.now) (number_of a right.now))) }
{
    let mut equal = net.truth();
    for (i, &p) in left.iter().enumerate() {
        let apart = exclusive(net, p, right[i])?;
        equal = both(net, equal, opposite(apart))?;
    }
    Ok(equal)
}
