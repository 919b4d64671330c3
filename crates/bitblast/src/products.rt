//! Products, by shifting and adding.

ghost use Rattle.std.specs.Prelude.{◌≡◌, ◌+◌, ◌*◌, ◌%◌, ◌^◌, ◌<◌, ◌≤◌, length, IfOk};
ghost use Rattle.gate_net.specs.Edge.{edge_value};
ghost use Rattle.bits_core.specs.Word.{bit};
ghost use Rattle.bits_core.specs.Ops.{value2};
ghost use Rattle.bits_core.specs.declared.op.Op2.TheVariants.{Mul};
ghost use Rattle.bitblast.specs.Circuit.{AreBelow, MakesWord, number_of};
ghost use Rattle.gate_net.specs.Net.{MOST_NODES};

use crate::bitwise::{Wire, masked};
use crate::shapes::{falsity, with_low};
use crate::sums::add;
use gate_net::{Edge, Net};
use std::alloc::AllocError;

/// Twice a word, and one of a bit more where an edge is 1, modulo 2^width of that one: 10 gates a bit.
fn doubled_and_added(
    net: &mut Net,
    word: &[Edge],
    more: &[Edge],
    condition: Edge,
) -> Result<Wire, AllocError>
    requires widths { length more.now ≡ length word.now + 1 }
    requires within { length more.now ≤ 128 }
    requires room { length net.old + 10 * length more.now ≤ MOST_NODES }
    requires word { AreBelow (length net.old) word.now }
    requires more { AreBelow (length net.old) more.now }
    requires condition { condition.node < length net.old }
    ensures { IfOk result (λ made. MakesWord net.old net.new (10 * length more.now) (length more.now) (λ a. (2 * number_of a word.now + bit (edge_value a condition) * number_of a more.now) % 2 ^ length more.now) made.items) }
{
    let part = masked(net, more, condition)?;
    let twice = with_low(falsity(net), word);
    let made = add(net, &twice, &part)?;
    Ok(made)
}

/// The product of two words, modulo 2^width: at most 10 gates for each pair of bits.
/// It goes through the bits of the second from the highest down, each time with one bit more of the first, since of the
/// product with the highest k bits only k are left in the end.
pub fn multiply(net: &mut Net, left: &[Edge], right: &[Edge]) -> Result<Wire, AllocError>
    requires widths { length left.now ≡ length right.now }
    requires within { length left.now ≤ 128 }
    requires room { length net.old + 10 * (length left.now * length left.now) ≤ MOST_NODES }
    requires left { AreBelow (length net.old) left.now }
    requires right { AreBelow (length net.old) right.now }
    ensures { IfOk result (λ made. MakesWord net.old net.new (10 * (length left.now * length left.now)) (length left.now) (λ a. value2 Mul (length left.now) (number_of a left.now) (number_of a right.now)) made.items) }
{
    let mut product = Wire::new();
    for i in (0..right.len()).rev() {
        let low = &left[..left.len() - i];
        product = doubled_and_added(net, &product, low, right[i])?;
    }
    Ok(product)
}
