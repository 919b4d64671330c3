//! Gates with one output.

ghost use Rattle.std.specs.Prelude.{◌≡◌, ◌+◌, ◌<◌, ◌≤◌, ◌&&◌, ◌||◌, not, if◌then◌else◌, ℕ, Bool, length, IfOk};
ghost use Rattle.gate_net.specs.Edge.{edge_value};
ghost use Rattle.bitblast.specs.Circuit.{MakesEdge, AddsBits, differ};
ghost use Rattle.gate_net.specs.Net.{MOST_NODES};

use gate_net::{Edge, Net};
use std::alloc::AllocError;

/// The edge of the opposite value.
pub fn opposite(e: Edge) -> Edge
    ensures node { result.node ≡ e.node }
    ensures value { (a : ℕ → Bool) → edge_value a result ≡ not (edge_value a e) }
{
    !e
}

/// Both of two edges.
pub fn both(net: &mut Net, p: Edge, q: Edge) -> Result<Edge, AllocError>
    requires room { length net.old < MOST_NODES }
    requires left { p.node < length net.old }
    requires right { q.node < length net.old }
    ensures { IfOk result (MakesEdge net.old net.new 1 (λ a. edge_value a p && edge_value a q)) }
{
    let e = net.and(p, q)?;
    Ok(e)
}

/// At least one of two edges.
pub fn either(net: &mut Net, p: Edge, q: Edge) -> Result<Edge, AllocError>
    requires room { length net.old < MOST_NODES }
    requires left { p.node < length net.old }
    requires right { q.node < length net.old }
    ensures { IfOk result (MakesEdge net.old net.new 1 (λ a. edge_value a p || edge_value a q)) }
{
    let neither = both(net, opposite(p), opposite(q))?;
    Ok(opposite(neither))
}

/// Exactly one of two edges. Its first gate is that of both, which a sum shares with its carry.
pub fn exclusive(net: &mut Net, p: Edge, q: Edge) -> Result<Edge, AllocError>
    requires room { length net.old + 3 ≤ MOST_NODES }
    requires left { p.node < length net.old }
    requires right { q.node < length net.old }
    ensures { IfOk result (MakesEdge net.old net.new 3 (λ a. differ (edge_value a p) (edge_value a q))) }
{
    let two = both(net, p, q)?;
    let neither = both(net, opposite(p), opposite(q))?;
    let e = both(net, opposite(two), opposite(neither))?;
    Ok(e)
}

/// The second edge where the first is 1, and else the third.
pub fn choose(net: &mut Net, condition: Edge, p: Edge, q: Edge) -> Result<Edge, AllocError>
    requires room { length net.old + 3 ≤ MOST_NODES }
    requires condition { condition.node < length net.old }
    requires left { p.node < length net.old }
    requires right { q.node < length net.old }
    ensures { IfOk result (MakesEdge net.old net.new 3 (λ a. if edge_value a condition then edge_value a p else edge_value a q)) }
{
    let first = both(net, condition, p)?;
    let second = both(net, opposite(condition), q)?;
    let e = either(net, first, second)?;
    Ok(e)
}

/// The two bits of a sum of three.
#[derive(Clone, Copy)]
pub struct SumBits {
    pub sum: Edge,
    pub carry: Edge,
}

/// A full adder: the sum of three bits.
pub fn full_adder(net: &mut Net, p: Edge, q: Edge, r: Edge) -> Result<SumBits, AllocError>
    requires room { length net.old + 9 ≤ MOST_NODES }
    requires left { p.node < length net.old }
    requires right { q.node < length net.old }
    requires carry { r.node < length net.old }
    ensures { IfOk result (λ s. AddsBits net.old net.new p q r s.sum s.carry) }
{
    let half = exclusive(net, p, q)?;
    let sum = exclusive(net, half, r)?;
    let made = both(net, p, q)?;
    let passed = both(net, half, r)?;
    let carry = either(net, made, passed)?;
    Ok(SumBits { sum, carry })
}
