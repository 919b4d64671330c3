//! An and-inverter graph: node 0 is the constant 1, and each other node is an input or the
//! conjunction of two edges from earlier nodes. An edge may negate.

ghost use Rattle.std.specs.Prelude.{◌≡◌, ◌≢◌, ◌<◌, ◌≤◌, ◌+◌, ◌^◌, [], ◌∷◌, ◌++◌, length, slice_get, IfOk, OnOk, OnErr, Some, IfSome, IfNone, ◌&&◌, ℕ, Bool, true, false};
ghost use Rattle.gate_net.specs.Edge.{edge_value, opposite_edge};
ghost use Rattle.gate_net.specs.Net.{MOST_NODES};

use indexmap::IndexMap;
use std::alloc::{AllocError, Global};
use std::marker::Model;
use std::ops::Not;

/// A node of a net, or its negation.
#[derive(Clone, Copy, PartialEq, Eq, Hash, Debug, Default)]
pub struct Edge {
    /// The number of the node, from 0 upwards.
    pub node: u32,
    /// Whether the edge is 1 where the node is 0.
    pub negated: bool,
}

impl Not for Edge {
    type Output = Edge;

    ghost not_gives = { λ e r. r ≡ opposite_edge e };

    fn not(self) -> Edge {
        Edge {
            node: self.node,
            negated: !self.negated,
        }
    }
}

/// The two edges that a gate joins.
#[derive(Clone, Copy, PartialEq, Eq, Hash, Debug)]
pub struct Gate {
    pub left: Edge,
    pub right: Edge,
}

/// A node of a net: the constant 1, an input, or the conjunction of two edges.
#[derive(Clone, Copy, PartialEq, Eq, Debug)]
pub enum Node {
    /// The constant 1.
    One,
    Input,
    /// The conjunction of the gate's two edges.
    And(Gate),
}

/// A gate of the two edges, the same for both orders.
fn gate_of(a: Edge, b: Edge) -> Gate
    ensures value { (v : ℕ → Bool) → (edge_value v result.left && edge_value v result.right) ≡ (edge_value v a && edge_value v b) }
    ensures within { (n : ℕ) → a.node < n → b.node < n → (result.left.node < n) × (result.right.node < n) }
    ensures apart { a.node ≢ b.node → result.left.node ≢ result.right.node }
{
    if a.node < b.node {
        Gate { left: a, right: b }
    } else {
        Gate { left: b, right: a }
    }
}

/// Nodes in the order in which they were made.
#[derive(Drop)]
pub struct Net {
    nodes: Vec<Node>,
    /// Where a gate was put. It is a hint: what it finds is looked at before it is used.
    known: IndexMap<Gate, u32>,
}

impl Model for Net {
    ghost use Rattle.std.specs.Prelude.{List};
    ghost use Rattle.gate_net.specs.declared.net.Node.{Node};

    ghost Value = { List Node };

    ghost use Rattle.gate_net.specs.Net.{IsNet};

    ghost view = { λ n. n.nodes.items };

    ghost invariant = { λ n. IsNet n.nodes.items };
}

impl Net {
    ghost use Rattle.gate_net.specs.declared.net.Node.TheVariants.{One, Input, And};
    ghost use Rattle.gate_net.specs.Net.{IsValuation, IsConjunction, Extends, IsPlaced, IsNet, IsDetermined};

    /// A net with the constant 1 alone.
    pub fn new(alloc: Global) -> Result<Net, AllocError>
        ensures { IfOk result (λ net. net ≡ One ∷ []) }
    {
        let mut nodes = Vec::new(alloc);
        nodes.push(Node::One)?;
        Ok(Net {
            nodes,
            known: IndexMap::new(alloc),
        })
    }

    /// The edge that is always 1.
    pub fn truth(&self) -> Edge
        ensures edge { result ≡ record { node = 0; negated = false } }
        ensures value { (a : ℕ → Bool) → IsValuation self.now a → edge_value a result ≡ true }
        ensures within { result.node < length self.now }
    {
        // That a node is there is a fact of the fields.
        let _nodes = &self.nodes;
        Edge {
            node: 0,
            negated: false,
        }
    }

    /// How many nodes there are, the constant and the inputs counted.
    pub fn count(&self) -> u32
        ensures count { result ≡ length self.now }
        ensures few { result ≤ MOST_NODES }
    {
        self.nodes.len() as u32
    }

    /// The nodes, by number.
    pub fn nodes(&self) -> &[Node]
        ensures nodes { result.now ≡ self.now }
        ensures net { IsNet result.now }
    {
        &self.nodes
    }

    /// A new node whose value is free. Where memory is refused, the net is as before.
    pub fn input(&mut self) -> Result<Edge, AllocError>
        requires { length self.old < MOST_NODES }
        ensures added { OnOk result (self.new ≡ self.old ++ Input ∷ []) }
        ensures edge { IfOk result (λ e. e ≡ record { node = length self.old; negated = false }) }
        ensures unchanged { OnErr result (self.new ≡ self.old) }
    {
        let node = self.nodes.len() as u32;
        self.nodes.push(Node::Input)?;
        Ok(Edge {
            node,
            negated: false,
        })
    }

    /// An edge that is 1 exactly where both edges are. It adds a node at most, and none where a
    /// constant, equal or opposite edges or a gate that is there already will do. Where memory is
    /// refused, the net is as before.
    pub fn and(&mut self, a: Edge, b: Edge) -> Result<Edge, AllocError>
        requires room { length self.old < MOST_NODES }
        requires left { a.node < length self.old }
        requires right { b.node < length self.old }
        ensures extends { OnOk result (Extends self.old self.new) }
        ensures value { IfOk result (λ e. IsConjunction self.new e a b) }
        ensures within { IfOk result (λ e. e.node < length self.new) }
        ensures count { OnOk result (length self.new ≤ length self.old + 1) }
        ensures unchanged { OnErr result (self.new ≡ self.old) }
    {
        if let Some(edge) = self.folded(a, b) {
            return Ok(edge);
        }
        let gate = gate_of(a, b);
        if let Some(node) = self.find(gate) {
            return Ok(Edge {
                node,
                negated: false,
            });
        }
        self.put(gate)
    }

    /// The conjunction, where it needs no gate: one edge is constant, or both are of one node.
    fn folded(&self, a: Edge, b: Edge) -> Option<Edge>
        requires left { a.node < length self.now }
        requires right { b.node < length self.now }
        ensures value { IfSome result (λ e. IsConjunction self.now e a b) }
        ensures within { IfSome result (λ e. e.node < length self.now) }
        ensures apart { IfNone result (a.node ≢ b.node) }
    {
        let one = self.truth();
        if a.node == one.node {
            return Some(if a.negated { a } else { b });
        }
        if b.node == one.node {
            return Some(if b.negated { b } else { a });
        }
        if a.node == b.node {
            return Some(if a.negated == b.negated { a } else { !one });
        }
        None
    }

    /// The node of this gate, if there is one that is known.
    fn find(&self, gate: Gate) -> Option<u32>
        ensures gate { IfSome result (λ node. slice_get self.now node ≡ Some (And gate)) }
        ensures within { IfSome result (λ node. node < length self.now) }
    {
        let node = *self.known.get(&gate)?;
        match self.nodes.get(node as usize) {
            Some(Node::And(found)) if *found == gate => Some(node),
            _ => None,
        }
    }

    fn put(&mut self, gate: Gate) -> Result<Edge, AllocError>
        requires room { length self.old < MOST_NODES }
        requires placed { IsPlaced (length self.old) (And gate) }
        ensures added { OnOk result (self.new ≡ self.old ++ And gate ∷ []) }
        ensures edge { IfOk result (λ e. e ≡ record { node = length self.old; negated = false }) }
        ensures unchanged { OnErr result (self.new ≡ self.old) }
    {
        let node = self.nodes.len() as u32;
        self.known.insert(gate, node)?;
        self.nodes.push(Node::And(gate))?;
        Ok(Edge {
            node,
            negated: false,
        })
    }

    /// Values of the inputs fix those of all nodes. It does nothing: its contract is a law.
    pub fn values_law(&self)
        ensures { IsDetermined self.now }
    {
        let _nodes = &self.nodes;
    }
}
