//! The values of a net's nodes, by those of its inputs.

use bits_core::Word;
use gate_net::{Edge, Net, Node};
use std::alloc::{AllocError, Global};

/// Whether an edge is 1, by the values of the nodes.
pub fn is_set(values: &[bool], edge: Edge) -> bool {
    values.get(edge.node as usize).copied().unwrap_or(false) != edge.negated
}

/// The number that edges have, the lowest bit first.
pub fn number_of(values: &[bool], edges: &[Edge]) -> u128 {
    let mut number = 0u128;
    for &edge in edges.iter().rev() {
        number = number.wrapping_mul(2) | u128::from(is_set(values, edge));
    }
    number
}

/// The value of each node, by the bits of the inputs in order.
pub fn node_values(alloc: Global, net: &Net, bits: &[bool]) -> Result<Vec<bool>, AllocError> {
    let mut values = Vec::new(alloc);
    let mut inputs = bits.iter();
    for node in net.nodes() {
        let value = match node {
            Node::One => true,
            Node::Input => inputs.next().copied().unwrap_or(false),
            Node::And(gate) => is_set(&values, gate.left) && is_set(&values, gate.right),
        };
        values.push(value)?;
    }
    Ok(values)
}

/// Puts the bits of a word at the end, the lowest first.
pub fn push_bits(bits: &mut Vec<bool>, word: Word) -> Result<(), AllocError> {
    let mut rest = word.value();
    for _ in 0..word.width() {
        bits.push(rest % 2 == 1)?;
        rest /= 2;
    }
    Ok(())
}
