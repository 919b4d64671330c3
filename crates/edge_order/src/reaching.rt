//! What some nodes lead to.

ghost use Rattle.std.specs.Prelude.{◌<◌, All, length, IfOk, OnOk};
ghost use Rattle.edge_order.specs.Graph.{IsGraph, IsReach};
ghost use Rattle.edge_order.specs.Marks.{Marks};

use std::alloc::{AllocError, Global};

/// Marks nodes, and keeps those for later that weren't marked before.
fn mark_all(marks: &mut Vec<bool>, pending: &mut Vec<u32>, nodes: &[u32]) -> Result<(), AllocError>
    requires { All (λ b. b < length marks.old.items) nodes.now }
    ensures { OnOk result (Marks nodes.now (length nodes.now) marks.old.items marks.new.items pending.old.items pending.new.items) }
{
    for node in nodes {
        if !marks[*node as usize] {
            pending.push(*node)?;
            marks[*node as usize] = true;
        }
    }
    Ok(())
}

/// Marks the seeds and all that they lead to, and nothing else. The time is that of going once over the edges.
pub fn reach(alloc: Global, graph: &[Vec<u32>], seeds: &[u32]) -> Result<Vec<bool>, AllocError>
    requires graph { IsGraph graph.now }
    requires seeds { All (λ b. b < length graph.now) seeds.now }
    ensures { IfOk result (λ marks. IsReach graph.now seeds.now marks.items) }
{
    let mut marks = vec![in alloc; false; graph.len()]?;
    let mut pending = Vec::new(alloc);
    mark_all(&mut marks, &mut pending, seeds)?;
    while let Some(node) = pending.pop() {
        mark_all(&mut marks, &mut pending, graph[node as usize].as_slice())?;
    }
    Ok(marks)
}
