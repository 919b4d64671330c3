//! The order of the nodes.

ghost use Rattle.std.specs.Prelude.{◌≡◌, ◌<◌, ◌≤◌, ◌^◌, All, map, length, count_by, IfOk};
ghost use Rattle.edge_order.specs.Graph.{IsGraph};
ghost use Rattle.edge_order.specs.Stages.{IsRise, IsVerdict, IsStaged, IsByStage};
ghost use Rattle.edge_order.specs.Orders.{IsOrder};

use crate::reaching::reach;
use crate::stages::find_stages;
use std::alloc::{AllocError, Global};

/// The nodes in an order, or the first that leads to itself.
#[derive(Drop)]
pub enum Order {
    /// All nodes, each before those that it leads to.
    Sorted(Vec<u32>),
    /// The least node that leads to itself.
    Ring(u32),
}

/// How the edges of a node go from its stage.
#[derive(Clone, Copy)]
enum Rise {
    /// All to later stages.
    Up,
    /// None to an earlier one.
    Level,
    Down,
}

fn rise_of(targets: &[u32], stages: &[u32], from: u32) -> Rise
    requires { All (λ b. b < length stages.now) targets.now }
    ensures { IsRise targets.now stages.now from result }
{
    let mut rise = Rise::Up;
    for to in targets {
        let stage = stages[*to as usize];
        if stage < from {
            return Rise::Down;
        }
        if stage == from {
            rise = Rise::Level;
        }
    }
    rise
}

/// What stages show of a graph.
#[derive(Clone, Copy)]
enum Verdict {
    /// All edges go to later stages.
    Rising,
    /// No edge goes to an earlier stage, and the first node that has one to its own.
    Level(u32),
    Unknown,
}

fn judge(graph: &[Vec<u32>], stages: &[u32]) -> Verdict
    requires graph { IsGraph graph.now }
    requires stages { length stages.now ≡ length graph.now }
    requires small { length graph.now < 2 ^ 32 }
    ensures { IsVerdict graph.now stages.now result }
{
    let mut level = None;
    for node in 0..graph.len() {
        match rise_of(graph[node].as_slice(), stages, stages[node]) {
            Rise::Up => {}
            Rise::Level => {
                if level.is_none() {
                    level = Some(node as u32);
                }
            }
            Rise::Down => return Verdict::Unknown,
        }
    }
    match level {
        None => Verdict::Rising,
        Some(node) => Verdict::Level(node),
    }
}

#[derive(Clone, Copy)]
struct Staged {
    node: u32,
    stage: u32,
}

fn with_nodes(alloc: Global, stages: &[u32]) -> Result<Vec<Staged>, AllocError>
    requires { length stages.now < 2 ^ 32 }
    ensures { IfOk result (λ v. IsStaged stages.now v.items) }
{
    let mut staged = Vec::new(alloc);
    for node in 0..stages.len() {
        staged.push(Staged {
            node: node as u32,
            stage: stages[node],
        })?;
    }
    Ok(staged)
}

fn nodes(alloc: Global, staged: &[Staged]) -> Result<Vec<u32>, AllocError>
    ensures { IfOk result (λ v. v.items ≡ map (λ s. s.node) staged.now) }
{
    staged.iter().map(|s| s.node).collect(alloc)
}

/// The nodes by stage.
fn by_stage(alloc: Global, stages: &[u32]) -> Result<Vec<u32>, AllocError>
    requires { length stages.now < 2 ^ 32 }
    ensures { IfOk result (λ order. IsByStage stages.now order.items) }
{
    let mut staged = with_nodes(alloc, stages)?;
    staged.sort_by_key(|s| s.stage)?;
    let order = nodes(alloc, staged.as_slice())?;
    Ok(order)
}

fn count(marks: &[bool]) -> usize
    ensures { result ≡ count_by (λ x. x) marks.now }
{
    marks.iter().filter(|x| **x).count()
}

/// The order by a search from each node: what more nodes follow comes first.
fn search_each(alloc: Global, graph: &[Vec<u32>]) -> Result<Order, AllocError>
    requires graph { IsGraph graph.now }
    requires small { length graph.now < 2 ^ 32 }
    ensures { IfOk result (IsOrder graph.now) }
{
    let mut stages = Vec::new(alloc);
    for node in 0..graph.len() {
        let marks = reach(alloc, graph, graph[node].as_slice())?;
        if marks[node] {
            return Ok(Order::Ring(node as u32));
        }
        stages.push((graph.len() - count(marks.as_slice())) as u32)?;
    }
    let order = by_stage(alloc, stages.as_slice())?;
    Ok(Order::Sorted(order))
}

/// The nodes in an order in which every edge goes forward, or the least node that leads to itself.
///
/// The time is near that of going over the edges: stages are found by one search and checked. Were they wrong, the
/// answer would be found by a search from each node.
pub fn find_order(alloc: Global, graph: &[Vec<u32>]) -> Result<Order, AllocError>
    requires graph { IsGraph graph.now }
    requires small { length graph.now < 2 ^ 32 }
    ensures { IfOk result (IsOrder graph.now) }
{
    let stages = find_stages(alloc, graph)?;
    match judge(graph, stages.as_slice()) {
        Verdict::Rising => {
            let order = by_stage(alloc, stages.as_slice())?;
            return Ok(Order::Sorted(order));
        }
        Verdict::Level(node) => {
            let marks = reach(alloc, graph, graph[node as usize].as_slice())?;
            if marks[node as usize] {
                return Ok(Order::Ring(node));
            }
        }
        Verdict::Unknown => {}
    }
    search_each(alloc, graph)
}
