//! Times the search for an order on made graphs: `bench_order COUNT [times]` prints what is found for graphs of COUNT
//! nodes, which any right program finds, and with a second word the milliseconds of processor time of each on standard
//! error.
#![tactic(auto)]

ghost use Rattle.std.specs.Prelude.{◌≡◌, ◌<◌, All, length, IfOk};
ghost use Rattle.edge_order.specs.Graph.{IsGraph};

use edge_order::{Order, find_order};
use std::alloc::{AllocError, AllocGlobal, Global};
use std::time::CpuClock;
use std::{env, io};

/// The number of nodes of a run that names none.
const COUNT: u32 = 1000;

/// How the nodes of a graph follow one another.
#[derive(Clone, Copy)]
enum Shape {
    /// Each leads to the next.
    Chain,
    /// Each leads to the one before.
    Back,
    /// Each leads to the next, and the last to the first.
    Ring,
    /// Each leads to the next, and the last to the one before.
    RingBehind,
    /// Each leads to the next, and the second to the first.
    RingBefore,
    /// Rings of two nodes in a chain, with a node between each two; those stand first.
    Rings,
    /// Each leads to all of the next eight.
    Wide,
}

/// Where the edges of a node lead; a number that is no node stands for none.
fn next(shape: Shape, count: u32, node: u32) -> [u64; 8] {
    let at = u64::from(node);
    let last = u64::from(count).saturating_sub(1);
    let none = u64::MAX;
    let third = u64::from(count / 3);
    match shape {
        Shape::Chain => [at + 1, none, none, none, none, none, none, none],
        Shape::Back => [at.wrapping_sub(1), none, none, none, none, none, none, none],
        Shape::Ring => {
            let to = if at == last { 0 } else { at + 1 };
            [to, none, none, none, none, none, none, none]
        }
        Shape::RingBehind => {
            let to = if at == last {
                at.wrapping_sub(1)
            } else {
                at + 1
            };
            [to, none, none, none, none, none, none, none]
        }
        Shape::RingBefore => {
            let back = if at == 1 { 0 } else { none };
            [at + 1, back, none, none, none, none, none, none]
        }
        Shape::Rings => rings(third, at),
        Shape::Wide => [
            at + 1,
            at + 2,
            at + 3,
            at + 4,
            at + 5,
            at + 6,
            at + 7,
            at + 8,
        ],
    }
}

/// Node k below a third leads from ring k to ring k + 1; the nodes of ring k are that third + k and twice that third + k.
/// The node behind the last ring leads nowhere.
fn rings(third: u64, at: u64) -> [u64; 8] {
    let none = u64::MAX;
    let [to, other] = if at.saturating_add(1) < third {
        [third.wrapping_add(at).wrapping_add(1), none]
    } else if at < third {
        [none, none]
    } else if at < third.wrapping_mul(2) {
        [at.wrapping_add(third), at.wrapping_sub(third)]
    } else {
        [at.wrapping_sub(third), none]
    };
    [to, other, none, none, none, none, none, none]
}

fn targets(alloc: Global, count: u32, next: &[u64]) -> Result<Vec<u32>, AllocError>
    ensures { IfOk result (λ v. All (λ b. b < count) v.items) }
{
    let mut targets = Vec::new(alloc);
    for to in next {
        if *to < u64::from(count) {
            targets.push(*to as u32)?;
        }
    }
    Ok(targets)
}

fn graph(alloc: Global, shape: Shape, count: u32) -> Result<Vec<Vec<u32>>, AllocError>
    ensures size { IfOk result (λ g. length g.items ≡ count) }
    ensures within { IfOk result (λ g. All (λ v. All (λ b. b < count) v.items) g.items) }
{
    let mut graph = Vec::new(alloc);
    for node in 0..count {
        let next = next(shape, count, node);
        graph.push(targets(alloc, count, &next)?)?;
    }
    Ok(graph)
}

fn show<R: Print + Eprint + CpuClock + AllocGlobal>(
    rt: &R,
    times: bool,
    name: &str,
    shape: Shape,
    count: u32,
) -> io::Result<()> {
    let graph = graph(rt.alloc(), shape, count)?;
    let start = rt.process_cpu_time()?;
    let order = find_order(rt.alloc(), graph.as_slice())?;
    let took = rt.process_cpu_time()?.saturating_sub(start).as_millis();
    if times {
        eprintln!(rt; "{name}: {took} ms")?;
    }
    match order {
        Order::Sorted(nodes) => {
            let first = nodes.first().copied().unwrap_or(0);
            let last = nodes.last().copied().unwrap_or(0);
            println!(rt; "{name}: {first} first, {last} last")
        }
        Order::Ring(node) => println!(rt; "{name}: {node} leads to itself"),
    }
}

fn run<R: Print + Eprint + CpuClock + AllocGlobal>(
    rt: &R,
    count: u32,
    times: bool,
) -> io::Result<()> {
    show(rt, times, "chain", Shape::Chain, count)?;
    show(rt, times, "back", Shape::Back, count)?;
    show(rt, times, "ring", Shape::Ring, count)?;
    show(rt, times, "ring behind", Shape::RingBehind, count)?;
    show(rt, times, "ring before", Shape::RingBefore, count)?;
    show(rt, times, "rings", Shape::Rings, count)?;
    show(rt, times, "wide", Shape::Wide, count)
}

fn main(rt: HostRuntime) -> io::Result<()> {
    let mut words = env::args(&rt)?;
    let count = match words.nth(1) {
        Some(word) => word.as_str().parse::<u32>().unwrap_or(COUNT),
        None => COUNT,
    };
    let times = words.next().is_some();
    run(&rt, count, times)
}
