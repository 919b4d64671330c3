//! Times the arena and the net on made work: `bench_clauses COUNT` stores clauses of three literals,
//! COUNT literals in all, reads them ten times, sets every third one dead, compacts and reads again,
//! and then makes COUNT gates. It prints sums that any right program prints, and with a second word
//! the milliseconds of processor time of each part on standard error.
#![tactic(auto)]

ghost use Rattle.clause_arena.specs.Clause.{IsEachOnce};

use clause_arena::{ClauseArena, ClauseId, Lit};
use gate_net::{Edge, Net};
use std::alloc::{AllocError, Global};
use std::time::{CpuClock, Duration};
use std::{env, io};

/// The size of a run that names none.
const COUNT: u32 = 3000;

/// Numbers that look random: a linear congruence modulo 2 to the power of 32.
#[derive(Drop)]
struct Numbers(u32);

impl Numbers {
    fn next(&mut self) -> u32 {
        self.0 = self.0.wrapping_mul(1664525).wrapping_add(1013904223);
        self.0 >> 8
    }
}

/// Three literals of neighbouring variables.
fn clause(number: u32) -> [Lit; 3]
    ensures { IsEachOnce result }
{
    let var = (number >> 3) & 0xff_ffff;
    [
        Lit {
            var,
            negative: number & 1 != 0,
        },
        Lit {
            var: var + 1,
            negative: number & 2 != 0,
        },
        Lit {
            var: var + 2,
            negative: number & 4 != 0,
        },
    ]
}

fn store(arena: &mut ClauseArena, clauses: u32) -> Result<(), AllocError> {
    let mut numbers = Numbers(1);
    for _ in 0..clauses {
        if arena.count() < u32::MAX {
            arena.push(&clause(numbers.next()))?;
        }
    }
    Ok(())
}

/// The sum of the variables of the literals that are not negated, over all live clauses.
fn sum(arena: &ClauseArena) -> u64 {
    let mut total = 0u64;
    for id in 0..arena.count() {
        let id = ClauseId(id);
        if arena.is_live(id) {
            for lit in arena.lits(id) {
                if !lit.negative {
                    total = total.wrapping_add(u64::from(lit.var));
                }
            }
        }
    }
    total
}

fn kill_every_third(arena: &mut ClauseArena) {
    let count = arena.count();
    for id in 0..count {
        if id % 3 == 0 && id < arena.count() {
            arena.set_dead(ClauseId(id));
        }
    }
}

fn edge(net: &Net, number: u32) -> Edge {
    Edge {
        node: (number >> 1) % net.count().max(1),
        negated: number & 1 != 0,
    }
}

/// Makes gates of random edges, and gives the sum of the nodes that stand for them.
fn gates(net: &mut Net, inputs: u32, gates: u32) -> Result<u64, AllocError> {
    for _ in 0..inputs {
        if net.count() < 1 << 31 {
            net.input()?;
        }
    }
    let mut numbers = Numbers(1);
    let mut total = 0u64;
    for _ in 0..gates {
        let a = edge(net, numbers.next());
        let b = edge(net, numbers.next());
        let count = net.count();
        if a.node < count && b.node < count && count < 1 << 31 {
            total = total.wrapping_add(u64::from(net.and(a, b)?.node));
        }
    }
    Ok(total)
}

/// Says how much processor time a part took, where that was asked for, and gives the time so far.
fn lap(
    rt: &(impl Eprint + CpuClock),
    times: bool,
    part: &str,
    start: Duration,
) -> io::Result<Duration> {
    if times {
        let took = rt.process_cpu_time()?.saturating_sub(start).as_millis();
        eprintln!(rt; "{part}: {took} ms")?;
    }
    rt.process_cpu_time()
}

fn clauses<R: Print + Eprint + CpuClock + AllocGlobal>(
    rt: &R,
    count: u32,
    times: bool,
) -> io::Result<()> {
    let mut arena = ClauseArena::new(rt.alloc());
    let start = rt.process_cpu_time()?;
    store(&mut arena, count / 3)?;
    let stored = lap(rt, times, "store", start)?;
    let mut total = 0u64;
    for _ in 0..10 {
        total = total.wrapping_add(sum(&arena));
    }
    let read = lap(rt, times, "read ten times", stored)?;
    println!(rt; "all clauses: {total}")?;
    kill_every_third(&mut arena);
    arena.compact();
    lap(rt, times, "compact", read)?;
    let left = sum(&arena);
    println!(rt; "without every third: {left}")
}

fn run<R: Print + Eprint + CpuClock + AllocGlobal>(
    rt: &R,
    count: u32,
    times: bool,
) -> io::Result<()> {
    clauses(rt, count, times)?;
    let mut net = Net::new(rt.alloc())?;
    let start = rt.process_cpu_time()?;
    let total = gates(&mut net, 64, count)?;
    lap(rt, times, "gates", start)?;
    let nodes = net.count();
    println!(rt; "gates: {total}, nodes: {nodes}")
}

fn main(rt: HostRuntime) -> io::Result<()> {
    let mut words = env::args(&rt)?;
    let count = match words.nth(1) {
        Some(word) => word.as_str().parse::<u32>().unwrap_or(COUNT),
        None => COUNT,
    };
    let times = words.next().is_some();
    run(&rt, count, times)
}
