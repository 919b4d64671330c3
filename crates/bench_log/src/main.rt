//! Makes a long valid log and checks it: over a ring of implications, each of `vars` variables
//! implies those up to `reach` places on, by a chain of the inputs between. The times of both parts
//! go to standard error. Arguments: `vars` and `reach`.
#![tactic(auto)]

ghost use Rattle.std.specs.Prelude.{◌≤◌};
ghost use Rattle.clause_arena.specs.Clause.{IsEachOnce};

use anyhow::{Context, Result};
use clause_arena::{ClauseArena, ClauseId, Lit};
use res_log::{ChainStep, CheckEnd, Log, check};
use std::alloc::{AllocError, Global};
use std::env;
use std::rt::{Clock, Env};
use std::time::Instant;

/// The first variable of the ring. Those below stand in every clause.
const FIRST: u32 = 2;

fn lit(var: u32, negative: bool) -> Lit {
    Lit { var, negative }
}

/// `from` implies `to`, or one of the first variables holds.
fn implication(from: u32, to: u32) -> [Lit; 4]
    requires { 2 ≤ to }
    ensures { IsEachOnce result }
{
    [
        Lit {
            var: from,
            negative: true,
        },
        Lit {
            var: to,
            negative: false,
        },
        Lit {
            var: 0,
            negative: false,
        },
        Lit {
            var: 1,
            negative: false,
        },
    ]
}

fn push(arena: &mut ClauseArena, from: u32, to: u32) -> Result<ClauseId, AllocError>
    requires { 2 ≤ to }
{
    if arena.count() == u32::MAX {
        return Err(AllocError);
    }
    arena.push(&implication(from, to))
}

/// The variable of a place of the ring.
fn var_at(place: u32) -> u32
    ensures { 2 ≤ result }
{
    place.saturating_add(FIRST)
}

/// The links from the input after `from` up to the one before `to`.
fn chain(alloc: Global, from: u32, to: u32) -> Result<Vec<ChainStep>, AllocError> {
    let mut links = Vec::new(alloc);
    for place in from..to {
        if place != from {
            links.push(ChainStep {
                clause: ClauseId(place),
                pivot: var_at(place),
            })?;
        }
    }
    Ok(links)
}

/// The inputs, and a log of all implications that reach no further than `reach` places.
fn ring(alloc: Global, vars: u32, reach: u32) -> Result<(ClauseArena, Log), AllocError> {
    let mut arena = ClauseArena::new(alloc);
    let mut log = Log::new(alloc);
    for place in 0..vars {
        push(&mut arena, var_at(place), var_at(place.saturating_add(1)))?;
    }
    for from in 0..vars {
        for to in from.saturating_add(2)..from.saturating_add(reach).min(vars) {
            let derived = push(&mut arena, var_at(from), var_at(to))?;
            log.append(derived, ClauseId(from), &chain(alloc, from, to)?)?;
        }
    }
    Ok((arena, log))
}

fn number(rt: &(impl Env + Alloc<A = Global>), at: usize) -> Result<u32> {
    let word = env::args(rt)?.nth(at).context("two numbers are wanted")?;
    Ok(word.as_str().parse::<u32>()?)
}

fn main(rt: HostRuntime) -> Result<()> {
    let start = Instant::now(&rt)?;
    let (arena, log) = ring(rt.alloc(), number(&rt, 1)?, number(&rt, 2)?)?;
    let made = start.elapsed(&rt)?;
    match check(rt.alloc(), &arena, &log) {
        Ok(checked) => println!(rt;
            "{} steps, ends empty: {}",
            checked.steps, checked.ends_empty
        )?,
        Err(CheckEnd::Bad(step)) => println!(rt; "step {step} is wrong")?,
        Err(CheckEnd::Memory) => println!(rt; "no memory")?,
    }
    let whole = start.elapsed(&rt)?;
    eprintln!(rt; "made in {made:?}, made and checked in {whole:?}")?;
    Ok(())
}
