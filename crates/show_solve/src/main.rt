//! The four clauses of two literals over two variables, solved under choosers of each kind, and the
//! smallest sets of clauses. The rows that are printed were worked out by hand.
#![tactic(auto)]

ghost use Rattle.std.specs.Prelude.{◌<◌};

mod picks;

use cdcl::{ActivityChooser, Chooser, OrderChooser, Solved, has_vars_below, solve};
use clause_arena::{ClauseArena, Lit};
use picks::{Always, Downwards, Recording};
use std::alloc::{AllocError, Global};
use std::io::{self, Print};

/// Puts a clause of both variables with these signs.
fn put_two(arena: &mut ClauseArena, first: bool, second: bool) -> Result<(), AllocError> {
    if arena.count() < 1000 {
        arena.push(&[
            Lit {
                var: 0,
                negative: first,
            },
            Lit {
                var: 1,
                negative: second,
            },
        ])?;
    }
    Ok(())
}

/// The four clauses of two literals over variables 0 and 1.
fn four(alloc: Global) -> Result<ClauseArena, AllocError> {
    let mut arena = ClauseArena::new(alloc);
    put_two(&mut arena, false, false)?;
    put_two(&mut arena, false, true)?;
    put_two(&mut arena, true, false)?;
    put_two(&mut arena, true, true)?;
    Ok(arena)
}

/// Solves, and says what came out.
fn row(
    alloc: Global,
    arena: &mut ClauseArena,
    vars: u32,
    chooser: &mut Box<dyn Chooser>,
    budget: u64,
) -> Result<(&'static str, u64), AllocError>
    requires some { 0 < budget }
    requires few { budget < 1000 }
{
    if arena.count() > 1000 || !has_vars_below(arena, vars) {
        return Ok(("not solved", 0));
    }
    match solve(alloc, arena, vars, chooser, budget)? {
        Solved::Model(bits) => Ok(("model", bits.len() as u64)),
        Solved::Refuted(log) => Ok(("refuted", log.len().min(1))),
        Solved::Spent(log) => Ok(("spent", log.len())),
    }
}

/// The four clauses with a budget of 1 and of 9.
fn both<R: Print>(
    rt: &R,
    alloc: Global,
    name: &str,
    chooser: &mut Box<dyn Chooser>,
) -> io::Result<()> {
    let (small, derived) = row(alloc, &mut four(alloc)?, 2, chooser, 1)?;
    let (large, _) = row(alloc, &mut four(alloc)?, 2, chooser, 9)?;
    println!(rt; "{name}: 1 {small} {derived}, 9 {large}")
}

/// No clause over no variable, and the empty clause alone.
fn smallest<R: Print>(rt: &R, alloc: Global, chooser: &mut Box<dyn Chooser>) -> io::Result<()> {
    let mut none = ClauseArena::new(alloc);
    let (answer, bits) = row(alloc, &mut none, 0, chooser, 1)?;
    println!(rt; "no clause: {answer} {bits}")?;
    let mut empty = ClauseArena::new(alloc);
    empty.push(&[])?;
    let (answer, steps) = row(alloc, &mut empty, 0, chooser, 1)?;
    println!(rt; "empty clause: {answer} {steps}")
}

/// The chooser is asked: of one clause of both variables it decides which is false first.
fn first_false(alloc: Global, chooser: &mut Box<dyn Chooser>) -> Result<Option<bool>, AllocError> {
    let mut arena = ClauseArena::new(alloc);
    put_two(&mut arena, false, false)?;
    if arena.count() > 1000 || !has_vars_below(&arena, 2) {
        return Ok(None);
    }
    match solve(alloc, &mut arena, 2, chooser, 1)? {
        Solved::Model(bits) => Ok(bits.get(0).copied()),
        _ => Ok(None),
    }
}

/// Whether a chooser that counts is asked while the four clauses are solved.
fn is_asked(alloc: Global) -> Result<bool, AllocError> {
    let mut recording: Box<dyn Chooser> = Box::new(alloc, Recording::new())?;
    row(alloc, &mut four(alloc)?, 2, &mut recording, 9)?;
    recording.ready(0)?;
    Ok(recording.pick(&[]) > 0)
}

fn main(rt: HostRuntime) -> io::Result<()> {
    let alloc = rt.alloc();
    let mut order: Box<dyn Chooser> = Box::new(alloc, OrderChooser::new(alloc))?;
    both(&rt, alloc, "order", &mut order)?;
    smallest(&rt, alloc, &mut order)?;
    println!(rt; "order: {:?}", first_false(alloc, &mut order)?)?;
    let mut activity: Box<dyn Chooser> = Box::new(alloc, ActivityChooser::new(alloc))?;
    both(&rt, alloc, "activity", &mut activity)?;
    for pick in [0, 1, u32::MAX] {
        let mut always: Box<dyn Chooser> = Box::new(alloc, Always::new(pick))?;
        both(&rt, alloc, "always", &mut always)?;
        println!(rt; "always {pick}: {:?}", first_false(alloc, &mut always)?)?;
    }
    let mut downwards: Box<dyn Chooser> = Box::new(alloc, Downwards::new())?;
    both(&rt, alloc, "downwards", &mut downwards)?;
    println!(rt; "recording: asked {}", is_asked(alloc)?)
}
