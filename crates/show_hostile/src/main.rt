//! Hostile pairs, weighed and run: what each weighs, how its run ends and how many events are seen. The expected numbers
//! are by hand from the table of weights and the definition of a run; README.md has the working.
#![tactic(auto)]

mod asserts;
mod idle;
mod nest;
mod parts;

ghost use Rattle.std.specs.Prelude.{◌<◌, ◌^◌, length};
ghost use Rattle.joint_ir.specs.WellFormed.{IsWellFormed};

use anyhow::Result;
use joint_ir::{Bounds, Choices, Limit, LimitList, Outcome, Pair, PropId, weight};
use joint_step::{ReplayEnd, Replayed, replay};
use nest::Shape;
use std::alloc::Global;

/// One turn of each loop, no clock edge, and so many activations of the function whose property is the second.
fn bounds(alloc: Global, activations: u32) -> Result<Bounds> {
    let mut limits = LimitList::new(alloc);
    limits.push(Limit {
        prop: PropId(1),
        count: activations,
    })?;
    Ok(Bounds {
        unwind: 1,
        limits,
        frames: 0,
        check_bound: false,
    })
}

fn print_weight<R: Print>(rt: &R, pair: &Pair, bounds: &Bounds) -> Result<()>
    requires { length pair.now.program.props < 2 ^ 32 }
{
    let weight = weight(pair, bounds);
    println!(rt; "weight {weight}")?;
    Ok(())
}

fn print_run<R: Print>(rt: &R, run: &Replayed) -> Result<()> {
    let events = run.events.as_slice().len();
    match run.outcome {
        Outcome::Ended => println!(rt; "  ended, {events} events")?,
        Outcome::Cut => println!(rt; "  cut, {events} events")?,
        Outcome::OutOfFrames => println!(rt; "  out of frames, {events} events")?,
        Outcome::Broken(prop) => println!(rt; "  property {} breaks, {events} events", prop.0)?,
    }
    Ok(())
}

/// The run that makes no choices.
fn print_replay<R: Print + AllocGlobal>(rt: &R, pair: &Pair, bounds: &Bounds) -> Result<()>
    requires { IsWellFormed pair.now }
{
    let choices = Choices::from_slice(rt.alloc(), &[])?;
    match replay(rt.alloc(), pair, bounds, &choices) {
        Ok(run) => print_run(rt, &run)?,
        Err(ReplayEnd::TooFew) => println!(rt; "  too few choices")?,
        Err(ReplayEnd::Memory) => println!(rt; "  no memory")?,
    }
    Ok(())
}

/// 256 levels of one construct in each of 31 activations of `f`, and an expression of 250 operators in each.
fn nest_row<R: Print + AllocGlobal>(rt: &R, shape: Shape) -> Result<()> {
    let pair = nest::nested(rt.alloc(), shape, 256, 250)?;
    let bounds = bounds(rt.alloc(), 32)?;
    print!(rt; "{shape:?}: ")?;
    print_weight(rt, &pair, &bounds)?;
    print_replay(rt, &pair, &bounds)
}

/// 20,000 assertions, and a function that calls itself twice.
fn assert_row<R: Print + AllocGlobal>(rt: &R, activations: u32) -> Result<()> {
    let pair = asserts::asserting(rt.alloc(), 20000)?;
    let bounds = bounds(rt.alloc(), activations)?;
    print!(rt; "20000 assertions, {activations} activations: ")?;
    print_weight(rt, &pair, &bounds)?;
    print_replay(rt, &pair, &bounds)
}

/// 200 arrays in a function that is never called, and 100 calls of an empty one.
fn idle_row<R: Print + AllocGlobal>(rt: &R) -> Result<()> {
    let pair = idle::idle(rt.alloc(), 200, 100)?;
    let bounds = bounds(rt.alloc(), 32)?;
    print!(rt; "200 arrays, 100 calls: ")?;
    print_weight(rt, &pair, &bounds)?;
    print_replay(rt, &pair, &bounds)
}

fn main(rt: HostRuntime) -> Result<()> {
    nest_row(&rt, Shape::Block)?;
    nest_row(&rt, Shape::If)?;
    nest_row(&rt, Shape::While)?;
    nest_row(&rt, Shape::Do)?;
    nest_row(&rt, Shape::For)?;
    nest_row(&rt, Shape::Switch)?;
    nest_row(&rt, Shape::Return)?;
    nest_row(&rt, Shape::Call)?;
    assert_row(&rt, 1)?;
    assert_row(&rt, 32)?;
    idle_row(&rt)
}
