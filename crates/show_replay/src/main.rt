//! Runs of two programs beside a counter, carried out: `next_timeframe(); assert(counter.count == n);`, and
//! `int x = nondet_int(); x = x + 1;`. A row says how a run ends and what is seen of it, by hand from the definition of a
//! run. The counter is the signal 1. The properties of the first are 0 of the call and 1 of the assertion; that of the
//! second is 0 of the sum.
#![tactic(auto)]

mod pair;

ghost use Rattle.joint_ir.specs.WellFormed.{IsWellFormed};

use anyhow::Result;
use joint_ir::{Bounds, Choices, Event, LimitList, Outcome, Pair, Shown};
use joint_step::{ReplayEnd, Replayed, replay};
use std::alloc::Global;

fn print_words<R: Print>(rt: &R, words: &[Shown]) -> Result<()> {
    for word in words {
        println!(rt;
            "  signal {} word {} = {}",
            word.signal, word.word, word.value
        )?;
    }
    Ok(())
}

fn print_event<R: Print>(rt: &R, event: &Event) -> Result<()> {
    match event {
        Event::Frame(edges, words) => {
            println!(rt; "frame {edges}")?;
            print_words(rt, words.as_slice())
        }
        Event::Driven(words) => {
            println!(rt; "inputs driven")?;
            print_words(rt, words.as_slice())
        }
        Event::Stored(line, slot, index, number) => {
            println!(rt; "line {line}: {slot:?} {index:?} = {number}")?;
            Ok(())
        }
        Event::Broke(prop) => {
            println!(rt; "property {} breaks", prop.0)?;
            Ok(())
        }
    }
}

fn print_run<R: Print>(rt: &R, run: &Replayed) -> Result<()> {
    for event in run.events.as_slice() {
        print_event(rt, event)?;
    }
    match run.outcome {
        Outcome::Ended => println!(rt; "ended")?,
        Outcome::Cut => println!(rt; "cut")?,
        Outcome::OutOfFrames => println!(rt; "out of frames")?,
        Outcome::Broken(prop) => println!(rt; "broken {}", prop.0)?,
    }
    Ok(())
}

/// One run, on a list of choices.
fn print_replay<R: Print + AllocGlobal>(
    rt: &R,
    pair: &Pair,
    bounds: &Bounds,
    choices: &[u64],
) -> Result<()>
    requires { IsWellFormed pair.now }
{
    let choices = Choices::from_slice(rt.alloc(), choices)?;
    match replay(rt.alloc(), pair, bounds, &choices) {
        Ok(run) => print_run(rt, &run)?,
        Err(ReplayEnd::TooFew) => println!(rt; "too few choices")?,
        Err(ReplayEnd::Memory) => println!(rt; "no memory")?,
    }
    Ok(())
}

fn bounds(alloc: Global, frames: u32, check_bound: bool) -> Bounds {
    Bounds {
        unwind: 1,
        limits: LimitList::new(alloc),
        frames,
        check_bound,
    }
}

/// The run with the count that is asserted, the edges that may be taken, and whether that bound is checked.
fn count_row<R: Print + AllocGlobal>(
    rt: &R,
    count: u8,
    frames: u32,
    check_bound: bool,
) -> Result<()> {
    let pair = pair::counting(rt.alloc(), count)?;
    println!(rt; "count {count}, {frames} edges, checked {check_bound}:")?;
    print_replay(rt, &pair, &bounds(rt.alloc(), frames, check_bound), &[])
}

/// The run of a program that adds 1 to any number, on choices.
fn sum_row<R: Print + AllocGlobal>(rt: &R, choices: &[u64]) -> Result<()> {
    let pair = pair::adding_one(rt.alloc())?;
    println!(rt; "one more, choices {choices:?}:")?;
    print_replay(rt, &pair, &bounds(rt.alloc(), 1, false), choices)
}

fn main(rt: HostRuntime) -> Result<()> {
    count_row(&rt, 1, 2, false)?;
    count_row(&rt, 2, 2, false)?;
    count_row(&rt, 1, 0, false)?;
    count_row(&rt, 1, 0, true)?;
    sum_row(&rt, &[])?;
    sum_row(&rt, &[2147483647])?;
    sum_row(&rt, &[4294967295, 8])
}
