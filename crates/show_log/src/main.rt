//! Small logs, right ones and ones with a bad step, and what their check finds: the whole log, and as one segment.
#![tactic(auto)]

mod making;

use anyhow::Result;
use clause_arena::{ClauseArena, Lit};
use making::{A, B, C, NOT_A, NOT_B, NOT_C, add, delete_first, derive};
use res_log::{CheckEnd, Checked, Log, Segments, check};
use std::alloc::{AllocError, Global};

type Found = Result<Checked, CheckEnd>;

/// What a log of one step ends with, checked whole and as one segment.
fn ends_of_one_step(
    alloc: Global,
    inputs: [&[Lit]; 2],
    derived: &[Lit],
    pivot: u32,
) -> Result<[Found; 2], AllocError> {
    let mut arena = ClauseArena::new(alloc);
    let mut log = Log::new(alloc);
    add(&mut arena, inputs[0])?;
    add(&mut arena, inputs[1])?;
    derive(&mut arena, &mut log, derived, 0, 1, pivot)?;
    let whole = check(alloc, &arena, &log);
    let segment = Segments::new(alloc).next(&arena, &log);
    Ok([whole, segment])
}

/// Two steps derive one set. Equal results are a matter of the whole check.
fn ends_of_equal_results(alloc: Global) -> Result<[Found; 2], AllocError> {
    let mut arena = ClauseArena::new(alloc);
    let mut log = Log::new(alloc);
    add(&mut arena, &[A, B])?;
    add(&mut arena, &[A, NOT_B])?;
    derive(&mut arena, &mut log, &[A], 0, 1, 1)?;
    add(&mut arena, &[C, A])?;
    add(&mut arena, &[NOT_C, A])?;
    derive(&mut arena, &mut log, &[A], 3, 4, 2)?;
    let whole = check(alloc, &arena, &log);
    let segment = Segments::new(alloc).next(&arena, &log);
    Ok([whole, segment])
}

/// A step names a clause that was checked and then deleted.
fn end_after_deletion(alloc: Global) -> Result<Found, AllocError> {
    let mut arena = ClauseArena::new(alloc);
    let mut log = Log::new(alloc);
    let mut segments = Segments::new(alloc);
    add(&mut arena, &[A, B])?;
    add(&mut arena, &[A, NOT_B])?;
    derive(&mut arena, &mut log, &[A], 0, 1, 1)?;
    if let Err(end) = segments.next(&arena, &log) {
        return Ok(Err(end));
    }
    delete_first(&mut arena, &log);
    derive(&mut arena, &mut log, &[B], 2, 0, 0)?;
    Ok(segments.next(&arena, &log))
}

/// One line on what a check found.
fn say<R: Print>(rt: &R, title: &str, way: &str, found: Found) -> Result<()> {
    match found {
        Ok(checked) => println!(rt;
            "{title}, {way}: right, {} steps, ends empty: {}",
            checked.steps, checked.ends_empty
        )?,
        Err(CheckEnd::Bad(step)) => println!(rt; "{title}, {way}: step {step} is wrong")?,
        Err(CheckEnd::Memory) => println!(rt; "{title}, {way}: no memory")?,
    }
    Ok(())
}

fn say_both<R: Print>(rt: &R, title: &str, found: [Found; 2]) -> Result<()> {
    say(rt, title, "whole", found[0])?;
    say(rt, title, "in a segment", found[1])
}

/// Logs of one step, by the resolution of Robinson: from two clauses all literals but the pivot's, which is positive in the one
/// and negative in the other.
fn say_one_steps<R: Print>(rt: &R, alloc: Global) -> Result<()> {
    let cases: [(&str, [&[Lit]; 2], &[Lit], u32); 10] = [
        ("a resolvent", [&[A, B], &[A, NOT_B]], &[A], 1),
        ("in another order", [&[B, A], &[NOT_B, C]], &[C, A], 1),
        ("the empty clause", [&[A], &[NOT_A]], &[], 0),
        ("another pivot", [&[A, B], &[A, NOT_B]], &[A], 0),
        ("another result", [&[A, B], &[A, NOT_B]], &[A, C], 1),
        ("both signs in one", [&[A, NOT_A], &[NOT_A]], &[], 0),
        ("a pivot in one alone", [&[A, B], &[A]], &[A], 1),
        ("one sign in both", [&[A, B], &[C, B]], &[A, C], 1),
        ("a tautology", [&[A, B], &[NOT_A, NOT_B]], &[A, NOT_A], 1),
        ("a pivot in none", [&[A], &[A]], &[A], 7),
    ];
    for (title, inputs, derived, pivot) in cases {
        say_both(rt, title, ends_of_one_step(alloc, inputs, derived, pivot)?)?;
    }
    Ok(())
}

fn main(rt: HostRuntime) -> Result<()> {
    say_one_steps(&rt, rt.alloc())?;
    say_both(&rt, "equal results", ends_of_equal_results(rt.alloc())?)?;
    let found = end_after_deletion(rt.alloc())?;
    say(&rt, "after a deletion", "in a second segment", found)
}
