//! Walks and runs of one pair.

ghost use Rattle.std.specs.Prelude.{◌≡◌, ◌≤◌, None};
ghost use Rattle.joint_ir.specs.Weights.{weight_of};
ghost use Rattle.joint_ir.specs.WellFormed.{FitsProgram, IsWellFormed};

use crate::ends::Ends;
use crate::random::random_words;
use crate::walks::{Walk, walk_on};
use bare_pairs::bare_pair;
use joint_ir::weighing::HEAVIEST;
use joint_ir::{Bounds, CProgram, Choices, LimitList, Outcome, Pair, weight};
use joint_step::{ReplayEnd, replay};
use rand_pcg::Pcg32;
use src_text::Name;
use std::alloc::{AllocError, Global};
use std::io;
use unwind::unwind;
use unwound::Unwound;

/// The assignments of a program.
const ROUNDS: u32 = 200;

/// The turns of each loop, and the activations of each function.
const TURNS: u32 = 4;

/// The clock edges of a run.
const EDGES: u32 = 2;

fn bounds(alloc: Global) -> Bounds {
    Bounds {
        unwind: TURNS,
        limits: LimitList::new(alloc),
        frames: EDGES,
        check_bound: false,
    }
}

/// How the run on some choices ends, or nothing where it draws more.
fn outcome_on(
    alloc: Global,
    pair: &Pair,
    bounds: &Bounds,
    choices: &Choices,
) -> Result<Option<Outcome>, AllocError>
    requires { IsWellFormed pair.now }
{
    match replay(alloc, pair, bounds, choices) {
        Ok(run) => Ok(Some(run.outcome)),
        Err(ReplayEnd::TooFew) => Ok(None),
        Err(ReplayEnd::Memory) => Err(AllocError),
    }
}

/// Whether the run needs the last of the choices.
fn needs_all(
    alloc: Global,
    pair: &Pair,
    bounds: &Bounds,
    mut choices: Choices,
) -> Result<bool, AllocError>
    requires { IsWellFormed pair.now }
{
    if choices.pop().is_none() {
        return Ok(true);
    }
    let outcome = outcome_on(alloc, pair, bounds, &choices)?;
    Ok(outcome.is_none())
}

fn broken_by(outcome: Outcome) -> Option<u32> {
    match outcome {
        Outcome::Broken(prop) => Some(prop.0),
        Outcome::Ended | Outcome::Cut | Outcome::OutOfFrames => None,
    }
}

/// How the run on the choices of a walk ends, where both agree.
fn agreed(
    alloc: Global,
    pair: &Pair,
    bounds: &Bounds,
    walk: Walk,
) -> Result<Option<Outcome>, AllocError>
    requires { IsWellFormed pair.now }
{
    let Some(outcome) = outcome_on(alloc, pair, bounds, &walk.reads)? else {
        return Ok(None);
    };
    let same = broken_by(outcome) == walk.broken;
    let all = needs_all(alloc, pair, bounds, walk.reads)?;
    Ok(if same && all { Some(outcome) } else { None })
}

fn print_rounds<R: Print + AllocGlobal>(
    rt: &R,
    pair: &Pair,
    bounds: &Bounds,
    made: &Unwound,
) -> io::Result<()>
    requires { IsWellFormed pair.now }
{
    let mut random = Pcg32::new(2005, 1364);
    let properties = pair.program.props.as_slice();
    let mut ends = Ends::new(rt.alloc(), properties.len())?;
    let mut agree = 0u32;
    for _ in 0..ROUNDS {
        let env = random_words(rt.alloc(), &made.terms, &mut random)?;
        let walk = walk_on(rt.alloc(), made, &env)?;
        if let Some(outcome) = agreed(rt.alloc(), pair, bounds, walk)? {
            agree = agree.saturating_add(1);
            ends.note(outcome);
        }
    }
    print!(rt; "{agree} of {ROUNDS} agree")?;
    ends.print(rt, properties)
}

/// The walks of a program beside a module that has nothing.
pub fn print_pair<R: Print + AllocGlobal>(rt: &R, program: CProgram) -> io::Result<()>
    requires fits { FitsProgram program }
    requires plain { program.mirror ≡ None }
{
    let top = Name::new(rt.alloc(), "top")?;
    let pair = bare_pair(rt.alloc(), program, &top)?;
    let bounds = bounds(rt.alloc());
    if weight(&pair, &bounds) > HEAVIEST {
        return println!(rt; "too heavy");
    }
    let made = unwind(rt.alloc(), &pair, &bounds)?;
    print_rounds(rt, &pair, &bounds, &made)
}
