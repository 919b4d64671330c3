//! Runs of typed programs beside a module that has nothing, on choices that are all 0.

ghost use Rattle.std.specs.Prelude.{◌≡◌, None};
ghost use Rattle.joint_ir.specs.WellFormed.{FitsProgram, IsWellFormed};

use bare_pairs::bare_pair;
use joint_ir::{Bounds, CProgram, Choices, LimitList, Outcome, Pair, PropId, naming};
use joint_step::{ReplayEnd, Replayed, replay};
use src_text::Name;
use std::alloc::{AllocError, Global};
use std::io;

/// The choices that a run may draw.
const CHOICES: [u64; 4096] = [0; 4096];

/// The turns of each loop, and the activations of each function.
const TURNS: u32 = 1000;

/// The clock edges of a run.
const EDGES: u32 = 1;

fn bounds(alloc: Global) -> Bounds {
    Bounds {
        unwind: TURNS,
        limits: LimitList::new(alloc),
        frames: EDGES,
        check_bound: false,
    }
}

fn print_broken<R: Print + AllocGlobal>(
    rt: &R,
    program: &CProgram,
    prop: PropId,
) -> io::Result<()> {
    let Some(prop) = program.props.as_slice().get(prop.0 as usize) else {
        return println!(rt; "  breaks what has no name");
    };
    let mut name = String::new(rt.alloc());
    naming::push_name(&mut name, prop)?;
    println!(rt; "  {name} breaks, line {}", prop.line)
}

fn print_end<R: Print + AllocGlobal>(rt: &R, program: &CProgram, run: &Replayed) -> io::Result<()> {
    match run.outcome {
        Outcome::Ended => println!(rt; "  ends"),
        Outcome::Cut => println!(rt; "  an assumption is 0"),
        Outcome::OutOfFrames => println!(rt; "  out of frames"),
        Outcome::Broken(prop) => print_broken(rt, program, prop),
    }
}

fn print_replay<R: Print + AllocGlobal>(rt: &R, pair: &Pair) -> io::Result<()>
    requires { IsWellFormed pair.now }
{
    let choices = Choices::from_slice(rt.alloc(), &CHOICES)?;
    match replay(rt.alloc(), pair, &bounds(rt.alloc()), &choices) {
        Ok(run) => print_end(rt, &pair.program, &run),
        Err(ReplayEnd::TooFew) => println!(rt; "  more than {} choices", CHOICES.len()),
        Err(ReplayEnd::Memory) => Err(AllocError.into()),
    }
}

fn print_beside<R: Print + AllocGlobal>(rt: &R, program: CProgram) -> io::Result<()>
    requires fits { FitsProgram program }
    requires plain { program.mirror ≡ None }
{
    let top = Name::new(rt.alloc(), "top")?;
    let pair = bare_pair(rt.alloc(), program, &top)?;
    print_replay(rt, &pair)
}

/// How a program's run ends, and the property that it breaks. A program with a mirror isn't run.
pub fn print_run<R: Print + AllocGlobal>(rt: &R, program: CProgram) -> io::Result<()>
    requires { FitsProgram program }
{
    match &program.mirror {
        Some(_) => println!(rt; "  has a mirror"),
        None => print_beside(rt, program),
    }
}
