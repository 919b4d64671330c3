//! The text of a run that breaks the assertion.

ghost use Rattle.std.specs.Prelude.{◌≡◌, ℕ, ◌<◌, ◌^◌, List, [], ◌∷◌, ◌++◌, IfOk, OnOk, string_bytes, codes, decimal};
ghost use Rattle.hwcbmc_core.specs.Runs.{run_of, Broken, assertion, Frame, changed, next_count, shown_count};
ghost use Rattle.hwcbmc_core.specs.Trace.{trace_text, event_text, shown_text};

use crate::sources::{Counter, Program};
use std::alloc::{AllocError, Global};

/// The line of the assertion, with no edge line before it.
const FIRST_LINE: usize = 5;

/// The trace of each run that breaks the assertion, frame by frame, and the verdict.
pub fn trace(alloc: Global, program: Program, counter: Counter) -> Result<String, AllocError>
    requires { program.edges < 2 ^ 63 }
    ensures { IfOk result (λ text. (bounds : _) (choices : List ℕ)
        → (run_of program counter bounds choices).outcome ≡ Broken (assertion program)
        → string_bytes text ≡ trace_text (assertion program) (run_of program counter bounds choices).events) }
{
    let mut text = String::from_str(alloc, "Trace for main.assertion.1:\n")?;
    push_frame(&mut text, 0)?;
    push_count(&mut text, counter.first)?;
    let mut count = counter.first;
    for edge in 0..program.edges {
        let next = count.wrapping_add(counter.step);
        push_step(&mut text, edge + 1, count, next)?;
        count = next;
    }
    let line = FIRST_LINE + program.edges;
    push_verdict(&mut text, line)?;
    Ok(text)
}

/// A frame after a clock edge.
fn push_step(text: &mut String, number: usize, old: u8, new: u8) -> Result<(), AllocError>
    ensures { OnOk result (string_bytes text.new ≡ string_bytes text.old ++ event_text (Frame number (changed old new))) }
{
    push_frame(text, number)?;
    if old != new {
        push_count(text, new)?;
    }
    Ok(())
}

fn push_frame(text: &mut String, number: usize) -> Result<(), AllocError>
    ensures { OnOk result (string_bytes text.new ≡ string_bytes text.old ++ event_text (Frame number [])) }
{
    write!(text, "frame {number}\n")
}

fn push_count(text: &mut String, count: u8) -> Result<(), AllocError>
    ensures { OnOk result (string_bytes text.new ≡ string_bytes text.old ++ shown_text (shown_count count)) }
{
    write!(text, "  counter.count = {count}\n")
}

fn push_verdict(text: &mut String, line: usize) -> Result<(), AllocError>
    ensures { OnOk result (string_bytes text.new ≡ string_bytes text.old
        ++ (codes "broken main.assertion.1 at line " ++ (decimal line ++ codes "\nVERIFICATION FAILED\n"))) }
{
    write!(
        text,
        "broken main.assertion.1 at line {line}\nVERIFICATION FAILED\n"
    )
}
