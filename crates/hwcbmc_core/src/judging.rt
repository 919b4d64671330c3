//! Whether a run of the pair breaks its assertion.

ghost use Rattle.std.specs.Prelude.{◌≡◌, List, ℕ};
ghost use Rattle.std.specs.Bool.{MatchBool};
ghost use Rattle.hwcbmc_core.specs.Runs.{count_at, run_of, Broken, assertion, CanBreak};

use crate::sources::{Counter, Program};
use joint_ir::Bounds;

/// The count in the frame after so many edges: the sum modulo 2^8.
fn count_after(first: u8, step: u8, edges: usize) -> u8
    ensures { result ≡ count_at (record { first = first; step = step }) edges }
{
    let turns = (edges % 256) as u8;
    first.wrapping_add(step.wrapping_mul(turns))
}

/// Whether each run within the bounds breaks the assertion; else no run breaks anything. A run that
/// meets the end of the frames breaks nothing.
pub fn breaks(program: Program, counter: Counter, bounds: &Bounds) -> bool
    ensures { MatchBool result
        ((choices : List ℕ) → (run_of program counter bounds.now choices).outcome ≡ Broken (assertion program))
        ((property : _) → ¬ (CanBreak program counter bounds.now property)) }
{
    program.edges <= bounds.frames as usize
        && count_after(counter.first, counter.step, program.edges) != program.expected
}
