//! What is told of a program beside a Verilog text.

ghost use Rattle.std.specs.Prelude.{◌<◌, ◌≤◌, IfOk};
ghost use Rattle.joint_ir.specs.WellFormed.{FitsProgram, IsWellFormed};
ghost use Rattle.verdicts.specs.Told.{IsTold};
ghost use Rattle.bare_sources.specs.Joined.{IsJoined};

use crate::bare::bare_name;
use crate::taken::{bounds_of, is_taken};
use crate::unwinding::Unwinding;
use bare_pairs::bare_pair;
use cdcl::Choosers;
use command_options::{Decide, Options};
use joint_ir::{Bounds, CProgram, Pair};
use std::alloc::{AllocError, Global};
use v_tree::VTree;
use verdicts::{Told, tell};

/// What becomes of a program beside a Verilog text.
#[derive(Drop)]
pub enum Joined {
    /// The Verilog text isn't one module with nothing in it that is the top.
    OtherModule,
    /// The program has a mirror, or a statement that isn't unwound.
    NotTaken,
    /// This is told of the pair that they are.
    Told(Told),
}

/// What is told of a pair, by the chooser and the budget that are asked for.
fn told_as_asked(
    alloc: Global,
    options: &Options,
    pair: &Pair,
    bounds: &Bounds,
    choosers: &mut Choosers,
) -> Result<Told, AllocError>
    requires well { IsWellFormed pair.now }
    requires some { 0 < options.now.budget }
    requires few { options.now.budget ≤ 2000000000 }
    ensures { IfOk result (IsTold pair.now bounds.now options.now.budget) }
{
    let budget = options.budget;
    match options.decide {
        Decide::Order => tell(alloc, &Unwinding, pair, bounds, &mut choosers.order, budget),
        Decide::Activity => tell(
            alloc,
            &Unwinding,
            pair,
            bounds,
            &mut choosers.activity,
            budget,
        ),
    }
}

/// What is told of a program beside a Verilog text, within the bounds and by the budget that are asked for, if the text is one
/// module with nothing in it that is the top, and the program is one that is judged. Want of memory is the only error.
pub fn told_beside(
    alloc: Global,
    options: &Options,
    program: CProgram,
    tree: &VTree,
    choosers: &mut Choosers,
) -> Result<Joined, AllocError>
    requires fits { FitsProgram program }
    requires some { 0 < options.now.budget }
    requires few { options.now.budget ≤ 2000000000 }
    ensures { IfOk result (IsJoined options.now program tree.now.modules) }
{
    let Some(name) = bare_name(tree, &options.top) else {
        return Ok(Joined::OtherModule);
    };
    if !is_taken(&program) {
        return Ok(Joined::NotTaken);
    }
    let bounds = bounds_of(alloc, options, &program)?;
    let pair = bare_pair(alloc, program, name)?;
    let told = told_as_asked(alloc, options, &pair, &bounds, choosers)?;
    Ok(Joined::Told(told))
}
