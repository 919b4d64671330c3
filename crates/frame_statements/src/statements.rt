// The two statements that reach the module.

ghost use Rattle.std.specs.Prelude.{◌≡◌, IfOk};
ghost use Rattle.joint_ir.specs.declared.stmt.SNode.{SetInputs, NextFrame};
ghost use Rattle.joint_ir.specs.Steps.{set_inputs as inputs_of, next_frame as frame_of};
ghost use Rattle.joint_ir.specs.WellFormed.{Scope, FitsStmt};
ghost use Rattle.unwind_simple.specs.Simple.{IsDone, MayRun, is_in, setting_of};

use crate::fitting::has_module;
use joint_ir::Way;
use joint_ir::program::PropId;
use std::alloc::{AllocError, Global};
use unrolled::Unrolled;
use unwind_frames::{next_frame, set_inputs};
use unwind_simple::Activation;
use unwind_state::{Flow, Guard, State};

/// `set_inputs()` under a guard.
pub fn inputs_set(
    alloc: Global,
    net: &mut Unrolled,
    at: &Activation,
    state: &mut State,
    guard: Guard,
) -> Result<Flow, AllocError>
    requires { MayRun at.now net.old state.old guard (λ c. FitsStmt c SetInputs) }
    ensures { IfOk result (λ f. (c : Scope) → is_in at.now c → IsDone at.now net.old net.new state.old state.new guard f c.locals c.locals (inputs_of (setting_of at.now))) }
{
    let fits = has_module(alloc, net, at.pair, state)?;
    if !fits {
        return Err(AllocError);
    }
    set_inputs(alloc, net, at.pair, state, guard)?;
    Ok(Flow::only(Way::Next, guard))
}

/// `next_timeframe()` under a guard, with its `frame` property.
pub fn frame_taken(
    alloc: Global,
    net: &mut Unrolled,
    at: &Activation,
    state: &mut State,
    broken: PropId,
    guard: Guard,
) -> Result<Flow, AllocError>
    requires { MayRun at.now net.old state.old guard (λ c. FitsStmt c (NextFrame broken)) }
    ensures { IfOk result (λ f. (c : Scope) → is_in at.now c → IsDone at.now net.old net.new state.old state.new guard f c.locals c.locals (frame_of (setting_of at.now) broken)) }
{
    let fits = has_module(alloc, net, at.pair, state)?;
    if !fits {
        return Err(AllocError);
    }
    next_frame(alloc, net, at.pair, at.bounds, broken, state, guard)?;
    Ok(Flow::only(Way::Next, guard))
}
