// Stores to objects that are no arrays.

ghost use Rattle.std.specs.Prelude.{◌≡◌, None, false, IfOk};
ghost use Rattle.joint_ir.specs.Steps.{store_effect};
ghost use Rattle.joint_ir.specs.WellFormed.{Scope, FitsInit, FitsTarget};
ghost use Rattle.unwind_simple.specs.Simple.{MayRun, IsDone, calls_in, is_in, setting_of, stored_type};

use crate::inits::init_value;
use crate::simple::Activation;
use joint_ir::{TInit, TTarget, Way, lookup};
use std::alloc::AllocError;
use unrolled::Unrolled;
use unwind_state::{Flow, Guard, State, put};

/// A store to an object that is no array (C99 6.5.16.1).
pub fn store(
    net: &mut Unrolled,
    at: &Activation,
    state: &mut State,
    target: &TTarget,
    init: &TInit,
    guard: Guard,
) -> Result<Flow, AllocError>
    requires fits { MayRun at.now net.old state.old guard (λ c. FitsTarget c target.now × FitsInit c false (stored_type at.now target.now) init.now) }
    requires plain { target.now.index ≡ None }
    ensures { IfOk result (λ f. (c : Scope) → is_in at.now c → FitsTarget c target.now → FitsInit c false (stored_type at.now target.now) init.now → IsDone at.now net.old net.new state.old state.new guard f c.locals c.locals (store_effect (setting_of at.now) (calls_in at.now) target.now init.now)) }
{
    let ty = lookup::slot_type(&at.pair.program, target.slot);
    let t = init_value(net, at, state, ty, init, guard)?;
    put(net, &mut state.objects, target.slot, 0, t, guard)?;
    Ok(Flow::only(Way::Next, guard))
}
