// Stores, through an index or not.

ghost use Rattle.std.specs.Prelude.{◌≡◌, Some, false, IfOk};
ghost use Rattle.joint_ir.specs.Steps.{store_effect};
ghost use Rattle.joint_ir.specs.WellFormed.{Scope, FitsTarget, FitsInit};
ghost use Rattle.unwind_simple.specs.Simple.{IsDone, MayRun, calls_in, is_in, setting_of, stored_type};

use crate::elements::{bounded, put_at};
use joint_ir::{TExpr, TInit, TTarget, Way, lookup};
use std::alloc::AllocError;
use unrolled::Unrolled;
use unwind_simple::{Activation, init_value, value};
use unwind_state::{Flow, Guard, State};

/// A store to an element: its index, the value, the test of bounds, and the store (C99 6.5.16.1).
fn store_element(
    net: &mut Unrolled,
    at: &Activation,
    state: &mut State,
    target: &TTarget,
    index: &TExpr,
    init: &TInit,
    guard: Guard,
) -> Result<Flow, AllocError>
    requires may { MayRun at.now net.old state.old guard (λ c. FitsTarget c target.now × FitsInit c false (stored_type at.now target.now) init.now) }
    requires index { target.now.index ≡ Some index.now }
    ensures { IfOk result (λ f. (c : Scope) → is_in at.now c → FitsTarget c target.now → FitsInit c false (stored_type at.now target.now) init.now → IsDone at.now net.old net.new state.old state.new guard f c.locals c.locals (store_effect (setting_of at.now) (calls_in at.now) target.now init.now)) }
{
    let ty = lookup::slot_type(&at.pair.program, target.slot);
    let count = lookup::slot_length(&at.pair.program, target.slot);
    let i = value(net, at, state, index, guard)?;
    let t = init_value(net, at, state, ty, init, guard)?;
    bounded(net, target.bounds, i, index.ty, count, guard)?;
    put_at(net, &mut state.objects, target.slot, count, i, t, guard)?;
    Ok(Flow::only(Way::Next, guard))
}

/// A store of a value, to an object or to an element of an array (C99 6.5.16.1).
pub fn store(
    net: &mut Unrolled,
    at: &Activation,
    state: &mut State,
    target: &TTarget,
    init: &TInit,
    guard: Guard,
) -> Result<Flow, AllocError>
    requires { MayRun at.now net.old state.old guard (λ c. FitsTarget c target.now × FitsInit c false (stored_type at.now target.now) init.now) }
    ensures { IfOk result (λ f. (c : Scope) → is_in at.now c → FitsTarget c target.now → FitsInit c false (stored_type at.now target.now) init.now → IsDone at.now net.old net.new state.old state.new guard f c.locals c.locals (store_effect (setting_of at.now) (calls_in at.now) target.now init.now)) }
{
    let _ = net.terms.len();
    match &target.index {
        None => {
            let f = unwind_simple::store(net, at, state, target, init, guard)?;
            Ok(f)
        }
        Some(index) => {
            let f = store_element(net, at, state, target, index.get(), init, guard)?;
            Ok(f)
        }
    }
}
