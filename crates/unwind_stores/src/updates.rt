// Updates: `op=`, `++` and `--`.

ghost use Rattle.std.specs.Prelude.{◌≡◌, None, Some, IfOk};
ghost use Rattle.joint_ir.specs.Steps.{update_effect};
ghost use Rattle.joint_ir.specs.WellFormed.{Scope, FitsTarget, FitsUpdate};
ghost use Rattle.unwind_simple.specs.Simple.{IsDone, MayRun, is_in, setting_of};
ghost use Rattle.unwind_stores.specs.Stores.{FitsBoth};

use crate::elements::{bounded, put_at, read_at};
use crate::operators::{first, operated, right};
use joint_ir::{TExpr, TTarget, TUpdate, Way, lookup};
use sized_terms::SizedTerm;
use std::alloc::AllocError;
use unrolled::Unrolled;
use unwind_simple::{Activation, value};
use unwind_state::{Flow, Guard, State, put};

/// An update of an object that is no array: the right operand, the operator's checks, and the store (C99 6.5.16.2).
fn update_object(
    net: &mut Unrolled,
    at: &Activation,
    state: &mut State,
    target: &TTarget,
    u: &TUpdate,
    guard: Guard,
) -> Result<Flow, AllocError>
    requires may { MayRun at.now net.old state.old guard (FitsBoth target.now u.now) }
    requires plain { target.now.index ≡ None }
    ensures { IfOk result (λ f. (c : Scope) → is_in at.now c → FitsTarget c target.now → FitsUpdate c u.now → IsDone at.now net.old net.new state.old state.new guard f c.locals c.locals (update_effect (setting_of at.now) target.now u.now)) }
{
    let ty = lookup::slot_type(&at.pair.program, target.slot);
    let y = right(net, at, state, u, guard)?;
    let old = SizedTerm {
        term: first(&state.objects, target.slot),
        width: ty.bits,
    };
    let new = operated(net, u, ty, old, y, guard)?;
    put(net, &mut state.objects, target.slot, 0, new, guard)?;
    Ok(Flow::only(Way::Next, guard))
}

/// An update of an element: its index, the test of bounds, the old value, the right operand, the operator's checks, and the store
/// (C99 6.5.16.2).
fn update_element(
    net: &mut Unrolled,
    at: &Activation,
    state: &mut State,
    target: &TTarget,
    index: &TExpr,
    u: &TUpdate,
    guard: Guard,
) -> Result<Flow, AllocError>
    requires may { MayRun at.now net.old state.old guard (FitsBoth target.now u.now) }
    requires index { target.now.index ≡ Some index.now }
    ensures { IfOk result (λ f. (c : Scope) → is_in at.now c → FitsTarget c target.now → FitsUpdate c u.now → IsDone at.now net.old net.new state.old state.new guard f c.locals c.locals (update_effect (setting_of at.now) target.now u.now)) }
{
    let slot = target.slot;
    let ty = lookup::slot_type(&at.pair.program, slot);
    let count = lookup::slot_length(&at.pair.program, slot);
    let i = value(net, at, state, index, guard)?;
    bounded(net, target.bounds, i, index.ty, count, guard)?;
    let old = read_at(net, state.objects.elements(slot), i, ty.bits)?;
    let y = right(net, at, state, u, guard)?;
    let new = operated(net, u, ty, old, y, guard)?;
    put_at(net, &mut state.objects, slot, count, i, new, guard)?;
    Ok(Flow::only(Way::Next, guard))
}

/// `x op= e`, `x++` and `x--` of an object or of an element of an array (C99 6.5.16.2, 6.5.2.4, 6.5.3.1).
pub fn update(
    net: &mut Unrolled,
    at: &Activation,
    state: &mut State,
    target: &TTarget,
    u: &TUpdate,
    guard: Guard,
) -> Result<Flow, AllocError>
    requires { MayRun at.now net.old state.old guard (FitsBoth target.now u.now) }
    ensures { IfOk result (λ f. (c : Scope) → is_in at.now c → FitsTarget c target.now → FitsUpdate c u.now → IsDone at.now net.old net.new state.old state.new guard f c.locals c.locals (update_effect (setting_of at.now) target.now u.now)) }
{
    let _ = net.terms.len();
    match &target.index {
        None => {
            let f = update_object(net, at, state, target, u, guard)?;
            Ok(f)
        }
        Some(index) => {
            let f = update_element(net, at, state, target, index.get(), u, guard)?;
            Ok(f)
        }
    }
}
