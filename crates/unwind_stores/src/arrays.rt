// Declarations of arrays, element by element.

ghost use Rattle.std.specs.Prelude.{◌≡◌, ℕ, ◌<◌, ◌∷◌, IfOk, OnOk};
ghost use Rattle.joint_ir.specs.declared.expr.Slot.TheVariants.{Local};
ghost use Rattle.joint_ir.specs.Steps.{declare_effect, slot_type};
ghost use Rattle.joint_ir.specs.Weights.{slot_length};
ghost use Rattle.joint_ir.specs.WellFormed.{Scope, FitsDeclare};
ghost use Rattle.unwind_simple.specs.Simple.{IsDone, MayRun, calls_in, is_in, setting_of};
ghost use Rattle.unwind_stores.specs.Arrays.{IsElement, IsSetAt};

use checked_terms::literal;
use joint_ir::{IntType, Slot, TInit, Way, lookup};
use sized_terms::SizedTerm;
use std::alloc::AllocError;
use unrolled::{Unrolled, room};
use unwind_simple::{Activation, value};
use unwind_state::{Flow, Guard, State, draw, put};

/// The value of an element of an array that is declared: any, that of its expression, or 0 (C99 6.7.8 paragraph 21).
fn element_value(
    net: &mut Unrolled,
    at: &Activation,
    state: &State,
    local: u32,
    ty: IntType,
    init: &TInit,
    place: u32,
    guard: Guard,
) -> Result<SizedTerm, AllocError>
    requires may { MayRun at.now net.old state.now guard (λ c. FitsDeclare c local init.now) }
    requires ty { ty ≡ slot_type at.now.pair.now.program (Local local) }
    requires within { place < slot_length at.now.pair.now.program (Local local) }
    ensures { IfOk result (λ t. IsElement at.now net.old net.new state.now local ty init.now place guard t) }
{
    // The terms are a graph.
    let _ = net.terms.len();
    match init {
        TInit::Free => {
            let t = draw(net, guard, ty.bits)?;
            Ok(t)
        }
        TInit::Values(es) => {
            let es = es.as_slice();
            if (place as usize) < es.len() {
                let t = value(net, at, state, &es[place as usize], guard)?;
                Ok(t)
            } else {
                room(net, 1)?;
                let t = literal(&mut net.terms, ty, 0)?;
                Ok(t)
            }
        }
        TInit::Called(_) => Err(AllocError),
    }
}

/// An element of an array that is declared takes its value.
fn set_element(
    net: &mut Unrolled,
    at: &Activation,
    state: &mut State,
    local: u32,
    init: &TInit,
    place: u32,
    guard: Guard,
) -> Result<(), AllocError>
    requires may { MayRun at.now net.old state.old guard (λ c. FitsDeclare c local init.now) }
    requires within { place < slot_length at.now.pair.now.program (Local local) }
    ensures { OnOk result (IsSetAt at.now net.old net.new state.old state.new local init.now place guard) }
{
    let ty = lookup::slot_type(&at.pair.program, Slot::Local(local));
    let t = element_value(net, at, state, local, ty, init, place, guard)?;
    put(net, &mut state.objects, Slot::Local(local), place, t, guard)?;
    Ok(())
}

/// A declaration of an array: its elements take their values one after another.
pub fn declare_array(
    net: &mut Unrolled,
    at: &Activation,
    state: &mut State,
    local: u32,
    init: &TInit,
    guard: Guard,
) -> Result<Flow, AllocError>
    requires may { MayRun at.now net.old state.old guard (λ c. FitsDeclare c local init.now) }
    requires array { 0 < slot_length at.now.pair.now.program (Local local) }
    ensures { IfOk result (λ f. (line : ℕ) (c : Scope) → is_in at.now c → FitsDeclare c local init.now → IsDone at.now net.old net.new state.old state.new guard f c.locals (local ∷ c.locals) (declare_effect (setting_of at.now) (calls_in at.now) line local init.now)) }
{
    let _ = net.terms.len();
    let count = lookup::slot_length(&at.pair.program, Slot::Local(local));
    for place in 0..count {
        set_element(net, at, state, local, init, place, guard)?;
    }
    Ok(Flow::only(Way::Next, guard))
}
