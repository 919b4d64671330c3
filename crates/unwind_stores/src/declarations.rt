// Declarations of locals.

ghost use Rattle.std.specs.Prelude.{◌≡◌, ℕ, ◌∷◌, IfOk};
ghost use Rattle.joint_ir.specs.declared.expr.Slot.TheVariants.{Local};
ghost use Rattle.joint_ir.specs.Steps.{declare_effect};
ghost use Rattle.joint_ir.specs.Weights.{slot_length};
ghost use Rattle.joint_ir.specs.WellFormed.{Scope, FitsDeclare};
ghost use Rattle.unwind_simple.specs.Simple.{IsDone, MayRun, calls_in, is_in, setting_of};

use crate::arrays::declare_array;
use joint_ir::{Slot, TInit, Way, lookup};
use std::alloc::AllocError;
use unrolled::Unrolled;
use unwind_simple::{Activation, init_value};
use unwind_state::{Flow, Guard, State, put};

/// A declaration of a local that is no array.
fn declare_object(
    net: &mut Unrolled,
    at: &Activation,
    state: &mut State,
    local: u32,
    init: &TInit,
    guard: Guard,
) -> Result<Flow, AllocError>
    requires may { MayRun at.now net.old state.old guard (λ c. FitsDeclare c local init.now) }
    requires plain { slot_length at.now.pair.now.program (Local local) ≡ 0 }
    ensures { IfOk result (λ f. (line : ℕ) (c : Scope) → is_in at.now c → FitsDeclare c local init.now → IsDone at.now net.old net.new state.old state.new guard f c.locals (local ∷ c.locals) (declare_effect (setting_of at.now) (calls_in at.now) line local init.now)) }
{
    let ty = lookup::slot_type(&at.pair.program, Slot::Local(local));
    let t = init_value(net, at, state, ty, init, guard)?;
    put(net, &mut state.objects, Slot::Local(local), 0, t, guard)?;
    Ok(Flow::only(Way::Next, guard))
}

/// A declaration of a local, which is set or takes any value (C99 6.8 paragraph 3).
pub fn declare(
    net: &mut Unrolled,
    at: &Activation,
    state: &mut State,
    local: u32,
    init: &TInit,
    guard: Guard,
) -> Result<Flow, AllocError>
    requires { MayRun at.now net.old state.old guard (λ c. FitsDeclare c local init.now) }
    ensures { IfOk result (λ f. (line : ℕ) (c : Scope) → is_in at.now c → FitsDeclare c local init.now → IsDone at.now net.old net.new state.old state.new guard f c.locals (local ∷ c.locals) (declare_effect (setting_of at.now) (calls_in at.now) line local init.now)) }
{
    if lookup::slot_length(&at.pair.program, Slot::Local(local)) == 0 {
        let f = declare_object(net, at, state, local, init, guard)?;
        Ok(f)
    } else {
        let f = declare_array(net, at, state, local, init, guard)?;
        Ok(f)
    }
}
