// A condition.

ghost use Rattle.std.specs.Prelude.{IfOk};
ghost use Rattle.unwind_simple.specs.Simple.{MayAsk};
ghost use Rattle.unwind_blocks.specs.Blocks.{IsTested};

use joint_ir::TExpr;
use std::alloc::AllocError;
use unrolled::{Unrolled, room};
use unwind_simple::{Activation, value};
use unwind_state::{Guard, Sides, State, split};

/// The guards of the two sides of a condition.
pub fn tested(
    net: &mut Unrolled,
    at: &Activation,
    state: &State,
    e: &TExpr,
    guard: Guard,
) -> Result<Sides, AllocError>
    requires { MayAsk at.now net.old state.now e.now guard }
    ensures { IfOk result (λ sides. IsTested at.now net.old net.new state.now e.now guard sides) }
{
    let t = value(net, at, state, e, guard)?;
    room(net, 1)?;
    let set = checked_terms::is_set(&mut net.terms, t)?;
    let sides = split(net, guard, set)?;
    Ok(sides)
}
