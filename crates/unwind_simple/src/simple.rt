// Expressions, assertions and assumptions.

ghost use Rattle.std.specs.Prelude.{◌≡◌, IfOk};
ghost use Rattle.joint_ir.specs.WellFormed.{Scope, FitsExpr};
ghost use Rattle.unwind_simple.specs.Simple.{MayAsk, IsValued, IsDone, is_in, setting_of, asserted_as, assumed_as};

use expression_steps::expr;
use joint_ir::program::PropId;
use joint_ir::{Bounds, Pair, TExpr, Way};
use sized_terms::SizedTerm;
use std::alloc::AllocError;
use unrolled::Unrolled;
use unwind_state::{Flow, Guard, State, cut, prop, term_of};

/// What a body is unwound in: the pair and the bounds, and the place of its function.
#[derive(Clone, Copy)]
pub struct Activation<'a> {
    pub pair: &'a Pair,
    pub bounds: &'a Bounds,
    pub here: u32,
    /// How many more activations may stand.
    pub left: u32,
    /// The functions whose activations stand, `main` first.
    pub standing: &'a [u32],
}

/// The value of an expression as a term, with its checks as steps.
pub fn value(
    net: &mut Unrolled,
    at: &Activation,
    state: &State,
    e: &TExpr,
    guard: Guard,
) -> Result<SizedTerm, AllocError>
    requires { MayAsk at.now net.old state.now e.now guard }
    ensures { IfOk result (λ t. IsValued at.now net.old net.new state.now e.now guard t) }
{
    let g = term_of(net, guard)?;
    let t = expr(net, &state.objects, at.bounds.frames, e, g)?;
    Ok(t)
}

/// An assertion: it breaks its property where its value is 0.
pub fn assert(
    net: &mut Unrolled,
    at: &Activation,
    state: &State,
    e: &TExpr,
    broken: PropId,
    guard: Guard,
) -> Result<Flow, AllocError>
    requires { MayAsk at.now net.old state.now e.now guard }
    ensures { IfOk result (λ f. (c : Scope) → is_in at.now c → FitsExpr c e.now → IsDone at.now net.old net.new state.now state.now guard f c.locals c.locals (asserted_as (setting_of at.now) e.now broken)) }
{
    let t = value(net, at, state, e, guard)?;
    prop(net, guard, broken, t)?;
    Ok(Flow::only(Way::Next, guard))
}

/// An assumption: nothing goes on where its value is 0.
pub fn assume(
    net: &mut Unrolled,
    at: &Activation,
    state: &State,
    e: &TExpr,
    guard: Guard,
) -> Result<Flow, AllocError>
    requires { MayAsk at.now net.old state.now e.now guard }
    ensures { IfOk result (λ f. (c : Scope) → is_in at.now c → FitsExpr c e.now → IsDone at.now net.old net.new state.now state.now guard f c.locals c.locals (assumed_as (setting_of at.now) e.now)) }
{
    let t = value(net, at, state, e, guard)?;
    cut(net, guard, t)?;
    Ok(Flow::only(Way::Next, guard))
}
