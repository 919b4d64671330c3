// Whether a call may begin an activation, and a call that may not.

ghost use Rattle.std.specs.Prelude.{◌≡◌, eqb, count_by, IfOk, IfSome};
ghost use Rattle.joint_ir.specs.Steps.{type_or_int as type_or_int_of};
ghost use Rattle.joint_ir.specs.Types.{IsType};
ghost use Rattle.joint_ir.specs.WellFormed.{IsWellFormed};
ghost use Rattle.unwind_state.specs.Guards.{HasGuard};
ghost use Rattle.unwind_calls.specs.Calls.{may_enter as may_enter_in, IsNought, IsRefused};

use checked_terms::literal;
use joint_ir::{Function, INT, IntType, lookup};
use sized_terms::SizedTerm;
use std::alloc::AllocError;
use unrolled::{Unrolled, room};
use unwind_simple::Activation;
use unwind_state::{Guard, prop};

/// The number of activations of a function among those that stand.
fn activations(standing: &[u32], function: u32) -> usize
    ensures { result ≡ count_by (λ g. eqb function g) standing.now }
{
    let mut n = 0;
    for g in standing {
        if *g == function {
            n += 1;
        }
    }
    n
}

/// Whether a function may have one more activation: one is left, and the function has fewer than its limit.
pub fn may_enter(at: &Activation, function: u32, callee: &Function) -> bool
    requires { IsWellFormed at.now.pair.now }
    ensures { result ≡ may_enter_in at.now function callee.now }
{
    let limit = lookup::function_limit(at.bounds, &at.pair.program, callee);
    at.left > 0 && activations(at.standing, function) < limit as usize
}

/// A type, and `int` where there is none.
fn type_or_int(ty: Option<IntType>) -> IntType
    ensures { result ≡ type_or_int_of ty }
{
    match ty {
        None => INT,
        Some(ty) => ty,
    }
}

/// A term of a result's type that is 0: what an activation's result is before a `return`.
pub fn nought(net: &mut Unrolled, ty: Option<IntType>) -> Result<SizedTerm, AllocError>
    requires { IfSome ty IsType }
    ensures { IfOk result (λ t. IsNought net.old net.new (type_or_int_of ty) t) }
{
    let ty = type_or_int(ty);
    room(net, 1)?;
    let t = literal(&mut net.terms, ty, 0)?;
    Ok(t)
}

/// A call that may not begin an activation: its function's `recursion` property breaks where the guard is 1. The term stands for
/// what would have been handed on.
pub fn refuse(
    net: &mut Unrolled,
    at: &Activation,
    callee: &Function,
    guard: Guard,
) -> Result<SizedTerm, AllocError>
    requires well { IsWellFormed at.now.pair.now }
    requires typed { IfSome callee.now.result IsType }
    requires guard { HasGuard net.old.terms guard }
    ensures { IfOk result (λ t. IsRefused at.now net.old net.new callee.now guard t) }
{
    let t = nought(net, callee.result)?;
    let broken = lookup::recursion(&at.pair.program, callee);
    prop(net, guard, broken, t)?;
    Ok(t)
}
