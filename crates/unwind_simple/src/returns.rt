// What a body returns, and a call that is a statement.

ghost use Rattle.std.specs.Prelude.{◌≡◌, Some, IfOk};
ghost use Rattle.joint_ir.specs.declared.stmt.SNode.{Return};
ghost use Rattle.joint_ir.specs.Steps.{call_effect, return_effect};
ghost use Rattle.joint_ir.specs.WellFormed.{Scope, FitsCall, FitsStmt};
ghost use Rattle.unwind_simple.specs.Simple.{MayRun, IsDone, calls_in, is_in, result_in, setting_of};

use crate::inits::{init_value, open_result};
use crate::simple::Activation;
use joint_ir::{IntType, TCall, TInit, Way};
use std::alloc::AllocError;
use unrolled::Unrolled;
use unwind_state::{Flow, Guard, State, chosen, draw};

/// The type of the activation's result, if its function has one.
fn own_result(at: &Activation) -> Option<IntType>
    ensures { result ≡ result_in at.now }
{
    match at.pair.program.functions.get(at.here as usize) {
        None => None,
        Some(function) => function.result,
    }
}

/// A `return`: where the guard is 1 the result becomes the value, if there is one (C99 6.8.6.4).
pub fn give_back(
    net: &mut Unrolled,
    at: &Activation,
    state: &mut State,
    init: &Option<TInit>,
    guard: Guard,
) -> Result<Flow, AllocError>
    requires { MayRun at.now net.old state.old guard (λ c. FitsStmt c (Return init.now)) }
    ensures { IfOk result (λ f. (c : Scope) → is_in at.now c → FitsStmt c (Return init.now) → IsDone at.now net.old net.new state.old state.new guard f c.locals c.locals (return_effect (setting_of at.now) (calls_in at.now) init.now)) }
{
    // The terms are a graph.
    let _ = net.terms.len();
    match init {
        None => Ok(Flow::only(Way::Returning, guard)),
        Some(init) => {
            let f = give_value(net, at, state, init, guard)?;
            Ok(f)
        }
    }
}

/// A `return` with a value.
fn give_value(
    net: &mut Unrolled,
    at: &Activation,
    state: &mut State,
    init: &TInit,
    guard: Guard,
) -> Result<Flow, AllocError>
    requires { MayRun at.now net.old state.old guard (λ c. FitsStmt c (Return (Some init.now))) }
    ensures { IfOk result (λ f. (c : Scope) → is_in at.now c → FitsStmt c (Return (Some init.now)) → IsDone at.now net.old net.new state.old state.new guard f c.locals c.locals (return_effect (setting_of at.now) (calls_in at.now) (Some init.now))) }
{
    let Some(ty) = own_result(at) else {
        return Err(AllocError);
    };
    let t = init_value(net, at, state, ty, init, guard)?;
    state.result = chosen(net, guard, t, state.result)?;
    Ok(Flow::only(Way::Returning, guard))
}

/// A call that is a statement. One of a function with a body or with arguments ends as want of memory does.
pub fn called(
    net: &mut Unrolled,
    at: &Activation,
    state: &State,
    call: &TCall,
    guard: Guard,
) -> Result<Flow, AllocError>
    requires { MayRun at.now net.old state.now guard (λ c. FitsCall c call.now) }
    ensures { IfOk result (λ f. (c : Scope) → is_in at.now c → IsDone at.now net.old net.new state.now state.now guard f c.locals c.locals (call_effect (setting_of at.now) (calls_in at.now) call.now)) }
{
    let Some(ty) = open_result(at, call) else {
        return Err(AllocError);
    };
    draw(net, guard, ty.bits)?;
    Ok(Flow::only(Way::Next, guard))
}
