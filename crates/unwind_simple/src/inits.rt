// What an object is set to, and what is returned.

ghost use Rattle.std.specs.Prelude.{◌≡◌, true, IfOk, IfSome};
ghost use Rattle.joint_ir.specs.Types.{IsType};
ghost use Rattle.joint_ir.specs.WellFormed.{FitsInit};
ghost use Rattle.unwind_simple.specs.Simple.{MayRun};
ghost use Rattle.unwind_simple.specs.Obtaining.{IsObtained, IsOpen};

use crate::simple::{Activation, value};
use joint_ir::{IntType, TCall, TExprList, TInit};
use sized_terms::SizedTerm;
use std::alloc::AllocError;
use unrolled::{Unrolled, room};
use unwind_state::{Guard, State, draw};

/// The value that an object of a type is set to, or that is returned: that of an expression, any number, or a call's result,
/// converted to the type. A call of a function with a body or with arguments ends as want of memory does.
pub fn init_value(
    net: &mut Unrolled,
    at: &Activation,
    state: &State,
    ty: IntType,
    init: &TInit,
    guard: Guard,
) -> Result<SizedTerm, AllocError>
    requires fits { MayRun at.now net.old state.now guard (λ c. FitsInit c true ty init.now) }
    requires ty { IsType ty }
    ensures { IfOk result (λ t. IsObtained at.now net.old net.new state.now ty init.now guard t) }
{
    // The terms are a graph.
    let _ = net.terms.len();
    match init {
        TInit::Free => {
            let t = draw(net, guard, ty.bits)?;
            Ok(t)
        }
        TInit::Values(es) => {
            let t = one_value(net, at, state, ty, es, guard)?;
            Ok(t)
        }
        TInit::Called(call) => {
            let t = result_value(net, at, state, ty, call, guard)?;
            Ok(t)
        }
    }
}

/// The value of one expression.
fn one_value(
    net: &mut Unrolled,
    at: &Activation,
    state: &State,
    ty: IntType,
    es: &TExprList,
    guard: Guard,
) -> Result<SizedTerm, AllocError>
    requires { MayRun at.now net.old state.now guard (λ c. FitsInit c true ty (TInit.Values es.now)) }
    ensures { IfOk result (λ t. IsObtained at.now net.old net.new state.now ty (TInit.Values es.now) guard t) }
{
    let es = es.as_slice();
    if es.len() != 1 {
        return Err(AllocError);
    }
    let t = value(net, at, state, &es[0], guard)?;
    Ok(t)
}

/// The type of any number that a call gives, if its function has no body and no parameter.
pub fn open_result(at: &Activation, call: &TCall) -> Option<IntType>
    ensures { IfSome result (λ ty. IsOpen at.now call.now ty) }
{
    let function = at.pair.program.functions.get(call.function as usize)?;
    if function.body.is_some() || call.args.len() != 0 {
        return None;
    }
    function.result
}

/// The result of a call, converted to a type.
fn result_value(
    net: &mut Unrolled,
    at: &Activation,
    state: &State,
    ty: IntType,
    call: &TCall,
    guard: Guard,
) -> Result<SizedTerm, AllocError>
    requires fits { MayRun at.now net.old state.now guard (λ c. FitsInit c true ty (TInit.Called call.now)) }
    requires ty { IsType ty }
    ensures { IfOk result (λ t. IsObtained at.now net.old net.new state.now ty (TInit.Called call.now) guard t) }
{
    let Some(from) = open_result(at, call) else {
        return Err(AllocError);
    };
    let drawn = draw(net, guard, from.bits)?;
    room(net, 1)?;
    let t = checked_terms::converted(&mut net.terms, from, ty, drawn)?;
    Ok(t)
}
