// Statements in one another.

ghost use Rattle.std.specs.Prelude.{◌≡◌, ◌∷◌, ℕ, All, IfOk, None, Some, false, length, slice_get, true};
ghost use Rattle.joint_ir.specs.declared.expr.Slot.TheVariants.{Local};
ghost use Rattle.joint_ir.specs.declared.stmt.SNode.{Return};
ghost use Rattle.joint_ir.specs.Weights.{slot_length};
ghost use Rattle.joint_ir.specs.Statements.{after, after_loop};
ghost use Rattle.joint_ir.specs.Steps.{call_effect, declare_effect, return_effect, store_effect};
ghost use Rattle.joint_ir.specs.Types.{IsType};
ghost use Rattle.joint_ir.specs.WellFormed.{Scope, FitsCall, FitsDeclare, FitsInit, FitsStmt, FitsTarget, FitsLoop, IsWellFormed, declared_behind};
ghost use Rattle.joint_lists.specs.Lists.{after_items, after_option, FitsCases, FitsItems, FitsOptional};
ghost use Rattle.sized_terms.specs.Sized.{Has};
ghost use Rattle.switch_guards.specs.Entries.{FitLabels};
ghost use Rattle.unrolled.specs.declared.Unrolled.{Unrolled as Unrolling};
ghost use Rattle.unwind_state.specs.Guards.{HasGuard};
ghost use Rattle.unwind_state.specs.Writing.{HasObjects};
ghost use Rattle.unwind_simple.specs.Simple.{IsDone, MayRun, calls_in, is_in, setting_of, stored_type};
ghost use Rattle.unwind_calls.specs.Arguments.{AreArguments, FitParams};
ghost use Rattle.unwind_calls.specs.Calls.{IsCalled, IsReceived, may_enter as may_enter_in};
ghost use Rattle.unwind_blocks.specs.Blocks.{IsUnwound, AreUnwound, behind_items};
ghost use Rattle.unwind_blocks.specs.Switches.{AreCases};
ghost use Rattle.unwind_blocks.specs.Loops.{FitsTurn, IsPart, turn_of, loop_in};

use crate::loops::{begun, ended, test};
use crate::results::{as_type, own_result, runs_body};
use crate::tests_of::tested;
use frame_statements::{frame_taken, inputs_set};
use joint_ir::{
    Function, Group, IntType, SNode, Slot, TCall, TExpr, TInit, TLoop, TStmt, TTarget, Way, lookup,
};
use sized_terms::SizedTerm;
use sqlite_items::Boxed;
use std::alloc::{AllocError, Global};
use switch_guards::{enter_groups, entered, switched};
use unrolled::Unrolled;
use unwind_calls::{arguments, begin, leave, may_enter, refuse};
use unwind_simple::{Activation, assert, assume, called, give_back, value};
use unwind_state::{Flow, Guard, State, chosen, joined, merged, put, turned};
use unwind_stores::{bounded, declare, put_at, store, update};

/// A statement under a guard, with the guards of the ways on. What isn't made yet of them ends as want of memory does.
#[cycle(blocks)]
pub fn stmt(
    alloc: Global,
    net: &mut Unrolled,
    at: &Activation,
    state: &mut State,
    s: &TStmt,
    guard: Guard,
) -> Result<Flow, AllocError>
    requires { MayRun at.now net.old state.old guard (λ c. FitsStmt c s.now.node) }
    ensures { IfOk result (λ f. (c : Scope) → is_in at.now c → FitsStmt c s.now.node → IsUnwound at.now net.old net.new state.old state.new guard f c.locals (declared_behind s.now.node c.locals) (after (setting_of at.now) (calls_in at.now) s.now.place s.now.node)) }
{
    // The terms are a graph.
    let _ = net.terms.len();
    match &s.node {
        SNode::Block(items) => {
            let f = block(alloc, net, at, state, items.as_slice(), guard)?;
            Ok(f)
        }
        SNode::Declare(local, init) => {
            let f = declared(alloc, net, at, state, *local, init, guard)?;
            Ok(f)
        }
        SNode::Store(target, init) => {
            let f = stored(alloc, net, at, state, target, init, guard)?;
            Ok(f)
        }
        SNode::Update(target, u) => {
            let f = update(net, at, state, target, u, guard)?;
            Ok(f)
        }
        SNode::Call(call) => {
            let f = call_made(alloc, net, at, state, call, guard)?;
            Ok(f)
        }
        SNode::If(e, body, other) => {
            let sides = tested(net, at, state, e.get(), guard)?;
            let a = stmt(alloc, net, at, state, body.get(), sides.taken)?;
            let b = optional(alloc, net, at, state, other, sides.other)?;
            let f = joined(net, a, b)?;
            Ok(f)
        }
        SNode::Loop(one) => {
            let f = repeat(alloc, net, at, state, one, guard)?;
            Ok(f)
        }
        SNode::Switch(e, groups) => {
            let e = e.get();
            let t = value(net, at, state, e, guard)?;
            let f = cases(alloc, net, at, state, groups.as_slice(), e.ty, t, guard)?;
            Ok(f)
        }
        SNode::Break => Ok(Flow::only(Way::Breaking, guard)),
        SNode::Continue => Ok(Flow::only(Way::Continuing, guard)),
        SNode::Return(init) => {
            let f = returned(alloc, net, at, state, init, guard)?;
            Ok(f)
        }
        SNode::Assert(e, broken) => {
            let f = assert(net, at, state, e.get(), *broken, guard)?;
            Ok(f)
        }
        SNode::Assume(e) => {
            let f = assume(net, at, state, e.get(), guard)?;
            Ok(f)
        }
        SNode::SetInputs => {
            let f = inputs_set(alloc, net, at, state, guard)?;
            Ok(f)
        }
        SNode::NextFrame(broken) => {
            let f = frame_taken(alloc, net, at, state, *broken, guard)?;
            Ok(f)
        }
    }
}

/// A statement that may be left out.
#[cycle(blocks)]
fn optional(
    alloc: Global,
    net: &mut Unrolled,
    at: &Activation,
    state: &mut State,
    other: &Option<Boxed<TStmt>>,
    guard: Guard,
) -> Result<Flow, AllocError>
    requires { MayRun at.now net.old state.old guard (λ c. FitsOptional c other.now) }
    ensures { IfOk result (λ f. (c : Scope) → is_in at.now c → FitsOptional c other.now → IsUnwound at.now net.old net.new state.old state.new guard f c.locals c.locals (after_option (setting_of at.now) (calls_in at.now) other.now)) }
{
    let _ = net.terms.len();
    match other {
        None => Ok(Flow::only(Way::Next, guard)),
        Some(s) => {
            let f = stmt(alloc, net, at, state, s.get(), guard)?;
            Ok(f)
        }
    }
}

/// Statements, one after another.
#[cycle(blocks)]
fn block(
    alloc: Global,
    net: &mut Unrolled,
    at: &Activation,
    state: &mut State,
    items: &[TStmt],
    guard: Guard,
) -> Result<Flow, AllocError>
    requires { MayRun at.now net.old state.old guard (λ c. FitsItems c items.now) }
    ensures { IfOk result (λ f. (c : Scope) → is_in at.now c → FitsItems c items.now → AreUnwound at.now net.old net.new state.old state.new guard f c.locals (behind_items items.now c.locals) (after_items (setting_of at.now) (calls_in at.now) items.now)) }
{
    let _ = net.terms.len();
    let mut ways = Flow::only(Way::Next, guard);
    for s in items {
        let f = stmt(alloc, net, at, state, s, ways.next)?;
        ways = merged(net, ways, f)?;
    }
    Ok(ways)
}

/// A loop: at most so many turns as its limit (C99 6.8.5).
#[cycle(blocks)]
fn repeat(
    alloc: Global,
    net: &mut Unrolled,
    at: &Activation,
    state: &mut State,
    one: &TLoop,
    guard: Guard,
) -> Result<Flow, AllocError>
    requires { MayRun at.now net.old state.old guard (λ c. FitsLoop c one.now) }
    ensures { IfOk result (λ f. (c : Scope) → is_in at.now c → FitsLoop c one.now → IsUnwound at.now net.old net.new state.old state.new guard f c.locals c.locals (after_loop (setting_of at.now) (calls_in at.now) one.now)) }
{
    let heads = block(alloc, net, at, state, one.heads.as_slice(), guard)?;
    let rest = turns(alloc, net, at, state, one, heads.next)?;
    let f = merged(net, heads, rest)?;
    Ok(f)
}

/// A loop behind the first part of a `for`: so many turns as its limit, behind each the test of the next one.
#[cycle(blocks)]
fn turns(
    alloc: Global,
    net: &mut Unrolled,
    at: &Activation,
    state: &mut State,
    one: &TLoop,
    guard: Guard,
) -> Result<Flow, AllocError>
    requires { MayRun at.now net.old state.old guard (λ c. FitsTurn c one.now) }
    ensures { IfOk result (λ f. (c : Scope) → is_in at.now c → FitsTurn c one.now → IsUnwound at.now net.old net.new state.old state.new guard f c.locals c.locals (loop_in at.now one.now)) }
{
    let mut ways = begun(net, at, state, one, guard)?;
    let limit = lookup::limit(at.bounds, one.unwind);
    for turn in 0..limit {
        let f = round(alloc, net, at, state, one, ways.next)?;
        ways = merged(net, ways, f)?;
    }
    let f = ended(net, ways, one.unwind)?;
    Ok(f)
}

/// A turn of a loop: its body, the last part of a `for`, and the test of the next turn.
#[cycle(blocks)]
fn round(
    alloc: Global,
    net: &mut Unrolled,
    at: &Activation,
    state: &mut State,
    one: &TLoop,
    guard: Guard,
) -> Result<Flow, AllocError>
    requires { MayRun at.now net.old state.old guard (λ c. FitsTurn c one.now) }
    ensures { IfOk result (λ f. (c : Scope) → is_in at.now c → FitsTurn c one.now → IsPart at.now net.old net.new state.old state.new guard f c.locals (turn_of at.now one.now)) }
{
    let a = stmt(alloc, net, at, state, one.body.get(), guard)?;
    let body = turned(net, a)?;
    let last = optional(alloc, net, at, state, &one.step, body.next)?;
    let next = test(net, at, state, &one.cond, last.next)?;
    let rest = merged(net, last, next)?;
    let f = merged(net, body, rest)?;
    Ok(f)
}

/// The groups of a `switch` over a value: each runs where control enters it, or falls through from the one before it
/// (C99 6.8.4.2).
#[cycle(blocks)]
fn cases(
    alloc: Global,
    net: &mut Unrolled,
    at: &Activation,
    state: &mut State,
    groups: &[Group],
    ty: IntType,
    value: SizedTerm,
    guard: Guard,
) -> Result<Flow, AllocError>
    requires run { MayRun at.now net.old state.old guard (λ c. FitsCases c groups.now) }
    requires has { Has net.old.terms value }
    requires width { value.width ≡ ty.bits }
    requires ty { IsType ty }
    requires fit { FitLabels ty groups.now }
    ensures { IfOk result (λ f. (c : Scope) → is_in at.now c → FitsCases c groups.now → AreCases at.now net.old net.new state.old state.new guard f c.locals ty value groups.now) }
{
    let entries = enter_groups(alloc, net, ty, value, groups, guard)?;
    let mut ways = Flow::only(Way::Next, Guard::Never);
    for i in 0..groups.len() {
        let entry = entries.groups[i];
        let here = entered(net, ways, entry)?;
        let f = block(alloc, net, at, state, groups[i].body.as_slice(), here.next)?;
        ways = merged(net, here, f)?;
    }
    let last = entered(net, ways, entries.past)?;
    let f = switched(net, last)?;
    Ok(f)
}

/// A call that is a statement. One of a function without a body gives any number (`called`).
#[cycle(blocks)]
fn call_made(
    alloc: Global,
    net: &mut Unrolled,
    at: &Activation,
    state: &mut State,
    call: &TCall,
    guard: Guard,
) -> Result<Flow, AllocError>
    requires { MayRun at.now net.old state.old guard (λ c. FitsCall c call.now) }
    ensures { IfOk result (λ f. (c : Scope) → is_in at.now c → FitsCall c call.now → IsUnwound at.now net.old net.new state.old state.new guard f c.locals c.locals (call_effect (setting_of at.now) (calls_in at.now) call.now)) }
{
    let Some(callee) = at.pair.program.functions.get(call.function as usize) else {
        return Err(AllocError);
    };
    match &callee.body {
        None => {
            let f = called(net, at, state, call, guard)?;
            Ok(f)
        }
        Some(body) => {
            call_value(alloc, net, at, state, call, callee, body, guard)?;
            Ok(Flow::only(Way::Next, guard))
        }
    }
}

/// A call of a function with a body: the term of what it hands on (C99 6.5.2.2).
#[cycle(blocks)]
fn call_value(
    alloc: Global,
    net: &mut Unrolled,
    at: &Activation,
    state: &mut State,
    call: &TCall,
    callee: &Function,
    body: &TStmt,
    guard: Guard,
) -> Result<SizedTerm, AllocError>
    requires run { MayRun at.now net.old state.old guard (λ c. FitsCall c call.now) }
    requires found { slice_get at.now.pair.now.program.functions call.now.function ≡ Some callee.now }
    requires some { callee.now.body ≡ Some body.now }
    ensures { IfOk result (λ t. IsCalled at.now net.old net.new state.old state.new call.now callee.now.result guard t) }
{
    let args = arguments(alloc, net, at, state, call.args.as_slice(), guard)?;
    if !may_enter(at, call.function, callee) {
        let t = refuse(net, at, callee, guard)?;
        return Ok(t);
    }
    let args = args.as_slice();
    let t = body_value(alloc, net, at, state, call, callee, body, args, guard)?;
    Ok(t)
}

/// A function's body at its arguments, in one more activation.
#[cycle(blocks)]
fn body_value(
    alloc: Global,
    net: &mut Unrolled,
    at: &Activation,
    state: &mut State,
    call: &TCall,
    callee: &Function,
    body: &TStmt,
    args: &[SizedTerm],
    guard: Guard,
) -> Result<SizedTerm, AllocError>
    requires well { IsWellFormed at.now.pair.now }
    requires found { slice_get at.now.pair.now.program.functions call.now.function ≡ Some callee.now }
    requires some { callee.now.body ≡ Some body.now }
    requires may { may_enter_in at.now call.now.function callee.now ≡ true }
    requires objects { HasObjects at.now.pair.now.program net.old.terms state.old.objects }
    requires guard { HasGuard net.old.terms guard }
    requires has { All (Has net.old.terms) args.now }
    requires fit { FitParams at.now.pair.now.program callee.now.first args.now }
    requires count { length args.now ≡ callee.now.params }
    ensures { IfOk result (λ t. (n : Unrolling) → HasObjects at.now.pair.now.program n.terms state.old.objects → AreArguments at.now n net.old state.old call.now.args guard args.now → IsCalled at.now n net.new state.old state.new call.now callee.now.result guard t) }
{
    let function = call.function;
    let caller = begin(alloc, net, at, state, function, callee, body, args, guard)?;
    let inner = Activation {
        pair: at.pair,
        bounds: at.bounds,
        here: function,
        left: at.left - 1,
        standing: caller.standing.as_slice(),
    };
    let ways = stmt(alloc, net, &inner, state, body, guard)?;
    let t = leave(net, at, state, function, callee, caller, ways)?;
    Ok(t)
}

/// What a call of a function with a body hands on, converted to a type.
#[cycle(blocks)]
fn received(
    alloc: Global,
    net: &mut Unrolled,
    at: &Activation,
    state: &mut State,
    ty: IntType,
    call: &TCall,
    guard: Guard,
) -> Result<SizedTerm, AllocError>
    requires run { MayRun at.now net.old state.old guard (λ c. FitsCall c call.now) }
    requires ty { IsType ty }
    ensures { IfOk result (λ t. IsReceived at.now net.old net.new state.old state.new ty call.now guard t) }
{
    let Some(callee) = at.pair.program.functions.get(call.function as usize) else {
        return Err(AllocError);
    };
    let Some(body) = &callee.body else {
        return Err(AllocError);
    };
    let Some(from) = callee.result else {
        return Err(AllocError);
    };
    let handed = call_value(alloc, net, at, state, call, callee, body, guard)?;
    let t = as_type(net, from, ty, handed)?;
    Ok(t)
}

/// A declaration of a local, where a call of a function with a body may stand.
#[cycle(blocks)]
fn declared(
    alloc: Global,
    net: &mut Unrolled,
    at: &Activation,
    state: &mut State,
    local: u32,
    init: &TInit,
    guard: Guard,
) -> Result<Flow, AllocError>
    requires { MayRun at.now net.old state.old guard (λ c. FitsDeclare c local init.now) }
    ensures { IfOk result (λ f. (line : ℕ) (c : Scope) → is_in at.now c → FitsDeclare c local init.now → IsDone at.now net.old net.new state.old state.new guard f c.locals (local ∷ c.locals) (declare_effect (setting_of at.now) (calls_in at.now) line local init.now)) }
{
    let is_array = lookup::slot_length(&at.pair.program, Slot::Local(local)) != 0;
    if is_array || !runs_body(at, init) {
        let f = declare(net, at, state, local, init, guard)?;
        return Ok(f);
    }
    let f = result_declared(alloc, net, at, state, local, init, guard)?;
    Ok(f)
}

/// A declaration of a local, which is set to a call's result.
#[cycle(blocks)]
fn result_declared(
    alloc: Global,
    net: &mut Unrolled,
    at: &Activation,
    state: &mut State,
    local: u32,
    init: &TInit,
    guard: Guard,
) -> Result<Flow, AllocError>
    requires may { MayRun at.now net.old state.old guard (λ c. FitsDeclare c local init.now) }
    requires plain { slot_length at.now.pair.now.program (Local local) ≡ 0 }
    ensures { IfOk result (λ f. (line : ℕ) (c : Scope) → is_in at.now c → FitsDeclare c local init.now → IsDone at.now net.old net.new state.old state.new guard f c.locals (local ∷ c.locals) (declare_effect (setting_of at.now) (calls_in at.now) line local init.now)) }
{
    let TInit::Called(call) = init else {
        return Err(AllocError);
    };
    let slot = Slot::Local(local);
    let ty = lookup::slot_type(&at.pair.program, slot);
    let t = received(alloc, net, at, state, ty, call, guard)?;
    put(net, &mut state.objects, slot, 0, t, guard)?;
    Ok(Flow::only(Way::Next, guard))
}

/// A store, where a call of a function with a body may stand.
#[cycle(blocks)]
fn stored(
    alloc: Global,
    net: &mut Unrolled,
    at: &Activation,
    state: &mut State,
    target: &TTarget,
    init: &TInit,
    guard: Guard,
) -> Result<Flow, AllocError>
    requires { MayRun at.now net.old state.old guard (λ c. FitsTarget c target.now × FitsInit c false (stored_type at.now target.now) init.now) }
    ensures { IfOk result (λ f. (c : Scope) → is_in at.now c → FitsTarget c target.now → FitsInit c false (stored_type at.now target.now) init.now → IsDone at.now net.old net.new state.old state.new guard f c.locals c.locals (store_effect (setting_of at.now) (calls_in at.now) target.now init.now)) }
{
    if !runs_body(at, init) {
        let f = store(net, at, state, target, init, guard)?;
        return Ok(f);
    }
    match &target.index {
        None => {
            let f = result_stored(alloc, net, at, state, target, init, guard)?;
            Ok(f)
        }
        Some(index) => {
            let f = result_stored_at(alloc, net, at, state, target, index.get(), init, guard)?;
            Ok(f)
        }
    }
}

/// A store of a call's result to an object that is no array.
#[cycle(blocks)]
fn result_stored(
    alloc: Global,
    net: &mut Unrolled,
    at: &Activation,
    state: &mut State,
    target: &TTarget,
    init: &TInit,
    guard: Guard,
) -> Result<Flow, AllocError>
    requires may { MayRun at.now net.old state.old guard (λ c. FitsTarget c target.now × FitsInit c false (stored_type at.now target.now) init.now) }
    requires plain { target.now.index ≡ None }
    ensures { IfOk result (λ f. (c : Scope) → is_in at.now c → FitsTarget c target.now → FitsInit c false (stored_type at.now target.now) init.now → IsDone at.now net.old net.new state.old state.new guard f c.locals c.locals (store_effect (setting_of at.now) (calls_in at.now) target.now init.now)) }
{
    let TInit::Called(call) = init else {
        return Err(AllocError);
    };
    let ty = lookup::slot_type(&at.pair.program, target.slot);
    let t = received(alloc, net, at, state, ty, call, guard)?;
    put(net, &mut state.objects, target.slot, 0, t, guard)?;
    Ok(Flow::only(Way::Next, guard))
}

/// A store of a call's result to an element of an array: the index, the call, the test of bounds, and the store.
#[cycle(blocks)]
fn result_stored_at(
    alloc: Global,
    net: &mut Unrolled,
    at: &Activation,
    state: &mut State,
    target: &TTarget,
    index: &TExpr,
    init: &TInit,
    guard: Guard,
) -> Result<Flow, AllocError>
    requires may { MayRun at.now net.old state.old guard (λ c. FitsTarget c target.now × FitsInit c false (stored_type at.now target.now) init.now) }
    requires index { target.now.index ≡ Some index.now }
    ensures { IfOk result (λ f. (c : Scope) → is_in at.now c → FitsTarget c target.now → FitsInit c false (stored_type at.now target.now) init.now → IsDone at.now net.old net.new state.old state.new guard f c.locals c.locals (store_effect (setting_of at.now) (calls_in at.now) target.now init.now)) }
{
    let TInit::Called(call) = init else {
        return Err(AllocError);
    };
    let slot = target.slot;
    let ty = lookup::slot_type(&at.pair.program, slot);
    let count = lookup::slot_length(&at.pair.program, slot);
    let i = value(net, at, state, index, guard)?;
    let t = received(alloc, net, at, state, ty, call, guard)?;
    bounded(net, target.bounds, i, index.ty, count, guard)?;
    put_at(net, &mut state.objects, slot, count, i, t, guard)?;
    Ok(Flow::only(Way::Next, guard))
}

/// A `return`, where a call of a function with a body may stand.
#[cycle(blocks)]
fn returned(
    alloc: Global,
    net: &mut Unrolled,
    at: &Activation,
    state: &mut State,
    init: &Option<TInit>,
    guard: Guard,
) -> Result<Flow, AllocError>
    requires { MayRun at.now net.old state.old guard (λ c. FitsStmt c (Return init.now)) }
    ensures { IfOk result (λ f. (c : Scope) → is_in at.now c → FitsStmt c (Return init.now) → IsDone at.now net.old net.new state.old state.new guard f c.locals c.locals (return_effect (setting_of at.now) (calls_in at.now) init.now)) }
{
    let Some(value) = init else {
        let f = give_back(net, at, state, init, guard)?;
        return Ok(f);
    };
    if !runs_body(at, value) {
        let f = give_back(net, at, state, init, guard)?;
        return Ok(f);
    }
    let f = result_returned(alloc, net, at, state, value, guard)?;
    Ok(f)
}

/// A `return` of a call's result.
#[cycle(blocks)]
fn result_returned(
    alloc: Global,
    net: &mut Unrolled,
    at: &Activation,
    state: &mut State,
    init: &TInit,
    guard: Guard,
) -> Result<Flow, AllocError>
    requires { MayRun at.now net.old state.old guard (λ c. FitsStmt c (Return (Some init.now))) }
    ensures { IfOk result (λ f. (c : Scope) → is_in at.now c → FitsStmt c (Return (Some init.now)) → IsDone at.now net.old net.new state.old state.new guard f c.locals c.locals (return_effect (setting_of at.now) (calls_in at.now) (Some init.now))) }
{
    let TInit::Called(call) = init else {
        return Err(AllocError);
    };
    let Some(ty) = own_result(at) else {
        return Err(AllocError);
    };
    let t = received(alloc, net, at, state, ty, call, guard)?;
    state.result = chosen(net, guard, t, state.result)?;
    Ok(Flow::only(Way::Returning, guard))
}
