//! Statements and calls, as an activation of a function carries them out (C99 6.5.2.2, 6.8).

ghost use Rattle.std.specs.Prelude.{true, drop, IfOk};
ghost use Rattle.joint_ir.specs.Steps.{store_effect, declare_effect, call_effect, return_effect, with_init, slot_type as type_of};
ghost use Rattle.joint_ir.specs.Statements.{after, after_loop};
ghost use Rattle.joint_ir.specs.Types.{InRange, IsType};
ghost use Rattle.joint_ir.specs.WellFormed.{IsWellFormed, FitsStmt, FitsTarget, FitsInit, FitsDeclare, FitsLoop, FitsCall};
ghost use Rattle.joint_machine.specs.Moments.{Stands, IsReady, setting_of};
ghost use Rattle.joint_lists.specs.Lists.{after_items, after_option, after_cases, FitsItems, FitsOptional, FitsCases};
ghost use Rattle.joint_step.specs.Parts.{IsTaken};
ghost use Rattle.joint_step.specs.Walks.{DoesIn, PassesIn, FindsIn, GoesOn};

use crate::parts::{
    declare_array, elsewhere, first_stops, leaves, left, may_begin, past, refused, result_type,
    simple,
};
use joint_ir::{
    Group, IntType, Outcome, SNode, Slot, TCall, TInit, TLoop, TStmt, TTarget, Way, lookup,
};
use joint_lists::{entry, own_end};
use joint_machine::{Activation, Machine};
use joint_value::arith;
use joint_view::Halt;
use sqlite_items::Boxed;
use src_text::Place;
use std::alloc::Global;

/// A statement.
#[cycle(walk)]
pub fn statement(
    alloc: Global,
    at: &Activation,
    machine: &mut Machine,
    s: &TStmt,
) -> Result<Way, Halt>
    requires well { IsWellFormed at.now.pair.now }
    requires ready { IsReady at.now.pair.now machine.old }
    requires fits { Stands at.now.pair.now at.now.here (λ c. FitsStmt c s.now.node) }
    ensures does { DoesIn at.now result machine.old machine.new (λ calls. after (setting_of at.now) calls s.now.place s.now.node) }
    ensures goes { GoesOn at.now result machine.old machine.new }
{
    match &s.node {
        SNode::Block(items) => block(alloc, at, machine, items.as_slice()),
        SNode::Declare(x, init) => past(declare(alloc, at, machine, s.place.line, *x, init)),
        SNode::Store(target, init) => past(store(alloc, at, machine, target, init)),
        SNode::Call(one) => past(call(alloc, at, machine, one)),
        SNode::If(e, body, other) => {
            let n = machine.value(at, e.get())?;
            if n == 0 {
                optional(alloc, at, machine, other)
            } else {
                statement(alloc, at, machine, body.get())
            }
        }
        SNode::Loop(one) => repeat(alloc, at, machine, one),
        SNode::Switch(e, groups) => {
            let n = machine.value(at, e.get())?;
            match entry(groups.as_slice(), n) {
                None => Ok(Way::Next),
                Some(from) => left(run_cases(alloc, at, machine, groups.as_slice(), from)),
            }
        }
        SNode::Return(value) => give_back(alloc, at, machine, value),
        SNode::Update(_, _)
        | SNode::Break
        | SNode::Continue
        | SNode::Assert(_, _)
        | SNode::Assume(_)
        | SNode::SetInputs
        | SNode::NextFrame(_) => simple(alloc, at, machine, &s.node),
    }
}

/// Statements, one after another, up to one that goes another way.
#[cycle(walk)]
fn block(
    alloc: Global,
    at: &Activation,
    machine: &mut Machine,
    items: &[TStmt],
) -> Result<Way, Halt>
    requires well { IsWellFormed at.now.pair.now }
    requires ready { IsReady at.now.pair.now machine.old }
    requires fits { Stands at.now.pair.now at.now.here (λ c. FitsItems c items.now) }
    ensures does { DoesIn at.now result machine.old machine.new (λ calls. after_items (setting_of at.now) calls items.now) }
    ensures goes { GoesOn at.now result machine.old machine.new }
{
    for s in items {
        let way = statement(alloc, at, machine, s)?;
        if let Some(way) = elsewhere(way) {
            return Ok(way);
        }
    }
    Ok(Way::Next)
}

/// A statement that may be left out.
#[cycle(walk)]
fn optional(
    alloc: Global,
    at: &Activation,
    machine: &mut Machine,
    other: &Option<Boxed<TStmt>>,
) -> Result<Way, Halt>
    requires well { IsWellFormed at.now.pair.now }
    requires ready { IsReady at.now.pair.now machine.old }
    requires fits { Stands at.now.pair.now at.now.here (λ c. FitsOptional c other.now) }
    ensures does { DoesIn at.now result machine.old machine.new (λ calls. after_option (setting_of at.now) calls other.now) }
    ensures goes { GoesOn at.now result machine.old machine.new }
{
    match other {
        None => Ok(Way::Next),
        Some(s) => statement(alloc, at, machine, s.get()),
    }
}

/// A loop: at most so many turns as its limit (C99 6.8.5).
#[cycle(walk)]
fn repeat(alloc: Global, at: &Activation, machine: &mut Machine, one: &TLoop) -> Result<Way, Halt>
    requires well { IsWellFormed at.now.pair.now }
    requires ready { IsReady at.now.pair.now machine.old }
    requires fits { Stands at.now.pair.now at.now.here (λ c. FitsLoop c one.now) }
    ensures does { DoesIn at.now result machine.old machine.new (λ calls. after_loop (setting_of at.now) calls one.now) }
    ensures goes { GoesOn at.now result machine.old machine.new }
{
    let way = block(alloc, at, machine, one.heads.as_slice())?;
    if let Some(way) = elsewhere(way) {
        return Ok(way);
    }
    if first_stops(at, machine, one)? {
        return Ok(Way::Next);
    }
    let limit = lookup::limit(at.bounds, one.unwind);
    for turn in 0..limit {
        let way = statement(alloc, at, machine, one.body.get())?;
        if let Some(way) = leaves(way) {
            return Ok(way);
        }
        let way = optional(alloc, at, machine, &one.step)?;
        if let Some(way) = elsewhere(way) {
            return Ok(way);
        }
        if machine.stops(at, &one.cond)? {
            return Ok(Way::Next);
        }
    }
    Err(Halt::Stop(Outcome::Broken(one.unwind)))
}

/// The groups of a switch from a place on. Control falls through.
#[cycle(walk)]
fn run_cases(
    alloc: Global,
    at: &Activation,
    machine: &mut Machine,
    groups: &[Group],
    from: usize,
) -> Result<Way, Halt>
    requires well { IsWellFormed at.now.pair.now }
    requires ready { IsReady at.now.pair.now machine.old }
    requires fits { Stands at.now.pair.now at.now.here (λ c. FitsCases c groups.now) }
    ensures does { DoesIn at.now result machine.old machine.new (λ calls. after_cases (setting_of at.now) calls (drop from groups.now)) }
    ensures goes { GoesOn at.now result machine.old machine.new }
{
    for k in from..groups.len() {
        let way = block(alloc, at, machine, groups[k].body.as_slice())?;
        if let Some(way) = elsewhere(way) {
            return Ok(way);
        }
    }
    Ok(Way::Next)
}

/// A `return`, with the value that it gives (C99 6.8.6.4).
#[cycle(walk)]
fn give_back(
    alloc: Global,
    at: &Activation,
    machine: &mut Machine,
    value: &Option<TInit>,
) -> Result<Way, Halt>
    requires well { IsWellFormed at.now.pair.now }
    requires ready { IsReady at.now.pair.now machine.old }
    requires fits { Stands at.now.pair.now at.now.here (λ c. FitsStmt c (SNode.Return value.now)) }
    ensures does { DoesIn at.now result machine.old machine.new (λ calls. return_effect (setting_of at.now) calls value.now) }
    ensures goes { GoesOn at.now result machine.old machine.new }
{
    match value {
        None => {
            machine.returned = 0;
            Ok(Way::Returning)
        }
        Some(init) => {
            let ty = result_type(&at.pair.program, at.here);
            machine.returned = initial(alloc, at, machine, ty, init)?;
            Ok(Way::Returning)
        }
    }
}

/// A store (C99 6.5.16.1).
#[cycle(walk)]
fn store(
    alloc: Global,
    at: &Activation,
    machine: &mut Machine,
    target: &TTarget,
    init: &TInit,
) -> Result<(), Halt>
    requires well { IsWellFormed at.now.pair.now }
    requires ready { IsReady at.now.pair.now machine.old }
    requires target { Stands at.now.pair.now at.now.here (λ c. FitsTarget c target.now) }
    requires value { Stands at.now.pair.now at.now.here (λ c. FitsInit c true (type_of at.now.pair.now.program target.now.slot) init.now) }
    ensures does { PassesIn at.now result machine.old machine.new (λ calls. store_effect (setting_of at.now) calls target.now init.now) }
    ensures goes { GoesOn at.now result machine.old machine.new }
{
    let index = machine.index(at, &target.index)?;
    let ty = lookup::slot_type(&at.pair.program, target.slot);
    let n = initial(alloc, at, machine, ty, init)?;
    machine.store_into(at, target, index, n)
}

/// A declaration of an automatic variable (C99 6.7.8, 6.8).
#[cycle(walk)]
fn declare(
    alloc: Global,
    at: &Activation,
    machine: &mut Machine,
    line: u32,
    x: u32,
    init: &TInit,
) -> Result<(), Halt>
    requires well { IsWellFormed at.now.pair.now }
    requires ready { IsReady at.now.pair.now machine.old }
    requires fits { Stands at.now.pair.now at.now.here (λ c. FitsDeclare c x init.now) }
    ensures does { PassesIn at.now result machine.old machine.new (λ calls. declare_effect (setting_of at.now) calls line x init.now) }
    ensures goes { GoesOn at.now result machine.old machine.new }
{
    match at.pair.program.locals.get(x as usize) {
        None => Ok(()),
        Some(var) => {
            if var.length > 0 {
                return declare_array(at, machine, line, x, var.ty, var.length, init);
            }
            let n = initial(alloc, at, machine, var.ty, init)?;
            machine.put(line, Slot::Local(x), None, n)
        }
    }
}

/// What an object of a type is set to: any value, that of an expression, or the result of a call.
#[cycle(walk)]
fn initial(
    alloc: Global,
    at: &Activation,
    machine: &mut Machine,
    ty: IntType,
    init: &TInit,
) -> Result<i128, Halt>
    requires well { IsWellFormed at.now.pair.now }
    requires ready { IsReady at.now.pair.now machine.old }
    requires typed { IsType ty }
    requires fits { Stands at.now.pair.now at.now.here (λ c. FitsInit c true ty init.now) }
    ensures finds { FindsIn at.now result machine.old machine.new (λ calls go s c. with_init (setting_of at.now) calls ty init.now s c go) }
    ensures range { IfOk result (InRange ty) }
    ensures goes { GoesOn at.now result machine.old machine.new }
{
    match init {
        TInit::Free => machine.any_number(ty),
        TInit::Values(es) => machine.value_or_zero(at, es.as_slice(), 0),
        TInit::Called(one) => {
            call(alloc, at, machine, one)?;
            Ok(arith::converted(ty, machine.returned))
        }
    }
}

/// A call, with its arguments first (C99 6.5.2.2).
#[cycle(walk)]
fn call(alloc: Global, at: &Activation, machine: &mut Machine, one: &TCall) -> Result<(), Halt>
    requires well { IsWellFormed at.now.pair.now }
    requires ready { IsReady at.now.pair.now machine.old }
    requires fits { Stands at.now.pair.now at.now.here (λ c. FitsCall c one.now) }
    ensures does { PassesIn at.now result machine.old machine.new (λ calls. call_effect (setting_of at.now) calls one.now) }
    ensures goes { GoesOn at.now result machine.old machine.new }
{
    let args = machine.arguments(alloc, at, one.args.as_slice())?;
    enter(alloc, at, machine, one.place, one.function, args.as_slice())
}

/// A function at its arguments, where it may have one more activation. One without a body gives any result.
#[cycle(walk)]
fn enter(
    alloc: Global,
    at: &Activation,
    machine: &mut Machine,
    place: Place,
    function: u32,
    args: &[i128],
) -> Result<(), Halt>
    requires well { IsWellFormed at.now.pair.now }
    requires ready { IsReady at.now.pair.now machine.old }
    requires args { IsTaken at.now.pair.now.program function args.now }
    ensures does { PassesIn at.now result machine.old machine.new (λ calls. calls place function args.now) }
    ensures goes { GoesOn at.now result machine.old machine.new }
{
    match at.pair.program.functions.get(function as usize) {
        None => Ok(()),
        Some(callee) => match &callee.body {
            None => machine.any_result(callee.result),
            Some(body) => {
                if !may_begin(at, machine, function, callee) {
                    return refused(at, callee);
                }
                let first = callee.first;
                let end = own_end(callee, body);
                let saved = machine.begin(alloc, place.line, function, first, end, args)?;
                let inner = Activation {
                    pair: at.pair,
                    bounds: at.bounds,
                    here: function,
                    left: at.left - 1,
                };
                let way = statement(alloc, &inner, machine, body)?;
                let is_main = function == at.pair.program.main;
                machine.leave(first, saved, is_main, callee.result, way)
            }
        },
    }
}
