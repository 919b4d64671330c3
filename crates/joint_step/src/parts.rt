//! What an activation does with no other statement and no call in it.

ghost use Rattle.std.specs.Prelude.{◌≡◌, ◌-◌, ◌<◌, Err, true, IsTrue, slice_get};
ghost use Rattle.joint_ir.specs.declared.stmt.TLoop.{out-TLoop};
ghost use Rattle.joint_ir.specs.Effects.{Onward, after_groups};
ghost use Rattle.joint_ir.specs.Steps.{Calls, rows_in, declare_array as array_declared, slot_type as type_of, type_or_int, result_of};
ghost use Rattle.joint_ir.specs.Statements.{after, is_below_limit, recursion_prop, condition_value};
ghost use Rattle.joint_ir.specs.WellFormed.{IsWellFormed, FitsStmt, FitsElements, FitsOption};
ghost use Rattle.joint_machine.specs.Moments.{Does, Passes, Finds, Stands, IsReady, setting_of};
ghost use Rattle.joint_step.specs.Parts.{turn_left, other_way, is_plain, first_tested, may_stand};
ghost use Rattle.joint_step.specs.Walks.{GoesOn};

use joint_ir::{CProgram, Function, INT, IntType, Outcome, SNode, Slot, TInit, TLoop, Way, lookup};
use joint_machine::{Activation, Machine};
use joint_view::Halt;
use src_text::Place;
use std::alloc::Global;

/// Whether a function may have one more activation.
pub fn may_begin(at: &Activation, machine: &Machine, function: u32, callee: &Function) -> bool
    requires { IsWellFormed at.now.pair.now }
    ensures { result ≡ may_stand at.now.left (is_below_limit at.now.pair.now at.now.bounds.now machine.now.standing.items function callee.now) }
{
    at.left > 0 && machine.may_enter(at, function, callee)
}

/// The end of a run by a call that may not begin an activation.
pub fn refused(at: &Activation, callee: &Function) -> Result<(), Halt>
    requires { IsWellFormed at.now.pair.now }
    ensures { result ≡ Err (Halt.Stop (Outcome.Broken (recursion_prop at.now.pair.now.program callee.now))) }
{
    let prop = lookup::recursion(&at.pair.program, callee);
    Err(Halt::Stop(Outcome::Broken(prop)))
}

/// Whether a loop stops before its first turn. `do` makes that one without a test.
pub fn first_stops(at: &Activation, machine: &Machine, one: &TLoop) -> Result<bool, Halt>
    requires well { IsWellFormed at.now.pair.now }
    requires ready { IsReady at.now.pair.now machine.now }
    requires fits { Stands at.now.pair.now at.now.here (λ c. FitsOption c (out-TLoop one.now).cond) }
    ensures finds { Finds result machine.now machine.now (λ go s c. first_tested (out-TLoop one.now).tests_first (condition_value (rows_in (setting_of at.now) s) (out-TLoop one.now).cond) c (λ b. go b s c)) }
{
    if !one.tests_first {
        return Ok(false);
    }
    machine.stops(at, &one.cond)
}

/// A statement without statements or calls in it.
pub fn simple(
    alloc: Global,
    at: &Activation,
    machine: &mut Machine,
    node: &SNode,
) -> Result<Way, Halt>
    requires well { IsWellFormed at.now.pair.now }
    requires ready { IsReady at.now.pair.now machine.old }
    requires fits { Stands at.now.pair.now at.now.here (λ c. FitsStmt c node.now) }
    requires plain { IsTrue (is_plain node.now) }
    ensures does { (calls : Calls) (place : Place) → Does result machine.old machine.new (after (setting_of at.now) calls place node.now) }
    ensures goes { GoesOn at.now result machine.old machine.new }
{
    match node {
        SNode::Update(target, update) => past(machine.update(at, target, update)),
        SNode::Break => Ok(Way::Breaking),
        SNode::Continue => Ok(Way::Continuing),
        SNode::Assert(e, prop) => past(machine.assert(at, e.get(), *prop)),
        SNode::Assume(e) => past(machine.assume(at, e.get())),
        SNode::SetInputs => past(machine.set_inputs(alloc, at)),
        SNode::NextFrame(prop) => past(machine.next_frame(alloc, at, *prop)),
        _ => Ok(Way::Next),
    }
}

/// A declaration of an array.
pub fn declare_array(
    at: &Activation,
    machine: &mut Machine,
    line: u32,
    x: u32,
    ty: IntType,
    length: u32,
    init: &TInit,
) -> Result<(), Halt>
    requires well { IsWellFormed at.now.pair.now }
    requires ready { IsReady at.now.pair.now machine.old }
    requires typed { type_of at.now.pair.now.program (Slot.Local x) ≡ ty }
    requires fits { Stands at.now.pair.now at.now.here (λ c. FitsElements c ty length init.now) }
    ensures does { (calls : Calls) → Passes result machine.old machine.new (array_declared (setting_of at.now) calls line x ty length init.now) }
    ensures goes { GoesOn at.now result machine.old machine.new }
{
    match init {
        TInit::Free => machine.free_elements(line, x, ty, length),
        TInit::Values(es) => machine.set_elements(at, line, x, length, es.as_slice()),
        TInit::Called(_) => Ok(()),
    }
}

/// The type of a function's result; `int` where it has none.
pub fn result_type(program: &CProgram, function: u32) -> IntType
    ensures { result ≡ type_or_int (result_of (slice_get program.now.functions function)) }
{
    match program.functions.get(function as usize) {
        None => INT,
        Some(function) => match function.result {
            None => INT,
            Some(ty) => ty,
        },
    }
}

/// What goes on to the next statement, if it goes on.
pub fn past(passed: Result<(), Halt>) -> Result<Way, Halt>
    ensures does { (old : Machine) (new : Machine) (f : Onward) → Passes passed old new f → Does result old new f }
    ensures goes { (a : Activation) (old : Machine) (new : Machine) → GoesOn a passed old new → GoesOn a result old new }
{
    match passed {
        Ok(()) => Ok(Way::Next),
        Err(halt) => Err(halt),
    }
}

/// Which way a switch goes on behind its groups: `break` leaves it.
pub fn left(done: Result<Way, Halt>) -> Result<Way, Halt>
    ensures does { (old : Machine) (new : Machine) (f : Onward) → Does done old new f → Does result old new (λ s c. after_groups (f s c)) }
    ensures goes { (a : Activation) (old : Machine) (new : Machine) → GoesOn a done old new → GoesOn a result old new }
{
    match done {
        Ok(Way::Breaking) => Ok(Way::Next),
        other => other,
    }
}

/// Which way a loop goes on behind a turn that leaves it.
pub fn leaves(way: Way) -> Option<Way>
    ensures { result ≡ turn_left way }
{
    match way {
        Way::Next | Way::Continuing => None,
        Way::Breaking => Some(Way::Next),
        Way::Returning => Some(Way::Returning),
    }
}

/// Which way a list goes on behind a statement that leaves it.
pub fn elsewhere(way: Way) -> Option<Way>
    ensures { result ≡ other_way way }
{
    match way {
        Way::Next => None,
        other => Some(other),
    }
}
