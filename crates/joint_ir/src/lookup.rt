//! Look-ups in a program and in bounds.

ghost use Rattle.std.specs.Prelude.{◌≡◌, ℕ, ◌<◌, ◌^◌, length, slice_get, bytes_eq, true, false, if◌then◌else◌};
ghost use Rattle.joint_ir.specs.Statements.{is_recursion as is_recursion_kind, recursion_prop};
ghost use Rattle.std.specs.Option.{option_copied};
ghost use Rattle.joint_ir.specs.Steps.{limit_of, slot_type as type_of, var_type as type_of_var, member_type as type_of_member};
ghost use Rattle.joint_ir.specs.Weighed.{names_function, HasPlainLimit, HavePlainLimits};
ghost use Rattle.joint_ir.specs.Weights.{slot_length as length_of, var_length as length_of_var, member_length as length_of_member};

use crate::bounds::{Bounds, Limit};
use crate::ctype::{INT, IntType, UNSIGNED};
use crate::expr::Slot;
use crate::program::{CProgram, Function, Member, Prop, PropId, PropKind, Var};

/// The limit of a loop or of a function, in turns or activations.
pub fn limit(bounds: &Bounds, prop: PropId) -> u32
    ensures { result ≡ limit_of bounds.now prop }
{
    for limit in bounds.limits.as_slice() {
        if limit.prop.0 == prop.0 {
            return limit.count;
        }
    }
    bounds.unwind
}

fn is_recursion(kind: PropKind) -> bool
    ensures { result ≡ is_recursion_kind kind }
{
    match kind {
        PropKind::Recursion => true,
        _ => false,
    }
}

fn is_recursion_of(prop: &Prop, function: &Function) -> bool
    ensures { result ≡ (if is_recursion_kind prop.now.kind then bytes_eq prop.now.function function.now.name else false) }
{
    is_recursion(prop.kind) && prop.function.text() == function.name.text()
}

/// The `recursion` property of a function.
pub fn recursion(program: &CProgram, function: &Function) -> PropId
    requires { length program.now.props < 2 ^ 32 }
    ensures { result ≡ recursion_prop program.now function.now }
{
    for (i, prop) in program.props.as_slice().iter().enumerate() {
        if is_recursion_of(prop, function) {
            return PropId(i as u32);
        }
    }
    PropId(0)
}

/// The limit of a function, in activations at one time. Where no property has a limit of its own, none is searched for.
pub fn function_limit(bounds: &Bounds, program: &CProgram, function: &Function) -> u32
    requires { length program.now.props < 2 ^ 32 }
    ensures { result ≡ limit_of bounds.now (recursion_prop program.now function.now) }
{
    if bounds.limits.len() == 0 {
        return bounds.unwind;
    }
    limit(bounds, recursion(program, function))
}

/// A limit is of a `recursion` property with the name of a function.
fn is_limit_of(program: &CProgram, limit: &Limit, function: &Function) -> bool
    ensures { result ≡ names_function program.now function.now limit.now }
{
    match program.props.get(limit.prop.0 as usize) {
        None => false,
        Some(prop) => is_recursion_of(prop, function),
    }
}

/// Of all limits, those of a function are the ones of a `recursion` property with its name.
fn is_plain(bounds: &Bounds, program: &CProgram, function: &Function) -> bool
    requires { length program.now.props < 2 ^ 32 }
    ensures { result ≡ true → HasPlainLimit program.now bounds.now function.now }
{
    let own = recursion(program, function);
    for limit in bounds.limits.as_slice() {
        if is_limit_of(program, limit, function) != (limit.prop.0 == own.0) {
            return false;
        }
    }
    true
}

/// For each function with a body the limits of it are those of a `recursion` property with its name, so `plain_limit`
/// needs no search among the properties. It is so in each well-formed program. The properties are searched once for each
/// function, and where no property has a limit of its own, not at all.
pub fn are_plain(bounds: &Bounds, program: &CProgram) -> bool
    requires { length program.now.props < 2 ^ 32 }
    ensures { result ≡ true → HavePlainLimits program.now bounds.now }
{
    if bounds.limits.len() == 0 {
        return true;
    }
    for function in program.functions.as_slice() {
        if function.body.is_some() && !is_plain(bounds, program, function) {
            return false;
        }
    }
    true
}

/// The limit of a function as `function_limit` tells it, in a time that the number of properties doesn't count in.
pub fn plain_limit(bounds: &Bounds, program: &CProgram, function: &Function) -> u32
    requires { HasPlainLimit program.now bounds.now function.now }
    ensures { result ≡ limit_of bounds.now (recursion_prop program.now function.now) }
{
    for limit in bounds.limits.as_slice() {
        if is_limit_of(program, limit, function) {
            return limit.count;
        }
    }
    bounds.unwind
}

fn var_type(var: Option<&Var>) -> IntType
    ensures { result ≡ type_of_var (option_copied var.entry) }
{
    match var {
        None => INT,
        Some(var) => var.ty,
    }
}

fn member_type(member: Option<&Member>) -> IntType
    ensures { result ≡ type_of_member (option_copied member.entry) }
{
    match member {
        None => INT,
        Some(member) => match member.ty {
            None => INT,
            Some(ty) => ty,
        },
    }
}

/// The type of an object's elements.
pub fn slot_type(program: &CProgram, slot: Slot) -> IntType
    ensures { result ≡ type_of program.now slot }
{
    match slot {
        Slot::Global(i) => var_type(program.globals.get(i as usize)),
        Slot::Local(i) => var_type(program.locals.get(i as usize)),
        Slot::Member(i) => match &program.mirror {
            None => INT,
            Some(mirror) => member_type(mirror.members.get(i as usize)),
        },
        Slot::BoundValue => UNSIGNED,
    }
}

fn var_length(var: Option<&Var>) -> u32
    ensures { result ≡ length_of_var (option_copied var.entry) }
{
    match var {
        None => 0,
        Some(var) => var.length,
    }
}

fn member_length(member: Option<&Member>) -> u32
    ensures { result ≡ length_of_member (option_copied member.entry) }
{
    match member {
        None => 0,
        Some(member) => member.length,
    }
}

/// The number of elements of an array, and 0 for an object that is no array.
pub fn slot_length(program: &CProgram, slot: Slot) -> u32
    ensures { result ≡ length_of program.now slot }
{
    match slot {
        Slot::Global(i) => var_length(program.globals.get(i as usize)),
        Slot::Local(i) => var_length(program.locals.get(i as usize)),
        Slot::Member(i) => match &program.mirror {
            None => 0,
            Some(mirror) => member_length(mirror.members.get(i as usize)),
        },
        Slot::BoundValue => 0,
    }
}
