//! What the parts of statements weigh that hold no statement, and what the module does.

ghost use Rattle.std.specs.Prelude.{◌≡◌, ◌+◌, ◌*◌, ◌<◌, ◌≤◌, ◌^◌, min, length, sum_by, slice_get};
ghost use Rattle.std.specs.Option.{option_copied};
ghost use Rattle.joint_ir.specs.Weights.{capped as capped_of, exprs_weight, option_weight, option_bits as bits_of_option, condition_weight, store_weight, target_weight, old_weight, update_weight, bits_or_zero as bits_or_zero_of, var_bits as bits_of_var, params_weight, drive_weight, frame_weight, input_bits, register_bits, mirror_bits, globals_weight, role_bits as role_bits_of, member_bits as member_bits_of, elements_weight as elements_of};
ghost use Rattle.joint_ir.specs.Steps.{result_of};
ghost use Rattle.joint_ir.specs.Views.{same_role as same_role_of};
ghost use Rattle.joint_ir.specs.States.{element_count as element_count_of};

use super::exprs;
use super::exprs::capped;
use crate::ctype::IntType;
use crate::expr::TExpr;
use crate::lookup;
use crate::module::{FlatModule, Role, Signal};
use crate::pair::Pair;
use crate::program::{CProgram, Function, Member, Var};
use crate::stmt::{Label, TTarget, TUpdate};
use sqlite_items::Boxed;

/// An expression that may be left out.
pub fn option(program: &CProgram, e: &Option<Boxed<TExpr>>) -> u64
    ensures value { result ≡ capped_of (option_weight program.now e.now) }
    ensures bound { result ≤ 16777217 }
{
    match e {
        None => 0,
        Some(e) => exprs::expr(program, e.get()),
    }
}

/// The bits of an expression that may be left out; 0 without one.
pub fn option_bits(e: &Option<Boxed<TExpr>>) -> u8
    ensures { result ≡ bits_of_option e.now }
{
    match e {
        None => 0,
        Some(e) => e.get().ty.bits,
    }
}

/// A condition with its bits.
pub fn condition(program: &CProgram, e: &Option<Boxed<TExpr>>) -> u64
    ensures value { result ≡ capped_of (condition_weight program.now e.now) }
    ensures bound { result ≤ 16777217 }
{
    match e {
        None => 0,
        Some(e) => {
            let e = e.get();
            capped(exprs::expr(program, e) + e.ty.bits as u64)
        }
    }
}

/// The bits of a type; 0 for `void`.
pub fn bits_or_zero(ty: Option<IntType>) -> u8
    ensures { result ≡ bits_or_zero_of ty }
{
    match ty {
        None => 0,
        Some(ty) => ty.bits,
    }
}

/// A store to an object of so many bits.
pub fn store(bits: u8) -> u64
    ensures value { result ≡ store_weight bits }
    ensures bound { result < 2 ^ 20 }
{
    3 * bits as u64 + 16
}

/// A store to a target, with its index.
pub fn target(program: &CProgram, target: &TTarget) -> u64
    ensures value { result ≡ capped_of (target_weight program.now target.now) }
    ensures bound { result ≤ 16777217 }
{
    let bits = lookup::slot_type(program, target.slot).bits;
    let length = lookup::slot_length(program, target.slot);
    match &target.index {
        None => capped(store(bits)),
        Some(e) => {
            let e = e.get();
            let index = exprs::expr(program, e);
            let more = exprs::write(length, e.ty.bits, bits);
            capped(store(bits) + (index + more))
        }
    }
}

fn old(length: u32, bits: u8, index: &Option<Boxed<TExpr>>) -> u64
    ensures value { result ≡ old_weight length bits index.now }
    ensures bound { result < 2 ^ 51 }
{
    match index {
        None => 0,
        Some(e) => exprs::read(length, e.get().ty.bits, bits) + 4,
    }
}

/// `op=`, `++` or `--`.
pub fn update(program: &CProgram, place: &TTarget, update: &TUpdate) -> u64
    ensures value { result ≡ capped_of (update_weight program.now place.now update.now) }
    ensures bound { result ≤ 16777217 }
{
    let x = target(program, place);
    let bits = lookup::slot_type(program, place.slot).bits;
    let y = old(lookup::slot_length(program, place.slot), bits, &place.index);
    let z = option(program, &update.right);
    let right = option_bits(&update.right);
    let own = exprs::binary(update.op, update.ty, update.ty.bits, right);
    capped(x + y + (z + own + 4))
}

fn var_bits(var: Option<&Var>) -> u8
    ensures { result ≡ bits_of_var (option_copied var.entry) }
{
    match var {
        None => 0,
        Some(var) => var.ty.bits,
    }
}

/// The stores of the arguments of a function to its `count` parameters, which stand in `locals` from the first on.
pub fn params(program: &CProgram, first: u32, count: u32) -> u64
    ensures value { result ≡ capped_of (params_weight program.now.locals first count) }
    ensures bound { result ≤ 16777217 }
{
    let mut total = 0;
    for k in 0..count {
        let bits = var_bits(program.locals.get(first as usize + k as usize));
        total = capped(total + store(bits));
        if total == 16_777_217 {
            return total;
        }
    }
    total
}

fn var_elements(var: Option<&Var>) -> u64
    ensures value { result ≡ elements_of (option_copied var.entry) }
    ensures bound { result < 2 ^ 50 }
{
    match var {
        None => 0,
        Some(var) => element_count(var.length) as u64 * (4 * var.ty.bits as u64 + 16),
    }
}

/// The elements of a local that is declared.
pub fn elements(program: &CProgram, local: u32) -> u64
    ensures value { result ≡ elements_of (slice_get program.now.locals local) }
    ensures bound { result < 2 ^ 50 }
{
    var_elements(program.locals.get(local as usize))
}

fn result_bits(function: Option<&Function>) -> u8
    ensures { result ≡ bits_or_zero_of (result_of (option_copied function.entry)) }
{
    match function {
        None => 0,
        Some(function) => bits_or_zero(function.result),
    }
}

/// The store of a function's result.
pub fn result(program: &CProgram, function: u32) -> u64
    ensures value { result ≡ store_weight (bits_or_zero_of (result_of (slice_get program.now.functions function))) }
    ensures bound { result < 2 ^ 20 }
{
    store(result_bits(program.functions.get(function as usize)))
}

fn same_role(a: Role, b: Role) -> bool
    ensures { result ≡ same_role_of a b }
{
    match (a, b) {
        (Role::Input, Role::Input) => true,
        (Role::Clock, Role::Clock) => true,
        (Role::Register, Role::Register) => true,
        (Role::Wire, Role::Wire) => true,
        _ => false,
    }
}

/// The number of elements of an object, or of words of a signal.
pub fn element_count(length: u32) -> u32
    ensures value { result ≡ element_count_of length }
    ensures some { 0 < result }
{
    if length == 0 { 1 } else { length }
}

fn role_bits(role: Role, signal: &Signal) -> u64
    ensures value { result ≡ role_bits_of role signal.now }
    ensures bound { result < 2 ^ 40 }
{
    if same_role(role, signal.role) {
        element_count(signal.words) as u64 * signal.bits as u64
    } else {
        0
    }
}

/// The bits of all signals of a role.
pub fn bits_of_role(flat: &FlatModule, role: Role) -> u64
    ensures value { result ≡ capped_of (sum_by (role_bits_of role) flat.now.signals) }
    ensures bound { result ≤ 16777217 }
{
    let mut total = 0;
    for signal in flat.signals.as_slice() {
        total = capped(total + role_bits(role, signal));
    }
    total
}

fn member_bits(member: &Member) -> u64
    ensures value { result ≡ member_bits_of member.now }
    ensures bound { result < 2 ^ 40 }
{
    element_count(member.length) as u64 * bits_or_zero(member.ty) as u64
}

fn members_bits(members: &[Member]) -> u64
    ensures value { result ≡ capped_of (sum_by member_bits_of members.now) }
    ensures bound { result ≤ 16777217 }
{
    let mut total = 0;
    for member in members {
        total = capped(total + member_bits(member));
    }
    total
}

/// The bits of all members of the mirror.
pub fn bits_of_mirror(pair: &Pair) -> u64
    ensures value { result ≡ capped_of (mirror_bits pair.now) }
    ensures bound { result ≤ 16777217 }
{
    match &pair.program.mirror {
        None => 0,
        Some(mirror) => members_bits(mirror.members.as_slice()),
    }
}

/// `set_inputs()`.
pub fn drive(pair: &Pair) -> u64
    ensures value { result ≡ capped_of (drive_weight pair.now) }
    ensures bound { result ≤ 16777217 }
{
    let settle = capped(pair.module.settle_weight);
    let inputs = bits_of_role(&pair.module, Role::Input);
    let mirror = bits_of_mirror(pair);
    capped(settle + 3 * inputs + 3 * mirror + 64)
}

/// `next_timeframe()`.
pub fn frame(pair: &Pair) -> u64
    ensures value { result ≡ capped_of (frame_weight pair.now) }
    ensures bound { result ≤ 16777217 }
{
    let edge = capped(pair.module.edge_weight);
    let settle = capped(pair.module.settle_weight);
    let registers = bits_of_role(&pair.module, Role::Register);
    let inputs = bits_of_role(&pair.module, Role::Input);
    let mirror = bits_of_mirror(pair);
    capped(edge + settle + 3 * registers + 4 * inputs + 3 * mirror + 256)
}

/// The file-scope objects.
pub fn globals(vars: &[Var]) -> u64
    ensures value { result ≡ capped_of (globals_weight vars.now) }
    ensures bound { result ≤ 16777217 }
{
    let mut total = 0;
    for var in vars {
        total = capped(total + 16 * element_count(var.length) as u64);
    }
    total
}

/// The labels of a group of a switch over a type of so many bits.
pub fn labels(labels: &[Label], bits: u8) -> u64
    ensures value { result ≡ capped_of (length labels.now * (4 * bits + 16)) }
    ensures bound { result ≤ 16777217 }
{
    let most = labels.len().min(16_777_217) as u64;
    capped(most * (4 * bits as u64 + 16))
}

/// The entry of a function with a body, besides that.
pub fn entry(program: &CProgram, function: &Function) -> u64
    ensures value { result ≡ capped_of (32 + params_weight program.now.locals function.now.first function.now.params + 4 * bits_or_zero_of function.now.result) }
    ensures bound { result ≤ 16777217 }
{
    let stores = params(program, function.first, function.params);
    capped(32 + stores + 4 * bits_or_zero(function.result) as u64)
}
