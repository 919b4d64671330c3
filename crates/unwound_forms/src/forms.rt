// The walk over a program's statements.

ghost use Rattle.std.specs.Prelude.{◌≡◌, nat_eq};
ghost use Rattle.joint_ir.specs.declared.expr.Slot.TheVariants.{Local};
ghost use Rattle.joint_ir.specs.Weights.{slot_length};
ghost use Rattle.unwound_forms.specs.Made.{stmt_is_made, items_are_made, cases_are_made, option_is_made, loop_is_made, answers, gives, call_is_made, result_is_made, init_is_made, return_is_made, array_is_made, declare_is_made, function_is_made, program_is_made};

use joint_ir::{CProgram, Function, Group, SNode, Slot, TCall, TInit, TLoop, TStmt, lookup};
use sqlite_items::Boxed;

/// Whether a function has a body, or gives a result.
fn is_answered(function: &Function) -> bool
    ensures { result ≡ answers function.now.body function.now.result }
{
    match &function.body {
        Some(_) => true,
        None => gives_result(function),
    }
}

/// Whether a function gives a result.
fn gives_result(function: &Function) -> bool
    ensures { result ≡ gives function.now.result }
{
    match function.result {
        None => false,
        Some(_) => true,
    }
}

/// Whether a call is of a function that can be called.
fn is_call_made(program: &CProgram, call: &TCall) -> bool
    ensures { result ≡ call_is_made program.now call.now }
{
    match program.functions.get(call.function as usize) {
        None => false,
        Some(function) => is_answered(function),
    }
}

/// Whether a call gives a result.
fn is_result_made(program: &CProgram, call: &TCall) -> bool
    ensures { result ≡ result_is_made program.now call.now }
{
    match program.functions.get(call.function as usize) {
        None => false,
        Some(function) => gives_result(function),
    }
}

/// Whether what an object is set to, or what is returned, is an expression's value or the result of a call.
fn is_init_made(program: &CProgram, init: &TInit) -> bool
    ensures { result ≡ init_is_made program.now init.now }
{
    match init {
        TInit::Free => true,
        TInit::Values(es) => es.len() == 1,
        TInit::Called(call) => is_result_made(program, call),
    }
}

/// Whether what a `return` gives is.
fn is_return_made(program: &CProgram, init: &Option<TInit>) -> bool
    ensures { result ≡ return_is_made program.now init.now }
{
    match init {
        None => true,
        Some(init) => is_init_made(program, init),
    }
}

/// Whether a local is no array.
fn is_single(program: &CProgram, local: u32) -> bool
    ensures { result ≡ nat_eq (slot_length program.now (Local local)) 0 }
{
    lookup::slot_length(program, Slot::Local(local)) == 0
}

/// Whether an array is left open, or set to expressions' values.
fn is_array_made(init: &TInit) -> bool
    ensures { result ≡ array_is_made init.now }
{
    match init {
        TInit::Free | TInit::Values(_) => true,
        TInit::Called(_) => false,
    }
}

/// Whether a declaration is.
fn is_declare_made(program: &CProgram, local: u32, init: &TInit) -> bool
    ensures { result ≡ declare_is_made program.now local init.now }
{
    if is_single(program, local) {
        is_init_made(program, init)
    } else {
        is_array_made(init)
    }
}

/// Whether a statement, with all that stands in it, is of forms that are unwound.
#[cycle(forms)]
fn is_stmt_made(program: &CProgram, s: &TStmt) -> bool
    ensures { result ≡ stmt_is_made program.now s.now.node }
{
    match &s.node {
        SNode::Block(items) => are_items_made(program, items.as_slice()),
        SNode::Declare(local, init) => is_declare_made(program, *local, init),
        SNode::Store(_, init) => is_init_made(program, init),
        SNode::Call(call) => is_call_made(program, call),
        SNode::Return(init) => is_return_made(program, init),
        SNode::If(_, body, other) => is_stmt_made(program, body.get())
            && is_option_made(program, other),
        SNode::Loop(one) => is_loop_made(program, one),
        SNode::Switch(_, groups) => are_cases_made(program, groups.as_slice()),
        SNode::Update(..) | SNode::Break | SNode::Continue | SNode::Assert(..) | SNode::Assume(_) =>
            true,
        SNode::SetInputs | SNode::NextFrame(_) => true,
    }
}

/// Whether statements one after another are.
#[cycle(forms)]
fn are_items_made(program: &CProgram, items: &[TStmt]) -> bool
    ensures { result ≡ items_are_made program.now items.now }
{
    for s in items {
        if !is_stmt_made(program, s) {
            return false;
        }
    }
    true
}

/// Whether the statements of the groups of a `switch` are.
#[cycle(forms)]
fn are_cases_made(program: &CProgram, groups: &[Group]) -> bool
    ensures { result ≡ cases_are_made program.now groups.now }
{
    for group in groups {
        if !are_items_made(program, group.body.as_slice()) {
            return false;
        }
    }
    true
}

/// Whether a statement that may be left out is.
#[cycle(forms)]
fn is_option_made(program: &CProgram, other: &Option<Boxed<TStmt>>) -> bool
    ensures { result ≡ option_is_made program.now other.now }
{
    match other {
        None => true,
        Some(s) => is_stmt_made(program, s.get()),
    }
}

/// Whether the parts of a loop are.
#[cycle(forms)]
fn is_loop_made(program: &CProgram, one: &TLoop) -> bool
    ensures { result ≡ loop_is_made program.now one.now }
{
    if !are_items_made(program, one.heads.as_slice()) {
        return false;
    }
    if !is_stmt_made(program, one.body.get()) {
        return false;
    }
    is_option_made(program, &one.step)
}

/// Whether the body of a function is, if it has one.
fn is_function_made(program: &CProgram, function: &Function) -> bool
    ensures { result ≡ function_is_made program.now function.now }
{
    match &function.body {
        None => true,
        Some(body) => is_stmt_made(program, body),
    }
}

/// Whether the bodies of all functions of a program are of forms that are unwound today.
pub fn is_made(program: &CProgram) -> bool
    ensures { result ≡ program_is_made program.now }
{
    for function in program.functions.as_slice() {
        if !is_function_made(program, function) {
            return false;
        }
    }
    true
}
