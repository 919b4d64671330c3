//! Many arrays in a function that is never called, and many calls of an empty one.

ghost use Rattle.std.specs.Prelude.{◌≡◌, ◌≤◌, [], IfOk};
ghost use Rattle.joint_ir.specs.declared.stmt.SNode.{Block};
ghost use Rattle.joint_ir.specs.WellFormed.{IsWellFormed};
ghost use Rattle.show_hostile.specs.Idle.{array, copies, declares, e_name, empty_call, g_name, idle_functions, idle_of, idle_properties, void_of};
ghost use Rattle.show_hostile.specs.Nests.{main_of, stmt_of};

use crate::parts;
use anyhow::Result;
use joint_ir::{
    CProgram, Function, FunctionList, Pair, PropKind, PropList, SNode, TCall, TInit, TStmt,
    TStmtList, Var, VarList,
};
use sqlite_items::Items;
use src_text::Name;
use std::alloc::Global;

/// `void NAME(void)` with a body.
fn void_function(alloc: Global, name: &str, body: TStmt) -> Result<Function>
    ensures { IfOk result (λ fn. fn ≡ void_of name.now body) }
{
    Ok(Function {
        name: Name::new(alloc, name)?,
        result: None,
        first: 0,
        params: 0,
        body: Some(body),
    })
}

/// `e();`
fn call(alloc: Global) -> TStmt
    ensures { result ≡ empty_call }
{
    parts::stmt(SNode::Call(TCall {
        place: parts::HERE,
        function: 1,
        args: Items::new(alloc),
    }))
}

/// So many calls of `e`.
fn calls(alloc: Global, count: u32) -> Result<TStmtList>
    ensures { IfOk result (λ items. items ≡ copies count empty_call) }
{
    let mut items: TStmtList = Items::new(alloc);
    for k in 0..count {
        let _ = k;
        items.push(call(alloc))?;
    }
    Ok(items)
}

/// The declarations of so many arrays.
#[tactic(auto, using(crate::proofs::Idling::declare_step))]
fn declarations(alloc: Global, count: u32) -> Result<TStmtList>
    ensures { IfOk result (λ items. items ≡ declares 0 count) }
{
    let mut items: TStmtList = Items::new(alloc);
    for x in 0..count {
        items.push(parts::stmt(SNode::Declare(x, TInit::Free)))?;
    }
    Ok(items)
}

/// `int t[64];`
fn one_array(alloc: Global) -> Result<Var>
    ensures { IfOk result (λ x. x ≡ array) }
{
    parts::int_var(alloc, "t", 64)
}

/// So many arrays.
fn arrays(alloc: Global, count: u32) -> Result<VarList>
    ensures { IfOk result (λ vars. vars ≡ copies count array) }
{
    let mut vars = Items::new(alloc);
    for k in 0..count {
        let _ = k;
        vars.push(one_array(alloc)?)?;
    }
    Ok(vars)
}

/// `main`, with so many calls of `e`.
fn calling(alloc: Global, count: u32) -> Result<Function>
    ensures { IfOk result (λ fn. fn ≡ main_of (stmt_of (Block (copies count empty_call)))) }
{
    let items = calls(alloc, count)?;
    parts::main_function(alloc, parts::stmt(SNode::Block(items)))
}

/// `void e(void) { }`
fn empty(alloc: Global) -> Result<Function>
    ensures { IfOk result (λ fn. fn ≡ void_of e_name (stmt_of (Block []))) }
{
    void_function(alloc, "e", parts::stmt(SNode::Block(Items::new(alloc))))
}

/// `void g(void)`, with so many arrays.
fn declaring(alloc: Global, count: u32) -> Result<Function>
    ensures { IfOk result (λ fn. fn ≡ void_of g_name (stmt_of (Block (declares 0 count)))) }
{
    let items = declarations(alloc, count)?;
    void_function(alloc, "g", parts::stmt(SNode::Block(items)))
}

fn functions(alloc: Global, objects: u32, count: u32) -> Result<FunctionList>
    ensures { IfOk result (λ fns. fns ≡ idle_functions objects count) }
{
    let mut functions: FunctionList = Items::new(alloc);
    functions.push(calling(alloc, count)?)?;
    functions.push(empty(alloc)?)?;
    functions.push(declaring(alloc, objects)?)?;
    Ok(functions)
}

/// The properties of the three functions.
fn properties(alloc: Global) -> Result<PropList>
    ensures { IfOk result (λ props. props ≡ idle_properties) }
{
    let main = parts::property(alloc, "main", PropKind::Recursion)?;
    let empty = parts::property(alloc, "e", PropKind::Recursion)?;
    let mut props = parts::two(alloc, main, empty)?;
    props.push(parts::property(alloc, "g", PropKind::Recursion)?)?;
    Ok(props)
}

fn program(alloc: Global, objects: u32, count: u32) -> Result<CProgram>
    ensures { IfOk result (λ p. p ≡ idle_of objects count) }
{
    Ok(CProgram {
        functions: functions(alloc, objects, count)?,
        globals: Items::new(alloc),
        locals: arrays(alloc, objects)?,
        mirror: None,
        props: properties(alloc)?,
        main: 0,
    })
}

/// `int main(void) { e(); .. }` with so many calls, `void e(void) { }`, and `void g(void) { int t[64]; .. }` with so many
/// arrays.
pub fn idle(alloc: Global, objects: u32, count: u32) -> Result<Pair>
    requires { objects ≤ 1000 }
    ensures { IfOk result IsWellFormed }
{
    let program = program(alloc, objects, count)?;
    Ok(parts::beside_nothing(alloc, program)?)
}
