//! Many assertions, and a function that calls itself twice.

ghost use Rattle.std.specs.Prelude.{◌≡◌, ◌≤◌, ◌++◌, IfOk};
ghost use Rattle.joint_ir.specs.declared.stmt.SNode.{Block};
ghost use Rattle.joint_ir.specs.WellFormed.{IsWellFormed};
ghost use Rattle.show_hostile.specs.Checks.{assertion_of, assertions, asserting_body, asserting_of, call_stmt, check_of, checks, twice_of};
ghost use Rattle.show_hostile.specs.Nests.{f_of, main_of, properties_of, stmt_of};

use crate::parts;
use anyhow::Result;
use joint_ir::{
    CProgram, Function, Pair, Prop, PropId, PropKind, PropList, SNode, TStmt, TStmtList,
};
use sqlite_items::{Boxed, Items};
use src_text::Name;
use std::alloc::Global;

/// The property of an assertion of `main`.
fn check(alloc: Global, number: u32) -> Result<Prop>
    ensures { IfOk result (λ prop. prop ≡ check_of number) }
{
    Ok(Prop {
        function: Name::new(alloc, "main")?,
        kind: PropKind::Assertion,
        number,
        line: 1,
    })
}

/// The properties of both functions, and those of so many assertions.
fn properties(alloc: Global, count: u32) -> Result<PropList>
    requires { count ≤ 1000000 }
    ensures { IfOk result (λ props. props ≡ properties_of ++ checks 1 count) }
{
    let mut props = parts::properties(alloc)?;
    for k in 0..count {
        props.push(check(alloc, k + 1)?)?;
    }
    Ok(props)
}

/// `assert(1);`
fn assertion(alloc: Global, property: u32) -> Result<TStmt>
    ensures { IfOk result (λ s. s ≡ assertion_of property) }
{
    let one = Boxed::new(alloc, parts::number())?;
    Ok(parts::stmt(SNode::Assert(one, PropId(property))))
}

/// So many assertions.
fn all_assertions(alloc: Global, count: u32) -> Result<TStmtList>
    requires { count ≤ 1000000 }
    ensures { IfOk result (λ items. items ≡ assertions 3 count) }
{
    let mut items: TStmtList = Items::new(alloc);
    for k in 0..count {
        items.push(assertion(alloc, k + 3)?)?;
    }
    Ok(items)
}

/// `f(1);`
fn call(alloc: Global) -> Result<TStmt>
    ensures { IfOk result (λ s. s ≡ call_stmt) }
{
    let call = parts::call_f(alloc, parts::number())?;
    Ok(parts::stmt(SNode::Call(call)))
}

/// `main`, with so many assertions and `f(1);`.
fn checking(alloc: Global, count: u32) -> Result<Function>
    requires { count ≤ 1000000 }
    ensures { IfOk result (λ fn. fn ≡ main_of (stmt_of (Block (asserting_body count)))) }
{
    let mut items = all_assertions(alloc, count)?;
    items.push(call(alloc)?)?;
    parts::main_function(alloc, parts::stmt(SNode::Block(items)))
}

/// `int f(int x) { f(1); f(1); }`
fn twice(alloc: Global) -> Result<Function>
    ensures { IfOk result (λ fn. fn ≡ f_of twice_of) }
{
    let first = call(alloc)?;
    let second = call(alloc)?;
    let items = parts::two(alloc, first, second)?;
    parts::f_function(alloc, parts::stmt(SNode::Block(items)))
}

fn program(alloc: Global, count: u32) -> Result<CProgram>
    requires { count ≤ 1000000 }
    ensures { IfOk result (λ p. p ≡ asserting_of count) }
{
    let main = checking(alloc, count)?;
    Ok(CProgram {
        functions: parts::two(alloc, main, twice(alloc)?)?,
        globals: Items::new(alloc),
        locals: parts::one(alloc, parts::int_var(alloc, "x", 0)?)?,
        mirror: None,
        props: properties(alloc, count)?,
        main: 0,
    })
}

/// `int main(void) { assert(1); .. f(1); }` with so many assertions, and `int f(int x) { f(1); f(1); }`.
pub fn asserting(alloc: Global, count: u32) -> Result<Pair>
    requires { count ≤ 1000000 }
    ensures { IfOk result IsWellFormed }
{
    let program = program(alloc, count)?;
    Ok(parts::beside_nothing(alloc, program)?)
}
