//! Prints typed statements, one a line, what stands in another one deeper.

use crate::expressions::{binary_mark, print_check, print_expression, print_slot, print_type};
use joint_ir::{Group, Label, SNode, TCall, TExpr, TInit, TLoop, TStmt, TTarget, TUpdate};
use sqlite_items::Boxed;
use std::io;

fn indent<R: Print>(rt: &R, depth: u32) -> io::Result<()> {
    for _ in 0..depth {
        print!(rt; "  ")?;
    }
    Ok(())
}

fn print_values<R: Print>(rt: &R, values: &[TExpr]) -> io::Result<()> {
    for (number, value) in values.iter().enumerate() {
        if number > 0 {
            print!(rt; ", ")?;
        }
        print_expression(rt, value)?;
    }
    Ok(())
}

fn print_call<R: Print>(rt: &R, call: &TCall) -> io::Result<()> {
    print!(rt; "function{}(", call.function)?;
    print_values(rt, call.args.as_slice())?;
    print!(rt; ")")
}

fn print_init<R: Print>(rt: &R, init: &TInit) -> io::Result<()> {
    match init {
        TInit::Free => print!(rt; "any"),
        TInit::Values(values) => print_values(rt, values.as_slice()),
        TInit::Called(call) => print_call(rt, call),
    }
}

fn print_target<R: Print>(rt: &R, target: &TTarget) -> io::Result<()> {
    print_slot(rt, target.slot)?;
    if let Some(index) = &target.index {
        print!(rt; "[")?;
        print_expression(rt, index.get())?;
        print!(rt; "]")?;
    }
    print_check(rt, target.bounds)
}

fn print_update<R: Print>(rt: &R, update: &TUpdate) -> io::Result<()> {
    print!(rt; " {}", binary_mark(update.op))?;
    print_check(rt, update.division)?;
    print_check(rt, update.other)?;
    print!(rt; "= ")?;
    print_type(rt, update.ty)?;
    print!(rt; " ")?;
    match &update.right {
        None => print!(rt; "1"),
        Some(right) => print_expression(rt, right.get()),
    }
}

fn print_headed<R: Print>(rt: &R, word: &str, e: &TExpr) -> io::Result<()> {
    print!(rt; "{word} ")?;
    print_expression(rt, e)?;
    println!(rt; "")
}

fn print_labels<R: Print>(rt: &R, labels: &[Label]) -> io::Result<()> {
    for label in labels {
        match label {
            Label::Case(number) => print!(rt; "case {number}: ")?,
            Label::Default => print!(rt; "default: ")?,
        }
    }
    println!(rt; "")
}

/// The statements of a list, each so many places in.
#[cycle(statement)]
pub fn print_statements<R: Print>(rt: &R, depth: u32, statements: &[TStmt]) -> io::Result<()> {
    for statement in statements {
        print_statement(rt, depth, statement)?;
    }
    Ok(())
}

#[cycle(statement)]
fn print_groups<R: Print>(rt: &R, depth: u32, groups: &[Group]) -> io::Result<()> {
    for group in groups {
        indent(rt, depth)?;
        print_labels(rt, group.labels.as_slice())?;
        print_statements(rt, depth.saturating_add(1), group.body.as_slice())?;
    }
    Ok(())
}

#[cycle(statement)]
fn print_else<R: Print>(rt: &R, depth: u32, other: &Option<Boxed<TStmt>>) -> io::Result<()> {
    if let Some(other) = other {
        indent(rt, depth)?;
        println!(rt; "else")?;
        print_statement(rt, depth.saturating_add(1), other.get())?;
    }
    Ok(())
}

#[cycle(statement)]
fn print_loop<R: Print>(rt: &R, depth: u32, one: &TLoop) -> io::Result<()> {
    let inner = depth.saturating_add(1);
    println!(rt; "loop{{{}}}", one.unwind.0)?;
    print_statements(rt, inner, one.heads.as_slice())?;
    indent(rt, depth)?;
    let when = if one.tests_first { "before" } else { "after" };
    match &one.cond {
        None => println!(rt; "no test")?,
        Some(cond) => {
            print!(rt; "test {when} each turn ")?;
            print_expression(rt, cond.get())?;
            println!(rt; "")?;
        }
    }
    print_statement(rt, inner, one.body.get())?;
    if let Some(step) = &one.step {
        indent(rt, depth)?;
        println!(rt; "then")?;
        print_statement(rt, inner, step.get())?;
    }
    Ok(())
}

/// A statement behind its line, so many places in.
#[cycle(statement)]
pub fn print_statement<R: Print>(rt: &R, depth: u32, statement: &TStmt) -> io::Result<()> {
    print!(rt; "{:4} ", statement.place.line)?;
    indent(rt, depth)?;
    match &statement.node {
        SNode::If(condition, then, other) => {
            print_headed(rt, "if", condition.get())?;
            print_statement(rt, depth.saturating_add(1), then.get())?;
            print_else(rt, depth, other)
        }
        SNode::Loop(one) => print_loop(rt, depth, one),
        SNode::Switch(value, groups) => {
            print_headed(rt, "switch", value.get())?;
            print_groups(rt, depth.saturating_add(1), groups.as_slice())
        }
        SNode::Block(items) => {
            println!(rt; "block")?;
            print_statements(rt, depth.saturating_add(1), items.as_slice())
        }
        simple => {
            print_simple(rt, simple)?;
            println!(rt; "")
        }
    }
}

/// A statement with no other one in it.
fn print_simple<R: Print>(rt: &R, node: &SNode) -> io::Result<()> {
    match node {
        SNode::Declare(local, init) => {
            print!(rt; "local{local} = ")?;
            print_init(rt, init)
        }
        SNode::Store(target, init) => {
            print_target(rt, target)?;
            print!(rt; " = ")?;
            print_init(rt, init)
        }
        SNode::Update(target, update) => {
            print_target(rt, target)?;
            print_update(rt, update)
        }
        SNode::Call(call) => print_call(rt, call),
        SNode::Break => print!(rt; "break"),
        SNode::Continue => print!(rt; "continue"),
        SNode::Return(None) => print!(rt; "return"),
        SNode::Return(Some(init)) => {
            print!(rt; "return ")?;
            print_init(rt, init)
        }
        SNode::Assert(e, prop) => {
            print!(rt; "assert{{{}}} ", prop.0)?;
            print_expression(rt, e.get())
        }
        SNode::Assume(e) => {
            print!(rt; "assume ")?;
            print_expression(rt, e.get())
        }
        SNode::SetInputs => print!(rt; "set_inputs"),
        SNode::NextFrame(prop) => print!(rt; "next_timeframe{{{}}}", prop.0),
        _ => Ok(()),
    }
}
