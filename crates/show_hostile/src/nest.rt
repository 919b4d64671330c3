//! Bodies of `f` that are nested deeply, with a call of `f` inside.

ghost use Rattle.std.specs.Prelude.{IfOk};
ghost use Rattle.joint_ir.specs.WellFormed.{IsWellFormed};
ghost use Rattle.show_hostile.specs.Nests.{IsNest, IsNumber};

use crate::parts;
use anyhow::Result;
use joint_ir::{
    BinaryOp, Group, Label, Pair, PropId, SNode, Slot, TExpr, TInit, TLoop, TNode, TStmt, TTarget,
};
use sqlite_items::{Boxed, Items};
use std::alloc::Global;

/// What is nested, or holds the call in blocks.
#[derive(Clone, Copy, Debug)]
pub enum Shape {
    Block,
    If,
    While,
    Do,
    For,
    Switch,
    Return,
    Call,
}

/// `1 ^ e`
fn deeper(alloc: Global, e: TExpr) -> Result<TExpr>
    requires { IsNumber e }
    ensures { IfOk result IsNumber }
{
    let left = Boxed::new(alloc, parts::number())?;
    let right = Boxed::new(alloc, e)?;
    Ok(parts::expr(TNode::Binary(BinaryOp::Xor, left, right, None, None)))
}

/// An expression of so many operators, one in the other.
fn expression(alloc: Global, depth: u32) -> Result<TExpr>
    ensures { IfOk result IsNumber }
{
    let mut e = parts::number();
    for _ in 0..depth {
        e = deeper(alloc, e)?;
    }
    Ok(e)
}

/// `{ s }`
fn in_block(alloc: Global, s: TStmt) -> Result<TStmt>
    requires { IsNest s }
    ensures { IfOk result IsNest }
{
    Ok(parts::stmt(SNode::Block(parts::one(alloc, s)?)))
}

/// `if (1) s`
fn in_if(alloc: Global, s: TStmt) -> Result<TStmt>
    requires { IsNest s }
    ensures { IfOk result IsNest }
{
    let test = Boxed::new(alloc, parts::number())?;
    let body = Boxed::new(alloc, s)?;
    Ok(parts::stmt(SNode::If(test, body, None)))
}

/// `while (1) s`, or `do s while (1);`
fn in_loop(alloc: Global, tests_first: bool, s: TStmt) -> Result<TStmt>
    requires { IsNest s }
    ensures { IfOk result IsNest }
{
    let heads = Items::new(alloc);
    let test = Boxed::new(alloc, parts::number())?;
    let body = Boxed::new(alloc, s)?;
    Ok(parts::stmt(SNode::Loop(TLoop {
        tests_first,
        heads,
        cond: Some(test),
        step: None,
        body,
        unwind: PropId(2),
    })))
}

/// `for (;;) s`
fn in_for(alloc: Global, s: TStmt) -> Result<TStmt>
    requires { IsNest s }
    ensures { IfOk result IsNest }
{
    let heads = Items::new(alloc);
    let body = Boxed::new(alloc, s)?;
    Ok(parts::stmt(SNode::Loop(TLoop {
        tests_first: true,
        heads,
        cond: None,
        step: None,
        body,
        unwind: PropId(2),
    })))
}

/// `switch (1) default: s`
fn in_switch(alloc: Global, s: TStmt) -> Result<TStmt>
    requires { IsNest s }
    ensures { IfOk result IsNest }
{
    let labels = parts::one(alloc, Label::Default)?;
    let body = parts::one(alloc, s)?;
    let value = Boxed::new(alloc, parts::number())?;
    let groups = parts::one(alloc, Group { labels, body })?;
    Ok(parts::stmt(SNode::Switch(value, groups)))
}

/// A statement inside another one.
fn wrapped(alloc: Global, shape: Shape, s: TStmt) -> Result<TStmt>
    requires { IsNest s }
    ensures { IfOk result IsNest }
{
    match shape {
        Shape::Block | Shape::Return | Shape::Call => in_block(alloc, s),
        Shape::If => in_if(alloc, s),
        Shape::While => in_loop(alloc, true, s),
        Shape::Do => in_loop(alloc, false, s),
        Shape::For => in_for(alloc, s),
        Shape::Switch => in_switch(alloc, s),
    }
}

/// `f(e);`
fn call(alloc: Global, e: TExpr) -> Result<TStmt>
    requires { IsNumber e }
    ensures { IfOk result IsNest }
{
    Ok(parts::stmt(SNode::Call(parts::call_f(alloc, e)?)))
}

/// `return f(e);`
fn returned(alloc: Global, e: TExpr) -> Result<TStmt>
    requires { IsNumber e }
    ensures { IfOk result IsNest }
{
    let value = TInit::Called(parts::call_f(alloc, e)?);
    Ok(parts::stmt(SNode::Return(Some(value))))
}

/// `x = f(e);`
fn stored(alloc: Global, e: TExpr) -> Result<TStmt>
    requires { IsNumber e }
    ensures { IfOk result IsNest }
{
    let target = TTarget {
        place: parts::HERE,
        slot: Slot::Local(0),
        index: None,
        bounds: None,
    };
    let value = TInit::Called(parts::call_f(alloc, e)?);
    Ok(parts::stmt(SNode::Store(target, value)))
}

/// `f(e);`, `return f(e);` or `x = f(e);`
fn innermost(alloc: Global, shape: Shape, e: TExpr) -> Result<TStmt>
    requires { IsNumber e }
    ensures { IfOk result IsNest }
{
    match shape {
        Shape::Return => returned(alloc, e),
        Shape::Call => stored(alloc, e),
        _ => call(alloc, e),
    }
}

/// The program whose `f` has so many statements one in the other, the innermost of which calls `f` with an expression of
/// so many operators.
pub fn nested(alloc: Global, shape: Shape, levels: u32, depth: u32) -> Result<Pair>
    ensures { IfOk result IsWellFormed }
{
    let e = expression(alloc, depth)?;
    let mut s = innermost(alloc, shape, e)?;
    for _ in 0..levels {
        s = wrapped(alloc, shape, s)?;
    }
    parts::nest(alloc, s)
}
