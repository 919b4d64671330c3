//! Values of objects and of an expression. The first elements of objects by C99 6.7.8, and a difference of unsigned numbers by
//! 6.2.5, paragraph 9.
#![tactic(auto)]

ghost use Rattle.std.specs.Prelude.{[], IfOk};
ghost use Rattle.joint_ir.specs.States.{rows_of};
ghost use Rattle.joint_value.specs.Evaluable.{IsEvaluable};

use anyhow::Result;
use joint_ir::{BinaryOp, INT, IntType, Slot, TExpr, TNode, UNSIGNED, ValueList, Var};
use joint_value::{Rows, Store, value};
use sqlite_items::Boxed;
use src_text::{Name, Place};
use std::alloc::{AllocError, Global};

const HERE: Place = Place { line: 1, column: 1 };

fn var(alloc: Global, length: u32, firsts: &[i128]) -> Result<Var, AllocError> {
    Ok(Var {
        name: Name::new(alloc, "a")?,
        ty: INT,
        length,
        firsts: ValueList::from_slice(alloc, firsts)?,
        constant: false,
    })
}

// `bound - 4`
fn difference(alloc: Global) -> Result<TExpr, AllocError>
    ensures { IfOk result (λ e. IsEvaluable (rows_of 3 (record { globals = []; locals = []; members = [] })) e) }
{
    let bound = TExpr {
        ty: UNSIGNED,
        place: HERE,
        node: TNode::Read(Slot::BoundValue),
    };
    let four = TExpr {
        ty: UNSIGNED,
        place: HERE,
        node: TNode::Const(4),
    };
    let left = Boxed::new(alloc, bound)?;
    let right = Boxed::new(alloc, four)?;
    Ok(TExpr {
        ty: UNSIGNED,
        place: HERE,
        node: TNode::Binary(BinaryOp::Sub, left, right, None, None),
    })
}

fn say_difference<R: Print>(rt: &R, alloc: Global) -> Result<()> {
    let e = difference(alloc)?;
    let store = Store::new(Rows::new(alloc), Rows::new(alloc), Rows::new(alloc));
    match value(3, &store, &e) {
        Ok(number) => println!(rt; "bound - 4 at a bound of 3: {number}")?,
        Err(_) => println!(rt; "bound - 4 at a bound of 3: a property breaks")?,
    }
    Ok(())
}

fn say_elements<R: Print>(rt: &R, title: &str, store: &Store, slot: Slot) -> Result<()> {
    let length = store.length(7, slot);
    let first = store.element(7, slot, 0);
    let third = store.element(7, slot, 2);
    println!(rt; "{title}: length {length}, first {first}, third {third}")?;
    Ok(())
}

/// `int a[3] = { 5, -1 }` and `int b`, and then `a[2] = 8`, and a second element of `b`, which has none.
fn say_objects<R: Print>(rt: &R, alloc: Global) -> Result<()> {
    let mut vars = Vec::new(alloc);
    vars.push(var(alloc, 3, &[5, -1])?)?;
    vars.push(var(alloc, 0, &[])?)?;
    let globals = Rows::first(alloc, vars.as_slice())?;
    let mut store = Store::new(globals, Rows::new(alloc), Rows::new(alloc));
    say_elements(rt, "a at first", &store, Slot::Global(0))?;
    store.put(Slot::Global(0), 2, 8);
    store.put(Slot::Global(1), 1, 9);
    say_elements(rt, "a", &store, Slot::Global(0))?;
    say_elements(rt, "b", &store, Slot::Global(1))?;
    let bound = store.element(7, Slot::BoundValue, 0);
    println!(rt; "bound: {bound}")?;
    Ok(())
}

fn main(rt: HostRuntime) -> Result<()> {
    say_difference(&rt, rt.alloc())?;
    say_objects(&rt, rt.alloc())
}
