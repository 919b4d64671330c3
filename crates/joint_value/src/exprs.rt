//! The value of a typed expression (C99 6.5).

ghost use Rattle.std.specs.Prelude.{◌≡◌, length, ℤ, if◌then◌else◌};
ghost use Rattle.joint_ir.specs.States.{rows_of};
ghost use Rattle.joint_ir.specs.Values.{value_of, element_at, logic_value, is_zero};
ghost use Rattle.joint_value.specs.Answers.{answer_of};
ghost use Rattle.joint_value.specs.Evaluable.{IsEvaluable};

use crate::arith;
use crate::store::Store;
use joint_ir::program::PropId;
use joint_ir::{LogicOp, Slot, TExpr, TNode};

/// The value of an expression, or the property that breaks first, operands from left to right. Takes no memory.
#[cycle(value)]
pub fn value(frames: u32, store: &Store, e: &TExpr) -> Result<i128, PropId>
    requires { IsEvaluable (rows_of frames store.now) e.now }
    ensures { answer_of result ≡ value_of (rows_of frames store.now) e.now }
{
    match &e.node {
        TNode::Const(n) => Ok(*n),
        TNode::Read(slot) => Ok(store.element(frames, *slot, 0)),
        TNode::Index(slot, a, bounds) => {
            let i = value(frames, store, a.get())?;
            element(frames, store, *slot, *bounds, i)
        }
        TNode::Unary(op, a, prop) => {
            let x = value(frames, store, a.get())?;
            arith::unary(*op, e.ty, *prop, x)
        }
        TNode::Binary(op, a, b, division, other) => {
            let x = value(frames, store, a.get())?;
            let y = value(frames, store, b.get())?;
            arith::binary(*op, e.ty, *division, *other, x, y)
        }
        TNode::Logic(op, a, b) => {
            let x = value(frames, store, a.get())?;
            logic(frames, store, *op, x, b.get())
        }
        TNode::Choose(c, a, b) => {
            let x = value(frames, store, c.get())?;
            chosen(frames, store, x, a.get(), b.get())
        }
        TNode::Convert(a) => {
            let x = value(frames, store, a.get())?;
            Ok(arith::converted(e.ty, x))
        }
    }
}

/// What `&&` or `||` gives, whose right operand is evaluated only where the left one, x, doesn't decide.
#[cycle(value)]
fn logic(frames: u32, store: &Store, op: LogicOp, x: i128, b: &TExpr) -> Result<i128, PropId>
    requires { IsEvaluable (rows_of frames store.now) b.now }
    ensures { answer_of result ≡ logic_value op x (value_of (rows_of frames store.now) b.now) }
{
    match op {
        LogicOp::And => {
            if x == 0 {
                return Ok(0);
            }
        }
        LogicOp::Or => {
            if x != 0 {
                return Ok(1);
            }
        }
    }
    let y = value(frames, store, b)?;
    Ok(arith::bit(y != 0))
}

/// The one of two expressions that a condition, x, chooses.
#[cycle(value)]
fn chosen(frames: u32, store: &Store, x: i128, a: &TExpr, b: &TExpr) -> Result<i128, PropId>
    requires first { IsEvaluable (rows_of frames store.now) a.now }
    requires second { IsEvaluable (rows_of frames store.now) b.now }
    ensures { answer_of result ≡ (if is_zero x then value_of (rows_of frames store.now) b.now else value_of (rows_of frames store.now) a.now) }
{
    if x == 0 {
        value(frames, store, b)
    } else {
        value(frames, store, a)
    }
}

/// An element of an array, whose `bounds` property breaks at an index that isn't within it.
fn element(frames: u32, store: &Store, slot: Slot, bounds: PropId, i: i128) -> Result<i128, PropId>
    ensures { answer_of result ≡ element_at (rows_of frames store.now slot) bounds i }
{
    if i >= 0 && i < store.length(frames, slot) as i128 {
        Ok(store.element(frames, slot, i as usize))
    } else {
        Err(bounds)
    }
}
