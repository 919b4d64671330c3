// Expressions.

ghost use Rattle.std.specs.Prelude.{◌≡◌, ◌<◌, length, slice_get, Some, IfOk, false};
ghost use Rattle.joint_ir.specs.WellFormed.{is_bound};
ghost use Rattle.unrolled.specs.Elements.{terms_of};
ghost use Rattle.expression_steps.specs.Objects.{AsksFor, IsReady};

use crate::elements;
use crate::parts::{self, Typed};
use crate::steps::split_by;
use joint_ir::{Slot, TExpr, TNode};
use sized_terms::SizedTerm;
use std::alloc::AllocError;
use unrolled::{Objects, Unrolled};
use word_eqs::TermId;

/// The term of an object that is no array.
fn first(objects: &Objects, slot: Slot) -> TermId
    requires stored { is_bound slot ≡ false }
    requires some { 0 < length (terms_of objects.now slot) }
    ensures { slice_get (terms_of objects.now slot) 0 ≡ Some result }
{
    objects.elements(slot)[0]
}

/// The terms and the steps of an expression under a guard: the term of its value, with the checks before it, operands from left
/// to right. The right operand of `&&` and `||`, and those of `?:`, stand under guards of their own.
pub fn expr(
    net: &mut Unrolled,
    objects: &Objects,
    frames: u32,
    e: &TExpr,
    guard: SizedTerm,
) -> Result<SizedTerm, AllocError>
    requires { IsReady net.old.terms objects.now e.now guard }
    ensures { IfOk result (λ t. AsksFor net.old net.new objects.now frames e.now guard t) }
{
    // The terms are a graph.
    let _ = net.terms.len();
    match &e.node {
        TNode::Const(n) => {
            let r = parts::literal(net, e.ty, *n, guard)?;
            Ok(r.value)
        }
        TNode::Read(slot) => match *slot {
            Slot::BoundValue => {
                let r = parts::literal(net, e.ty, frames as i128, guard)?;
                Ok(r.value)
            }
            _ => Ok(SizedTerm {
                term: first(objects, *slot),
                width: e.ty.bits,
            }),
        },
        TNode::Unary(op, a, prop) => {
            let operand = a.get();
            let x = expr(net, objects, frames, operand, guard)?;
            let r = parts::unary(net, *op, e.ty, operand.ty, *prop, x, guard)?;
            Ok(r.value)
        }
        TNode::Binary(op, a, b, division, other) => {
            let left = a.get();
            let right = b.get();
            let x = expr(net, objects, frames, left, guard)?;
            let y = expr(net, objects, frames, right, guard)?;
            let typed = Typed {
                ty: e.ty,
                left: left.ty,
                right: right.ty,
                division: *division,
                other: *other,
            };
            let r = parts::binary(net, *op, typed, x, y, guard)?;
            Ok(r.value)
        }
        TNode::Logic(op, a, b) => {
            let x = expr(net, objects, frames, a.get(), guard)?;
            let s = split_by(net, guard, x)?;
            let under = parts::side(*op, s);
            let y = expr(net, objects, frames, b.get(), under)?;
            let t = parts::join(net, *op, s.set, y)?;
            Ok(t)
        }
        TNode::Choose(c, a, b) => {
            let x = expr(net, objects, frames, c.get(), guard)?;
            let s = split_by(net, guard, x)?;
            let y = expr(net, objects, frames, a.get(), s.taken)?;
            let z = expr(net, objects, frames, b.get(), s.other)?;
            let t = parts::choice(net, s.set, y, z)?;
            Ok(t)
        }
        TNode::Convert(a) => {
            let operand = a.get();
            let x = expr(net, objects, frames, operand, guard)?;
            let r = parts::converted(net, operand.ty, e.ty, x, guard)?;
            Ok(r.value)
        }
        TNode::Index(slot, a, prop) => {
            let index = a.get();
            let x = expr(net, objects, frames, index, guard)?;
            let row = objects.elements(*slot);
            let r = elements::element(net, row, index.ty, e.ty, *prop, x, guard)?;
            Ok(r.value)
        }
    }
}
