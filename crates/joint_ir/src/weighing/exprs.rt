//! What expressions weigh.

ghost use Rattle.std.specs.Prelude.{◌≡◌, ◌+◌, ◌*◌, ◌<◌, ◌≤◌, ◌^◌, min, length};
ghost use Rattle.joint_ir.specs.Weights.{capped as capped_of, unary_weight as unary_of, product_weight as product_of, binary_weight as binary_of, read_weight as read_of, write_weight as write_of, convert_weight as convert_of, expr_weight as expr_of, exprs_weight as exprs_of, option_weight as option_of, condition_weight as condition_of};

use crate::ctype::IntType;
use crate::expr::{BinaryOp, TExpr, TNode, UnaryOp};
use crate::lookup;
use crate::program::CProgram;

/// A weight, or 1 more than the greatest.
pub fn capped(weight: u64) -> u64
    ensures value { result ≡ capped_of weight }
    ensures bound { result ≤ 16777217 }
{
    weight.min(16_777_217)
}

fn unary(op: UnaryOp, ty: IntType, operand: u8) -> u64
    ensures value { result ≡ unary_of op ty operand }
    ensures bound { result < 2 ^ 40 }
{
    match op {
        UnaryOp::Plus | UnaryOp::Flip => 0,
        UnaryOp::Minus => 10 * ty.bits as u64 + 32,
        UnaryOp::Not => operand as u64 + 8,
    }
}

fn product(ty: IntType) -> u64
    ensures value { result ≡ product_of ty }
    ensures bound { result < 2 ^ 40 }
{
    let w = ty.bits as u64;
    if ty.signed {
        44 * (w * w) + 8 * w + 32
    } else {
        11 * (w * w) + 32
    }
}

/// A binary operator of a type, whose operands have so many bits.
pub fn binary(op: BinaryOp, ty: IntType, left: u8, right: u8) -> u64
    ensures value { result ≡ binary_of op ty left right }
    ensures bound { result < 2 ^ 40 }
{
    let w = ty.bits as u64;
    match op {
        BinaryOp::Add | BinaryOp::Sub => 10 * w + 32,
        BinaryOp::Mul => product(ty),
        BinaryOp::Div | BinaryOp::Rem => 16 * (w * w) + 96 * w + 32,
        BinaryOp::Shl | BinaryOp::Shr => 84 * w.max(right as u64) + 12 * right as u64 + 32,
        BinaryOp::And | BinaryOp::Or => w,
        BinaryOp::Xor => 3 * w,
        BinaryOp::Eq | BinaryOp::Ne => 4 * left as u64,
        BinaryOp::Lt | BinaryOp::Le | BinaryOp::Gt | BinaryOp::Ge => 10 * left as u64,
    }
}

/// An element read through an index.
pub fn read(length: u32, index: u8, width: u8) -> u64
    ensures value { result ≡ read_of length index width }
    ensures bound { result < 2 ^ 50 }
{
    let v = index as u64;
    length as u64 * (v + 2 * width as u64) + 20 * v + 32
}

/// What an index adds to a store.
pub fn write(length: u32, index: u8, width: u8) -> u64
    ensures value { result ≡ write_of length index width }
    ensures bound { result < 2 ^ 50 }
{
    let v = index as u64;
    length as u64 * (v + 3 * width as u64 + 1) + 20 * v + 32
}

fn convert(ty: IntType, operand: u8) -> u64
    ensures value { result ≡ convert_of ty operand }
    ensures bound { result < 2 ^ 40 }
{
    if ty.truth { operand as u64 } else { 0 }
}

/// An expression.
pub fn expr(program: &CProgram, e: &TExpr) -> u64
    ensures value { result ≡ capped_of (expr_of program.now e.now) }
    ensures bound { result ≤ 16777217 }
{
    match &e.node {
        TNode::Const(_) | TNode::Read(_) => 4,
        TNode::Index(slot, a, _) => {
            let a = a.get();
            let x = expr(program, a);
            let own = read(lookup::slot_length(program, *slot), a.ty.bits, e.ty.bits);
            capped(x + own + 4)
        }
        TNode::Unary(op, a, _) => {
            let a = a.get();
            let x = expr(program, a);
            capped(x + unary(*op, e.ty, a.ty.bits) + 4)
        }
        TNode::Binary(op, a, b, _, _) => {
            let a = a.get();
            let b = b.get();
            let x = expr(program, a);
            let y = expr(program, b);
            capped(x + y + binary(*op, e.ty, a.ty.bits, b.ty.bits) + 4)
        }
        TNode::Logic(_, a, b) => {
            let a = a.get();
            let b = b.get();
            let x = expr(program, a);
            let y = expr(program, b);
            capped(x + y + (a.ty.bits as u64 + b.ty.bits as u64 + 8) + 4)
        }
        TNode::Choose(c, a, b) => {
            let c = c.get();
            let x = expr(program, c);
            let y = expr(program, a.get());
            let z = expr(program, b.get());
            capped(x + y + z + (3 * e.ty.bits as u64 + c.ty.bits as u64 + 8) + 4)
        }
        TNode::Convert(a) => {
            let a = a.get();
            let x = expr(program, a);
            capped(x + convert(e.ty, a.ty.bits) + 4)
        }
    }
}

/// Expressions.
pub fn exprs(program: &CProgram, es: &[TExpr]) -> u64
    ensures value { result ≡ capped_of (exprs_of program.now es.now) }
    ensures bound { result ≤ 16777217 }
{
    let mut total = 0;
    for e in es {
        total = capped(total + expr(program, e));
    }
    total
}
