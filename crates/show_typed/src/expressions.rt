//! Prints typed expressions: each one as its type and what it is made of, with the properties of its checks.

use joint_ir::{BinaryOp, IntType, LogicOp, PropId, Slot, TExpr, TNode, UnaryOp};
use std::io;

/// A type as its bits behind `i`, or `u` where it is unsigned; `truth` for `_Bool`.
pub fn print_type<R: Print>(rt: &R, ty: IntType) -> io::Result<()> {
    let bits = ty.bits;
    if ty.truth {
        print!(rt; "truth")
    } else if ty.signed {
        print!(rt; "i{bits}")
    } else {
        print!(rt; "u{bits}")
    }
}

/// An object, by its number among those of its kind.
pub fn print_slot<R: Print>(rt: &R, slot: Slot) -> io::Result<()> {
    match slot {
        Slot::Global(number) => print!(rt; "global{number}"),
        Slot::Local(number) => print!(rt; "local{number}"),
        Slot::Member(number) => print!(rt; "member{number}"),
        Slot::BoundValue => print!(rt; "bound"),
    }
}

fn unary_mark(operator: UnaryOp) -> &'static str {
    match operator {
        UnaryOp::Plus => "+",
        UnaryOp::Minus => "-",
        UnaryOp::Flip => "~",
        UnaryOp::Not => "!",
    }
}

/// The mark of an operator of two operands.
pub fn binary_mark(operator: BinaryOp) -> &'static str {
    match operator {
        BinaryOp::Add => "+",
        BinaryOp::Sub => "-",
        BinaryOp::Mul => "*",
        BinaryOp::Div => "/",
        BinaryOp::Rem => "%",
        BinaryOp::Shl => "<<",
        BinaryOp::Shr => ">>",
        BinaryOp::And => "&",
        BinaryOp::Or => "|",
        BinaryOp::Xor => "^",
        BinaryOp::Eq => "==",
        BinaryOp::Ne => "!=",
        BinaryOp::Lt => "<",
        BinaryOp::Le => "<=",
        BinaryOp::Gt => ">",
        BinaryOp::Ge => ">=",
    }
}

fn logic_mark(operator: LogicOp) -> &'static str {
    match operator {
        LogicOp::And => "&&",
        LogicOp::Or => "||",
    }
}

/// `{p}` for a check that may break the property p, and nothing where there is no check.
pub fn print_check<R: Print>(rt: &R, prop: Option<PropId>) -> io::Result<()> {
    match prop {
        None => Ok(()),
        Some(prop) => print!(rt; "{{{}}}", prop.0),
    }
}

/// An expression in parentheses, its type in front of them.
#[cycle(expression)]
pub fn print_expression<R: Print>(rt: &R, e: &TExpr) -> io::Result<()> {
    print_type(rt, e.ty)?;
    print!(rt; "(")?;
    print_node(rt, &e.node)?;
    print!(rt; ")")
}

#[cycle(expression)]
fn print_node<R: Print>(rt: &R, node: &TNode) -> io::Result<()> {
    match node {
        TNode::Const(number) => print!(rt; "{number}"),
        TNode::Read(slot) => print_slot(rt, *slot),
        TNode::Index(slot, index, bounds) => {
            print_slot(rt, *slot)?;
            print!(rt; "[")?;
            print_expression(rt, index.get())?;
            print!(rt; "]")?;
            print_check(rt, Some(*bounds))
        }
        TNode::Unary(operator, operand, overflow) => {
            print!(rt; "{}", unary_mark(*operator))?;
            print_check(rt, *overflow)?;
            print_expression(rt, operand.get())
        }
        TNode::Binary(operator, left, right, division, other) => {
            print_expression(rt, left.get())?;
            print!(rt; " {}", binary_mark(*operator))?;
            print_check(rt, *division)?;
            print_check(rt, *other)?;
            print!(rt; " ")?;
            print_expression(rt, right.get())
        }
        TNode::Logic(operator, left, right) => {
            print_expression(rt, left.get())?;
            print!(rt; " {} ", logic_mark(*operator))?;
            print_expression(rt, right.get())
        }
        TNode::Choose(condition, first, second) => {
            print_expression(rt, condition.get())?;
            print!(rt; " ? ")?;
            print_expression(rt, first.get())?;
            print!(rt; " : ")?;
            print_expression(rt, second.get())
        }
        TNode::Convert(operand) => print_expression(rt, operand.get()),
    }
}
