//! What operators are, and the properties that they have (C99 6.5).

ghost use Rattle.std.specs.Prelude.{◌≡◌};
ghost use Rattle.c_words.specs.Marks.{unary_op as unary_op_of, update_op as update_op_of, meaning_of, overflow_if as overflow_if_of, division_kind as division_kind_of, other_kind as other_kind_of, unary_kind as unary_kind_of};

use c_tree::{AssignmentOperator, BinaryOperator, UnaryOperator};
use joint_ir::{BinaryOp, LogicOp, PropKind, UnaryOp};

/// The unary operator that a mark means.
pub fn unary_op(operator: UnaryOperator) -> UnaryOp
    ensures { result ≡ unary_op_of operator }
{
    match operator {
        UnaryOperator::Plus => UnaryOp::Plus,
        UnaryOperator::Minus => UnaryOp::Minus,
        UnaryOperator::Not => UnaryOp::Not,
        UnaryOperator::Complement => UnaryOp::Flip,
    }
}

/// What the operator between two operands is.
#[derive(Clone, Copy, Debug, PartialEq, Eq)]
pub enum Meaning {
    /// Operands of any type, and a result of type `int`.
    Logic(LogicOp),
    /// Operands of the common type, and a result of that type.
    Arithmetic(BinaryOp),
    /// Operands of the common type, and a result of type `int`.
    Comparison(BinaryOp),
    /// Operands promoted each by itself, and a result of the left one's type.
    Shift(BinaryOp),
}

/// The meaning of a mark between two operands.
pub fn meant(operator: BinaryOperator) -> Meaning
    ensures { result ≡ meaning_of operator }
{
    match operator {
        BinaryOperator::Multiply => Meaning::Arithmetic(BinaryOp::Mul),
        BinaryOperator::Divide => Meaning::Arithmetic(BinaryOp::Div),
        BinaryOperator::Remainder => Meaning::Arithmetic(BinaryOp::Rem),
        BinaryOperator::Add => Meaning::Arithmetic(BinaryOp::Add),
        BinaryOperator::Subtract => Meaning::Arithmetic(BinaryOp::Sub),
        BinaryOperator::ShiftLeft => Meaning::Shift(BinaryOp::Shl),
        BinaryOperator::ShiftRight => Meaning::Shift(BinaryOp::Shr),
        BinaryOperator::Less => Meaning::Comparison(BinaryOp::Lt),
        BinaryOperator::LessEqual => Meaning::Comparison(BinaryOp::Le),
        BinaryOperator::Greater => Meaning::Comparison(BinaryOp::Gt),
        BinaryOperator::GreaterEqual => Meaning::Comparison(BinaryOp::Ge),
        BinaryOperator::Equal => Meaning::Comparison(BinaryOp::Eq),
        BinaryOperator::NotEqual => Meaning::Comparison(BinaryOp::Ne),
        BinaryOperator::And => Meaning::Arithmetic(BinaryOp::And),
        BinaryOperator::Xor => Meaning::Arithmetic(BinaryOp::Xor),
        BinaryOperator::Or => Meaning::Arithmetic(BinaryOp::Or),
        BinaryOperator::LogicalAnd => Meaning::Logic(LogicOp::And),
        BinaryOperator::LogicalOr => Meaning::Logic(LogicOp::Or),
    }
}

/// The operator of a compound assignment (C99 6.5.16.2).
pub fn update_op(operator: AssignmentOperator) -> BinaryOp
    ensures { result ≡ update_op_of operator }
{
    match operator {
        AssignmentOperator::Multiply => BinaryOp::Mul,
        AssignmentOperator::Divide => BinaryOp::Div,
        AssignmentOperator::Remainder => BinaryOp::Rem,
        AssignmentOperator::Add => BinaryOp::Add,
        AssignmentOperator::Subtract => BinaryOp::Sub,
        AssignmentOperator::ShiftLeft => BinaryOp::Shl,
        AssignmentOperator::ShiftRight => BinaryOp::Shr,
        AssignmentOperator::And => BinaryOp::And,
        AssignmentOperator::Xor => BinaryOp::Xor,
        AssignmentOperator::Or => BinaryOp::Or,
    }
}

fn overflow_if(signed: bool) -> Option<PropKind>
    ensures { result ≡ overflow_if_of signed }
{
    if signed {
        Some(PropKind::Overflow)
    } else {
        None
    }
}

/// The first property of an operator: the divisor of `/` and `%` isn't 0.
pub fn division_kind(op: BinaryOp) -> Option<PropKind>
    ensures { result ≡ division_kind_of op }
{
    match op {
        BinaryOp::Div | BinaryOp::Rem => Some(PropKind::Division),
        _ => None,
    }
}

/// The second property of an operator in a type that has a sign or not: no signed overflow, or a shift within its width.
pub fn other_kind(op: BinaryOp, signed: bool) -> Option<PropKind>
    ensures { result ≡ other_kind_of op signed }
{
    match op {
        BinaryOp::Add | BinaryOp::Sub | BinaryOp::Mul | BinaryOp::Div | BinaryOp::Rem => {
            overflow_if(signed)
        }
        BinaryOp::Shl | BinaryOp::Shr => Some(PropKind::Shift),
        _ => None,
    }
}

/// The property of a unary operator in a type that has a sign or not.
pub fn unary_kind(op: UnaryOp, signed: bool) -> Option<PropKind>
    ensures { result ≡ unary_kind_of op signed }
{
    match op {
        UnaryOp::Minus => overflow_if(signed),
        _ => None,
    }
}
