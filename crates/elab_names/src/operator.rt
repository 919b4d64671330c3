//! What operators give on constants (IEEE 1364-2005, 5.1).

ghost use Rattle.std.specs.Prelude.{◌≡◌};
ghost use Rattle.elab_names.specs.declared.constant.Worth.TheVariants as the;
ghost use Rattle.elab_names.specs.Operators.{form_of as form_of_of, is_division as is_division_of, flipped as flipped_of, arithmetic as arithmetic_of, less as less_of, comparison as comparison_of, amount as amount_of, shifted as shifted_of, is_reduction as is_reduction_of, unary_word as unary_word_of, reduced as reduced_of, divided as divided_of, arithmetic_worth as arithmetic_worth_of, comparison_worth as comparison_worth_of, logical as logical_of, logical_worth as logical_worth_of, shifted_worth as shifted_worth_of, unary_worth as unary_worth_of, reduced_worth as reduced_worth_of, branch as branch_of, chosen as chosen_of, sign_of as sign_of_of};
ghost use Rattle.elab_names.specs.Constants.{IsIn};

use crate::constant::{Worth, flag, is_true, is_zero};
use crate::context::Context;
use bits_core::{Op1, Op2, Word};
use v_tree::{BinaryOp, UnaryOp};

/// How an operator treats its operands (table 5-22).
#[derive(Clone, Copy, Debug, PartialEq, Eq)]
pub enum Form {
    /// Both are of the length of the whole.
    Arithmetic,
    /// The left one is of the length of the whole, the right one stands for itself.
    Shift,
    /// Both are of the greater length of the two.
    Comparison,
    /// Both stand for themselves.
    Logical,
}

/// How a binary operator treats its operands.
pub fn form_of(op: BinaryOp) -> Form
    ensures { result ≡ form_of_of op }
{
    match op {
        BinaryOp::LogicalOr | BinaryOp::LogicalAnd => Form::Logical,
        BinaryOp::Equal
        | BinaryOp::NotEqual
        | BinaryOp::Less
        | BinaryOp::LessEqual
        | BinaryOp::Greater
        | BinaryOp::GreaterEqual => Form::Comparison,
        BinaryOp::ShiftLeft
        | BinaryOp::ShiftRight
        | BinaryOp::ArithmeticShiftLeft
        | BinaryOp::ArithmeticShiftRight => Form::Shift,
        _ => Form::Arithmetic,
    }
}

fn is_division(op: BinaryOp) -> bool
    ensures { result ≡ is_division_of op }
{
    match op {
        BinaryOp::Divide | BinaryOp::Remainder => true,
        _ => false,
    }
}

fn flipped(w: Word) -> Word
    ensures { result ≡ flipped_of w }
{
    w.apply1(Op1::Not)
}

fn arithmetic(op: BinaryOp, signed: bool, a: Word, b: Word) -> Word
    requires { b.width ≡ a.width }
    ensures value { result ≡ arithmetic_of op signed a b }
    ensures width { result.width ≡ a.width }
{
    match op {
        BinaryOp::BitOr => a.apply2(Op2::Or, b),
        BinaryOp::BitXor => a.apply2(Op2::Xor, b),
        BinaryOp::BitXnor => flipped(a.apply2(Op2::Xor, b)),
        BinaryOp::BitAnd => a.apply2(Op2::And, b),
        BinaryOp::Add => a.apply2(Op2::Add, b),
        BinaryOp::Subtract => a.apply2(Op2::Sub, b),
        BinaryOp::Multiply => a.apply2(Op2::Mul, b),
        BinaryOp::Divide => {
            if signed {
                a.apply2(Op2::DivS, b)
            } else {
                a.apply2(Op2::DivU, b)
            }
        }
        BinaryOp::Remainder => {
            if signed {
                a.apply2(Op2::RemS, b)
            } else {
                a.apply2(Op2::RemU, b)
            }
        }
        _ => a,
    }
}

fn less(signed: bool, a: Word, b: Word) -> Word
    requires { b.width ≡ a.width }
    ensures { result ≡ less_of signed a b }
{
    if signed {
        a.apply2(Op2::LtS, b)
    } else {
        a.apply2(Op2::LtU, b)
    }
}

fn comparison(op: BinaryOp, signed: bool, a: Word, b: Word) -> Word
    requires { b.width ≡ a.width }
    ensures { result ≡ comparison_of op signed a b }
{
    match op {
        BinaryOp::Equal => a.apply2(Op2::Eq, b),
        BinaryOp::NotEqual => flipped(a.apply2(Op2::Eq, b)),
        BinaryOp::Less => less(signed, a, b),
        BinaryOp::LessEqual => flipped(less(signed, b, a)),
        BinaryOp::Greater => less(signed, b, a),
        BinaryOp::GreaterEqual => flipped(less(signed, a, b)),
        _ => a,
    }
}

fn amount(of: Word, n: u128) -> Word
    ensures value { result ≡ amount_of of.width n }
    ensures width { result.width ≡ of.width }
{
    match Word::new(of.width(), n) {
        Some(w) => w,
        None => flipped(Word::from_low_bits(of.width(), 0)),
    }
}

fn shifted(op: BinaryOp, signed: bool, a: Word, n: u128) -> Word
    ensures value { result ≡ shifted_of op signed a n }
    ensures width { result.width ≡ a.width }
{
    match op {
        BinaryOp::ShiftLeft | BinaryOp::ArithmeticShiftLeft => a.apply2(Op2::Shl, amount(a, n)),
        BinaryOp::ShiftRight => a.apply2(Op2::ShrU, amount(a, n)),
        BinaryOp::ArithmeticShiftRight => {
            if signed {
                a.apply2(Op2::ShrS, amount(a, n))
            } else {
                a.apply2(Op2::ShrU, amount(a, n))
            }
        }
        _ => a,
    }
}

/// Whether a unary operator gives one bit of all of its operand.
pub fn is_reduction(op: UnaryOp) -> bool
    ensures { result ≡ is_reduction_of op }
{
    match op {
        UnaryOp::Plus | UnaryOp::Minus | UnaryOp::BitNot => false,
        _ => true,
    }
}

fn unary_word(op: UnaryOp, a: Word) -> Word
    ensures value { result ≡ unary_word_of op a }
    ensures width { result.width ≡ a.width }
{
    match op {
        UnaryOp::Minus => a.apply1(Op1::Neg),
        UnaryOp::BitNot => flipped(a),
        _ => a,
    }
}

fn reduced(op: UnaryOp, a: Word) -> Word
    ensures { result ≡ reduced_of op a }
{
    match op {
        UnaryOp::LogicalNot => flag(is_zero(a)),
        UnaryOp::ReduceAnd => a.apply1(Op1::RedAnd),
        UnaryOp::ReduceNand => flipped(a.apply1(Op1::RedAnd)),
        UnaryOp::ReduceOr => a.apply1(Op1::RedOr),
        UnaryOp::ReduceNor => flipped(a.apply1(Op1::RedOr)),
        UnaryOp::ReduceXor => a.apply1(Op1::RedXor),
        UnaryOp::ReduceXnor => flipped(a.apply1(Op1::RedXor)),
        _ => a,
    }
}

fn divided(context: Option<Context>, op: BinaryOp, a: Worth, b: Worth) -> Worth
    requires left { IsIn context a }
    requires right { IsIn context b }
    ensures value { result ≡ divided_of op (sign_of_of context) a b }
    ensures within { IsIn context result }
{
    match b {
        Worth::Value(n) => {
            if is_zero(n) {
                Worth::NotConstant
            } else {
                match a {
                    Worth::Value(m) => Worth::Value(arithmetic(op, sign_of(context), m, n)),
                    Worth::Open => Worth::Open,
                    Worth::NotConstant => Worth::NotConstant,
                }
            }
        }
        Worth::Open => match a {
            Worth::NotConstant => Worth::NotConstant,
            Worth::Open => Worth::Open,
            Worth::Value(_) => Worth::Open,
        },
        Worth::NotConstant => Worth::NotConstant,
    }
}

/// The sign of a context.
pub fn sign_of(context: Option<Context>) -> bool
    ensures { result ≡ sign_of_of context }
{
    match context {
        None => false,
        Some(x) => x.signed,
    }
}

/// Operands at the width and sign of the whole.
pub fn arithmetic_worth(context: Option<Context>, op: BinaryOp, a: Worth, b: Worth) -> Worth
    requires left { IsIn context a }
    requires right { IsIn context b }
    ensures value { result ≡ arithmetic_worth_of op (sign_of_of context) a b }
    ensures within { IsIn context result }
{
    if is_division(op) {
        return divided(context, op, a, b);
    }
    match a {
        Worth::Value(m) => match b {
            Worth::Value(n) => Worth::Value(arithmetic(op, sign_of(context), m, n)),
            Worth::Open => Worth::Open,
            Worth::NotConstant => Worth::NotConstant,
        },
        Worth::Open => match b {
            Worth::NotConstant => Worth::NotConstant,
            Worth::Open => Worth::Open,
            Worth::Value(_) => Worth::Open,
        },
        Worth::NotConstant => Worth::NotConstant,
    }
}

/// Operands at the greater length of the two.
pub fn comparison_worth(context: Option<Context>, op: BinaryOp, a: Worth, b: Worth) -> Worth
    requires left { IsIn context a }
    requires right { IsIn context b }
    ensures { result ≡ comparison_worth_of op (sign_of_of context) a b }
{
    match a {
        Worth::Value(m) => match b {
            Worth::Value(n) => Worth::Value(comparison(op, sign_of(context), m, n)),
            Worth::Open => Worth::Open,
            Worth::NotConstant => Worth::NotConstant,
        },
        Worth::Open => match b {
            Worth::NotConstant => Worth::NotConstant,
            Worth::Open => Worth::Open,
            Worth::Value(_) => Worth::Open,
        },
        Worth::NotConstant => Worth::NotConstant,
    }
}

fn logical(op: BinaryOp, a: bool, b: bool) -> bool
    ensures { result ≡ logical_of op a b }
{
    match op {
        BinaryOp::LogicalOr => a || b,
        _ => a && b,
    }
}

/// Operands that stand for themselves.
pub fn logical_worth(op: BinaryOp, a: Worth, b: Worth) -> Worth
    ensures { result ≡ logical_worth_of op a b }
{
    match a {
        Worth::Value(m) => match b {
            Worth::Value(n) => Worth::Value(flag(logical(op, is_true(m), is_true(n)))),
            Worth::Open => Worth::Open,
            Worth::NotConstant => Worth::NotConstant,
        },
        Worth::Open => match b {
            Worth::NotConstant => Worth::NotConstant,
            Worth::Open => Worth::Open,
            Worth::Value(_) => Worth::Open,
        },
        Worth::NotConstant => Worth::NotConstant,
    }
}

/// What is shifted at the width and sign of the whole, the amount by itself.
pub fn shifted_worth(context: Option<Context>, op: BinaryOp, a: Worth, b: Worth) -> Worth
    requires { IsIn context a }
    ensures value { result ≡ shifted_worth_of op (sign_of_of context) a b }
    ensures within { IsIn context result }
{
    match a {
        Worth::Value(m) => match b {
            Worth::Value(n) => Worth::Value(shifted(op, sign_of(context), m, n.value())),
            Worth::Open => Worth::Open,
            Worth::NotConstant => Worth::NotConstant,
        },
        Worth::Open => match b {
            Worth::NotConstant => Worth::NotConstant,
            Worth::Open => Worth::Open,
            Worth::Value(_) => Worth::Open,
        },
        Worth::NotConstant => Worth::NotConstant,
    }
}

/// An operand at the width of the whole.
pub fn unary_worth(context: Option<Context>, op: UnaryOp, a: Worth) -> Worth
    requires { IsIn context a }
    ensures value { result ≡ unary_worth_of op a }
    ensures within { IsIn context result }
{
    match a {
        Worth::Value(m) => Worth::Value(unary_word(op, m)),
        Worth::Open => Worth::Open,
        Worth::NotConstant => Worth::NotConstant,
    }
}

/// One bit of an operand that stands for itself.
pub fn reduced_worth(op: UnaryOp, a: Worth) -> Worth
    ensures { result ≡ reduced_worth_of op a }
{
    match a {
        Worth::Value(m) => Worth::Value(reduced(op, m)),
        Worth::Open => Worth::Open,
        Worth::NotConstant => Worth::NotConstant,
    }
}

fn branch(c: Word, m: Word, n: Word) -> Word
    ensures { result ≡ branch_of c m n }
{
    if is_true(c) { m } else { n }
}

fn branches(context: Option<Context>, c: Word, a: Worth, b: Worth) -> Worth
    requires left { IsIn context a }
    requires right { IsIn context b }
    ensures value { result ≡ chosen_of (the.Value c) a b }
    ensures within { IsIn context result }
{
    match a {
        Worth::Value(m) => match b {
            Worth::Value(n) => Worth::Value(branch(c, m, n)),
            Worth::Open => Worth::Open,
            Worth::NotConstant => Worth::NotConstant,
        },
        Worth::Open => match b {
            Worth::NotConstant => Worth::NotConstant,
            Worth::Open => Worth::Open,
            Worth::Value(_) => Worth::Open,
        },
        Worth::NotConstant => Worth::NotConstant,
    }
}

fn open_branches(a: Worth, b: Worth) -> Worth
    ensures { result ≡ chosen_of the.Open a b }
{
    match a {
        Worth::NotConstant => Worth::NotConstant,
        Worth::Open => match b {
            Worth::NotConstant => Worth::NotConstant,
            Worth::Open => Worth::Open,
            Worth::Value(_) => Worth::Open,
        },
        Worth::Value(_) => match b {
            Worth::NotConstant => Worth::NotConstant,
            Worth::Open => Worth::Open,
            Worth::Value(_) => Worth::Open,
        },
    }
}

/// The branch that a condition chooses; both are looked at.
pub fn chosen(context: Option<Context>, condition: Worth, a: Worth, b: Worth) -> Worth
    requires left { IsIn context a }
    requires right { IsIn context b }
    ensures value { result ≡ chosen_of condition a b }
    ensures within { IsIn context result }
{
    match condition {
        Worth::NotConstant => Worth::NotConstant,
        Worth::Open => open_branches(a, b),
        Worth::Value(c) => branches(context, c, a, b),
    }
}
