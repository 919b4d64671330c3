//! C's operators as terms with their checks, each by its kind.
#![tactic(auto)]

ghost use Rattle.std.specs.Prelude.{◌≡◌, ◌+◌, ◌*◌, ◌≤◌, length, IfOk};
ghost use Rattle.joint_ir.specs.Values.{unary_value, binary_value};
ghost use Rattle.joint_ir.specs.Weights.{unary_weight, binary_weight};
ghost use Rattle.sized_terms.specs.Sized.{Has};
ghost use Rattle.checked_terms.specs.Checked.{stands, IsChecked, plain as plain_of};
ghost use Rattle.c_operator_terms.specs.Operators.{IsUnary, IsBinary, less_op_of};
ghost use Rattle.word_eqs.specs.Graph.{MOST_TERMS};

use bits_core::Op2;
use checked_terms::Checked;
use joint_ir::program::PropId;
use joint_ir::{BinaryOp, IntType, UnaryOp};
use sized_terms::SizedTerm;
use std::alloc::AllocError;
use word_eqs::Terms;

/// A result without checks.
fn plain(value: SizedTerm) -> Checked
    ensures { result ≡ plain_of value }
{
    Checked {
        division: None,
        other: None,
        value,
    }
}

/// A unary operator of type `ty`, over an operand of type `from`.
pub fn unary(
    terms: &mut Terms,
    op: UnaryOp,
    ty: IntType,
    from: IntType,
    other: Option<PropId>,
    a: SizedTerm,
) -> Result<Checked, AllocError>
    requires has { Has terms.old a }
    requires width { a.width ≡ from.bits }
    requires fits { IsUnary op ty from other }
    requires room { length terms.old.terms + 5 ≤ MOST_TERMS }
    ensures { IfOk result (λ r. IsChecked terms.old terms.new ty (8 * unary_weight op ty from.bits) 5 r (λ v. unary_value op ty other (stands from v a))) }
{
    // The terms are a graph.
    let _ = terms.len();
    match op {
        UnaryOp::Plus => Ok(plain(a)),
        UnaryOp::Minus => {
            let r = checked_terms::minus(terms, ty, other, a)?;
            Ok(r)
        }
        UnaryOp::Flip => {
            let t = checked_terms::flipped(terms, ty, a)?;
            Ok(plain(t))
        }
        UnaryOp::Not => {
            let t = checked_terms::opposite(terms, from, a)?;
            Ok(plain(t))
        }
    }
}

/// The operation that compares numbers with or without sign.
fn less_op(signed: bool) -> Op2
    ensures { result ≡ less_op_of signed }
{
    if signed { Op2::LtS } else { Op2::LtU }
}

/// A binary operator of type `ty`, over operands of types `left` and `right`.
pub fn binary(
    terms: &mut Terms,
    op: BinaryOp,
    ty: IntType,
    left: IntType,
    right: IntType,
    division: Option<PropId>,
    other: Option<PropId>,
    a: SizedTerm,
    b: SizedTerm,
) -> Result<Checked, AllocError>
    requires first { Has terms.old a }
    requires second { Has terms.old b }
    requires width_a { a.width ≡ left.bits }
    requires width_b { b.width ≡ right.bits }
    requires fits { IsBinary op ty left right division other }
    requires room { length terms.old.terms + 11 ≤ MOST_TERMS }
    ensures { IfOk result (λ r. IsChecked terms.old terms.new ty (8 * binary_weight op ty left.bits right.bits) 11 r (λ v. binary_value op ty division other (stands left v a) (stands right v b))) }
{
    match op {
        BinaryOp::Add => {
            let r = checked_terms::sum(terms, ty, other, a, b)?;
            Ok(r)
        }
        BinaryOp::Sub => {
            let r = checked_terms::difference(terms, ty, other, a, b)?;
            Ok(r)
        }
        BinaryOp::Mul => {
            let r = checked_terms::product(terms, ty, other, a, b)?;
            Ok(r)
        }
        BinaryOp::Div => {
            let r = division_terms::quotient(terms, ty, division, other, a, b)?;
            Ok(r)
        }
        BinaryOp::Rem => {
            let r = division_terms::remainder(terms, ty, division, other, a, b)?;
            Ok(r)
        }
        BinaryOp::Shl => {
            let r = shift_terms::left(terms, ty, right, other, a, b)?;
            Ok(r)
        }
        BinaryOp::Shr => {
            let r = shift_terms::right(terms, ty, right, other, a, b)?;
            Ok(r)
        }
        BinaryOp::And => {
            let t = checked_terms::bitwise(terms, Op2::And, ty, a, b)?;
            Ok(plain(t))
        }
        BinaryOp::Or => {
            let t = checked_terms::bitwise(terms, Op2::Or, ty, a, b)?;
            Ok(plain(t))
        }
        BinaryOp::Xor => {
            let t = checked_terms::bitwise(terms, Op2::Xor, ty, a, b)?;
            Ok(plain(t))
        }
        BinaryOp::Eq => {
            let t = checked_terms::compare(terms, Op2::Eq, false, a, b)?;
            Ok(plain(t))
        }
        BinaryOp::Ne => {
            let t = checked_terms::compare(terms, Op2::Eq, true, a, b)?;
            Ok(plain(t))
        }
        BinaryOp::Lt => {
            let t = checked_terms::compare(terms, less_op(left.signed), false, a, b)?;
            Ok(plain(t))
        }
        BinaryOp::Le => {
            let t = checked_terms::compare(terms, less_op(left.signed), true, b, a)?;
            Ok(plain(t))
        }
        BinaryOp::Gt => {
            let t = checked_terms::compare(terms, less_op(left.signed), false, b, a)?;
            Ok(plain(t))
        }
        BinaryOp::Ge => {
            let t = checked_terms::compare(terms, less_op(left.signed), true, a, b)?;
            Ok(plain(t))
        }
    }
}
