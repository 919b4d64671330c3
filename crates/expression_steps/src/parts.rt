// What one node of an expression adds, its operands' terms given.

ghost use Rattle.std.specs.Prelude.{◌≡◌, ◌+◌, ◌*◌, ◌<◌, ◌≤◌, length, IfOk, OnOk};
ghost use Rattle.joint_ir.specs.Types.{converted as converted_to, IsType, InRange};
ghost use Rattle.joint_ir.specs.Values.{unary_value, binary_value, Value};
ghost use Rattle.joint_ir.specs.Weights.{unary_weight, binary_weight, convert_weight};
ghost use Rattle.sized_terms.specs.Sized.{Has, IsMade, bits};
ghost use Rattle.bits_core.specs.Word.{at_zero};
ghost use Rattle.checked_terms.specs.Checked.{stands, plain as plain_of};
ghost use Rattle.c_operator_terms.specs.Operators.{IsUnary, IsBinary};
ghost use Rattle.expression_steps.specs.Asking.{IsDone, IsJoined, side_of, join_op_of};

use crate::steps::{Split, push_checks};
use bits_core::Op2;
use checked_terms::Checked;
use joint_ir::program::PropId;
use joint_ir::{BinaryOp, IntType, LogicOp, UnaryOp};
use sized_terms::SizedTerm;
use std::alloc::AllocError;
use unrolled::{Unrolled, room};

fn plain(value: SizedTerm) -> Checked
    ensures { result ≡ plain_of value }
{
    Checked {
        division: None,
        other: None,
        value,
    }
}

/// A number of a type.
pub fn literal(
    net: &mut Unrolled,
    ty: IntType,
    n: i128,
    guard: SizedTerm,
) -> Result<Checked, AllocError>
    requires ty { IsType ty }
    requires within { InRange ty n }
    ensures { IfOk result (λ r. IsDone net.old net.new ty 0 1 guard r (λ v. Value n)) }
{
    room(net, 1)?;
    let t = checked_terms::literal(&mut net.terms, ty, n)?;
    Ok(plain(t))
}

/// A conversion.
pub fn converted(
    net: &mut Unrolled,
    from: IntType,
    ty: IntType,
    x: SizedTerm,
    guard: SizedTerm,
) -> Result<Checked, AllocError>
    requires has { Has net.old.terms x }
    requires width { x.width ≡ from.bits }
    requires ty { IsType ty }
    ensures { IfOk result (λ r. IsDone net.old net.new ty (8 * convert_weight ty from.bits) 1 guard r (λ v. Value (converted_to ty (stands from v x)))) }
{
    room(net, 1)?;
    let t = checked_terms::converted(&mut net.terms, from, ty, x)?;
    Ok(plain(t))
}

/// A unary operator with its check.
pub fn unary(
    net: &mut Unrolled,
    op: UnaryOp,
    ty: IntType,
    from: IntType,
    other: Option<PropId>,
    x: SizedTerm,
    guard: SizedTerm,
) -> Result<Checked, AllocError>
    requires has { Has net.old.terms x }
    requires width { x.width ≡ from.bits }
    requires fits { IsUnary op ty from other }
    ensures { IfOk result (λ r. IsDone net.old net.new ty (8 * unary_weight op ty from.bits) 5 guard r (λ v. unary_value op ty other (stands from v x))) }
{
    room(net, 5)?;
    let r = c_operator_terms::unary(&mut net.terms, op, ty, from, other, x)?;
    push_checks(net, guard, r)?;
    Ok(r)
}

/// The types and the properties of a binary operator.
#[derive(Clone, Copy, Debug, PartialEq, Eq)]
pub struct Typed {
    pub ty: IntType,
    pub left: IntType,
    pub right: IntType,
    pub division: Option<PropId>,
    pub other: Option<PropId>,
}

/// A binary operator with its checks.
pub fn binary(
    net: &mut Unrolled,
    op: BinaryOp,
    t: Typed,
    x: SizedTerm,
    y: SizedTerm,
    guard: SizedTerm,
) -> Result<Checked, AllocError>
    requires first { Has net.old.terms x }
    requires second { Has net.old.terms y }
    requires width_x { x.width ≡ t.left.bits }
    requires width_y { y.width ≡ t.right.bits }
    requires fits { IsBinary op t.ty t.left t.right t.division t.other }
    ensures { IfOk result (λ r. IsDone net.old net.new t.ty (8 * binary_weight op t.ty t.left.bits t.right.bits) 11 guard r (λ v. binary_value op t.ty t.division t.other (stands t.left v x) (stands t.right v y))) }
{
    room(net, 11)?;
    let r = c_operator_terms::binary(
        &mut net.terms,
        op,
        t.ty,
        t.left,
        t.right,
        t.division,
        t.other,
        x,
        y,
    )?;
    push_checks(net, guard, r)?;
    Ok(r)
}

/// The guard under which `&&` or `||` evaluates its right operand.
pub fn side(op: LogicOp, s: Split) -> SizedTerm
    ensures { result ≡ side_of op s }
{
    match op {
        LogicOp::And => s.taken,
        LogicOp::Or => s.other,
    }
}

fn join_op(op: LogicOp) -> Op2
    ensures { result ≡ join_op_of op }
{
    match op {
        LogicOp::And => Op2::And,
        LogicOp::Or => Op2::Or,
    }
}

/// 0 or 1 for `&&` or `||` of a test and a term.
pub fn join(
    net: &mut Unrolled,
    op: LogicOp,
    set: SizedTerm,
    y: SizedTerm,
) -> Result<SizedTerm, AllocError>
    requires set { Has net.old.terms set }
    requires bit { set.width ≡ 1 }
    requires has { Has net.old.terms y }
    ensures { IfOk result (λ t. IsJoined net.old net.new op set y t) }
{
    room(net, 3)?;
    let right = checked_terms::is_set(&mut net.terms, y)?;
    let both = sized_terms::two(&mut net.terms, join_op(op), set, right)?;
    let t = sized_terms::resize(&mut net.terms, both, 32, false)?;
    Ok(t)
}

/// The first of two terms where a test holds, and else the second.
pub fn choice(
    net: &mut Unrolled,
    set: SizedTerm,
    y: SizedTerm,
    z: SizedTerm,
) -> Result<SizedTerm, AllocError>
    requires set { Has net.old.terms set }
    requires bit { set.width ≡ 1 }
    requires first { Has net.old.terms y }
    requires second { Has net.old.terms z }
    requires same { z.width ≡ y.width }
    ensures list { OnOk result (net.new.list ≡ net.old.list) }
    ensures made { IfOk result (λ t. IsMade net.old.terms net.new.terms y.width (3 * y.width) 1 t (λ v. at_zero (bits v set) (bits v z) (bits v y))) }
{
    room(net, 1)?;
    let t = sized_terms::choose(&mut net.terms, set, y, z)?;
    Ok(t)
}
