//! The widths and signs at which operands stand (Table 5-22, 5.5.2).

ghost use Rattle.std.specs.Prelude.{◌≡◌, max, ◌&&◌, length, if◌then◌else◌};
ghost use Rattle.bits_core.specs.Word.{IsWidth};
ghost use Rattle.flat_tree.specs.Measures.{left_width, right_width};
ghost use Rattle.flat_tree.specs.Operators.{form_of, is_reduction as reduces};
ghost use Rattle.flat_tree.specs.Values.{length_of, is_signed};
ghost use Rattle.flat_values.specs.Fits.{IsTaken, shapes_of};
ghost use Rattle.operand_contexts.specs.Contexts.{IsContext, form_as, has_site, left_sign, right_sign};

use flat_tree::{FlatExpr, FlatSignal};
use flat_values::{LengthSign, own};
use v_tree::{BinaryOp, UnaryOp};

/// How the operands of a binary operator get their width and sign.
#[derive(Clone, Copy)]
pub enum Operands {
    /// Both from the context.
    InContext,
    /// Both from the context; by 0 the result is unknown.
    Dividing,
    /// The greater of their lengths, signed if both are.
    Comparing,
    /// Each by itself.
    Logical,
    /// The left one from the context, the amount by itself.
    Shifting,
}

/// How the operands of an operator get their width and sign.
pub fn operand_form(op: BinaryOp) -> Operands
    ensures { form_as result ≡ form_of op }
{
    match op {
        BinaryOp::LogicalOr | BinaryOp::LogicalAnd => Operands::Logical,
        BinaryOp::Equal
        | BinaryOp::NotEqual
        | BinaryOp::Less
        | BinaryOp::LessEqual
        | BinaryOp::Greater
        | BinaryOp::GreaterEqual => Operands::Comparing,
        BinaryOp::ShiftLeft
        | BinaryOp::ShiftRight
        | BinaryOp::ArithmeticShiftLeft
        | BinaryOp::ArithmeticShiftRight => Operands::Shifting,
        BinaryOp::Divide | BinaryOp::Remainder => Operands::Dividing,
        BinaryOp::BitOr
        | BinaryOp::BitXor
        | BinaryOp::BitXnor
        | BinaryOp::BitAnd
        | BinaryOp::Add
        | BinaryOp::Subtract
        | BinaryOp::Multiply => Operands::InContext,
    }
}

/// Whether an operator divides, and so has a site.
pub fn divides(op: BinaryOp) -> bool
    ensures { result ≡ has_site (form_of op) }
{
    match operand_form(op) {
        Operands::Dividing => true,
        Operands::InContext | Operands::Comparing | Operands::Logical | Operands::Shifting => false,
    }
}

/// The greater of two widths.
fn greater(a: u8, b: u8) -> u8
    ensures { result ≡ max a b }
{
    if a < b { b } else { a }
}

/// What the operands of a comparison have: the greater length, signed if both are.
fn alike(a: LengthSign, b: LengthSign) -> LengthSign
    ensures length { result.length ≡ max a.length b.length }
    ensures signed { result.signed ≡ (a.signed && b.signed) }
{
    LengthSign {
        length: greater(a.length, b.length),
        signed: a.signed && b.signed,
    }
}

/// The width and the sign at which a left operand stands, where the whole has those of `whole`.
pub fn left_context(form: Operands, whole: LengthSign, a: LengthSign, b: LengthSign) -> LengthSign
    ensures length { result.length ≡ left_width (form_as form) whole.length a.length b.length }
    ensures signed { result.signed ≡ left_sign (form_as form) whole.signed a.signed b.signed }
{
    match form {
        Operands::InContext | Operands::Dividing | Operands::Shifting => whole,
        Operands::Comparing => alike(a, b),
        Operands::Logical => a,
    }
}

/// The same for a right operand.
pub fn right_context(form: Operands, whole: LengthSign, a: LengthSign, b: LengthSign) -> LengthSign
    ensures length { result.length ≡ right_width (form_as form) whole.length a.length b.length }
    ensures signed { result.signed ≡ right_sign (form_as form) whole.signed a.signed b.signed }
{
    match form {
        Operands::InContext | Operands::Dividing => whole,
        Operands::Comparing => alike(a, b),
        Operands::Logical | Operands::Shifting => b,
    }
}

/// Whether a unary operator makes one bit of an operand that stands by itself (5.1.9, 5.1.11).
pub fn is_reduction(op: UnaryOp) -> bool
    ensures { result ≡ reduces op }
{
    match op {
        UnaryOp::Plus | UnaryOp::Minus | UnaryOp::BitNot => false,
        UnaryOp::LogicalNot
        | UnaryOp::ReduceAnd
        | UnaryOp::ReduceNand
        | UnaryOp::ReduceOr
        | UnaryOp::ReduceNor
        | UnaryOp::ReduceXor
        | UnaryOp::ReduceXnor => true,
    }
}

/// The width and the sign at which the operand of a unary operator stands.
pub fn unary_context(op: UnaryOp, whole: LengthSign, a: LengthSign) -> LengthSign
    ensures length { result.length ≡ (if reduces op then a.length else whole.length) }
    ensures signed { result.signed ≡ (if reduces op then a.signed else whole.signed) }
{
    if is_reduction(op) { a } else { whole }
}

/// The widths and the signs at which two operands stand.
#[derive(Clone, Copy)]
pub struct OperandContexts {
    pub left: LengthSign,
    pub right: LengthSign,
}

/// The widths and the signs at which the operands of a binary operator stand, where the whole has those of `at`.
pub fn contexts(
    signals: &[FlatSignal],
    op: BinaryOp,
    a: &FlatExpr,
    b: &FlatExpr,
    at: LengthSign,
) -> OperandContexts
    requires left { IsTaken (length signals.now) (shapes_of signals.now) a.now }
    requires right { IsTaken (length signals.now) (shapes_of signals.now) b.now }
    requires width { IsWidth at.length }
    ensures left { IsContext (left_width (form_of op) at.length (length_of (shapes_of signals.now) a.now) (length_of (shapes_of signals.now) b.now)) (left_sign (form_of op) at.signed (is_signed (shapes_of signals.now) a.now) (is_signed (shapes_of signals.now) b.now)) result.left }
    ensures right { IsContext (right_width (form_of op) at.length (length_of (shapes_of signals.now) a.now) (length_of (shapes_of signals.now) b.now)) (right_sign (form_of op) at.signed (is_signed (shapes_of signals.now) a.now) (is_signed (shapes_of signals.now) b.now)) result.right }
{
    let form = operand_form(op);
    let x = own(signals, a);
    let y = own(signals, b);
    OperandContexts {
        left: left_context(form, at, x, y),
        right: right_context(form, at, x, y),
    }
}
