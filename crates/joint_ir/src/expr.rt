//! Typed expressions (C99 6.5): one node for each operator, cast, literal and path of the source, and one for each
//! conversion that C makes.

use crate::ctype::IntType;
use crate::program::PropId;
use sqlite_items::{Boxed, Items};
use src_text::Place;

/// An object: by its place in `globals`, in `locals` or among the mirror's members, or the constant `bound`.
#[derive(Clone, Copy, Debug, PartialEq, Eq)]
pub enum Slot {
    Global(u32),
    Local(u32),
    Member(u32),
    BoundValue,
}

/// `+`, `-`, `~` and `!` before an operand.
#[derive(Clone, Copy, Debug, PartialEq, Eq)]
pub enum UnaryOp {
    Plus,
    Minus,
    Flip,
    Not,
}

/// The operators of two operands that are both evaluated.
#[derive(Clone, Copy, Debug, PartialEq, Eq)]
pub enum BinaryOp {
    Add,
    Sub,
    Mul,
    Div,
    Rem,
    Shl,
    Shr,
    And,
    Or,
    Xor,
    Eq,
    Ne,
    Lt,
    Le,
    Gt,
    Ge,
}

/// `&&` and `||`, whose right operand is evaluated only where it decides.
#[derive(Clone, Copy, Debug, PartialEq, Eq)]
pub enum LogicOp {
    And,
    Or,
}

/// An expression with the type of its value and the place of its first token.
#[cycle(texpr)]
#[derive(Drop)]
pub struct TExpr {
    pub ty: IntType,
    pub place: Place,
    pub node: TNode,
}

/// What an expression is made of. A property stands at each operator that may break one.
#[cycle(texpr)]
#[derive(Drop)]
pub enum TNode {
    Const(i128),
    /// An object that is no array.
    Read(Slot),
    /// An element of an array, with the `bounds` property of its index.
    Index(Slot, Boxed<TExpr>, PropId),
    /// With the `overflow` property of a minus of signed type.
    Unary(UnaryOp, Boxed<TExpr>, Option<PropId>),
    /// With the `division` property, and with the `overflow` or the `shift` property.
    Binary(BinaryOp, Boxed<TExpr>, Boxed<TExpr>, Option<PropId>, Option<PropId>),
    Logic(LogicOp, Boxed<TExpr>, Boxed<TExpr>),
    /// `condition ? first : second`
    Choose(Boxed<TExpr>, Boxed<TExpr>, Boxed<TExpr>),
    /// A cast, or a conversion that the source doesn't show, to the type of this expression.
    Convert(Boxed<TExpr>),
}

/// Expressions, in text order.
pub type TExprList = Items<TExpr>;
