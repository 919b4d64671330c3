//! Expressions (IEEE 1364-2005, clause 5 and Annex A.8).

use crate::name::Identifier;
use sqlite_items::{Boxed, Items};
use src_text::{Name, Place};

/// The base of a number (3.5.1).
#[derive(Clone, Copy, Debug, PartialEq, Eq)]
pub enum Base {
    /// `b`
    Binary,
    /// `o`
    Octal,
    /// `d`
    Decimal,
    /// `h`
    Hexadecimal,
}

/// Decimal digits, perhaps with `_`: a number, or the size of a based one.
#[derive(Drop)]
pub struct DecimalNumber {
    pub place: Place,
    pub digits: Name,
}

/// A base and digits, which may be `x`, `z` or `?`, perhaps with `_`.
#[derive(Drop)]
pub struct BasedNumber {
    pub place: Place,
    /// Whether `s` stands before the base.
    pub signed: bool,
    pub base: Base,
    pub digits: Name,
}

/// A number (3.5.1).
#[derive(Drop)]
pub enum Literal {
    /// `12`
    Decimal(DecimalNumber),
    /// `'hf`
    Based(BasedNumber),
    /// `4'hf`
    Sized(DecimalNumber, BasedNumber),
}

/// A unary operator or a reduction (5.1.5 to 5.1.11).
#[derive(Clone, Copy, Debug, PartialEq, Eq)]
pub enum UnaryOp {
    /// `+`
    Plus,
    /// `-`
    Minus,
    /// `!`
    LogicalNot,
    /// `~`
    BitNot,
    /// `&`
    ReduceAnd,
    /// `~&`
    ReduceNand,
    /// `|`
    ReduceOr,
    /// `~|`
    ReduceNor,
    /// `^`
    ReduceXor,
    /// `~^` or `^~`
    ReduceXnor,
}

/// A binary operator (5.1.5 to 5.1.12).
#[derive(Clone, Copy, Debug, PartialEq, Eq)]
pub enum BinaryOp {
    /// `||`
    LogicalOr,
    /// `&&`
    LogicalAnd,
    /// `|`
    BitOr,
    /// `^`
    BitXor,
    /// `~^` or `^~`
    BitXnor,
    /// `&`
    BitAnd,
    /// `==`
    Equal,
    /// `!=`
    NotEqual,
    /// `<`
    Less,
    /// `<=`
    LessEqual,
    /// `>`
    Greater,
    /// `>=`
    GreaterEqual,
    /// `<<`
    ShiftLeft,
    /// `>>`
    ShiftRight,
    /// `<<<`
    ArithmeticShiftLeft,
    /// `>>>`
    ArithmeticShiftRight,
    /// `+`
    Add,
    /// `-`
    Subtract,
    /// `*`
    Multiply,
    /// `/`
    Divide,
    /// `%`
    Remainder,
}

/// A unary operator where it stands.
#[derive(Clone, Copy, Debug, PartialEq, Eq)]
pub struct UnaryOperator {
    pub place: Place,
    pub op: UnaryOp,
}

/// A binary operator where it stands.
#[derive(Clone, Copy, Debug, PartialEq, Eq)]
pub struct BinaryOperator {
    pub place: Place,
    pub op: BinaryOp,
}

/// An expression.
#[cycle(expr)]
#[derive(Drop)]
pub enum Expr {
    Literal(Literal),
    Name(Identifier),
    /// `name [ .. ]`
    Select(Identifier, Boxed<Selection>),
    Unary(UnaryOperator, Boxed<Expr>),
    Binary(Boxed<Expr>, BinaryOperator, Boxed<Expr>),
    /// `condition ? one : other`
    Conditional(Boxed<Expr>, Boxed<Expr>, Boxed<Expr>),
    /// `( .. )`, with the place of `(`.
    Parentheses(Place, Boxed<Expr>),
    /// `{ a, b }`, with the place of `{`.
    Concatenation(Place, Items<Expr>),
    /// `{ count { a, b } }`, with the place of the first `{`.
    Replication(Place, Boxed<Expr>, Items<Expr>),
    /// `$signed ( .. )`, with the place of `$signed`.
    Signed(Place, Boxed<Expr>),
    /// `$unsigned ( .. )`, with the place of `$unsigned`.
    Unsigned(Place, Boxed<Expr>),
}

/// What stands between the brackets of a select (5.2.1 and 5.2.2).
#[cycle(expr)]
#[derive(Drop)]
pub enum Selection {
    /// A bit, or a word of a memory.
    Index(Boxed<Expr>),
    /// `high : low`
    Range(Boxed<Expr>, Boxed<Expr>),
    /// `base +: width`
    Up(Boxed<Expr>, Boxed<Expr>),
    /// `base -: width`
    Down(Boxed<Expr>, Boxed<Expr>),
}
