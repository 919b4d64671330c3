//! Expressions (C99 6.5).

use crate::declarations::TypeName;
use crate::names::Identifier;
use sqlite_items::{Boxed, Items};
use src_text::{Name, Place};

/// The operators that stand before an operand (C99 6.5.3.3).
#[derive(Clone, Copy, Debug, PartialEq, Eq)]
pub enum UnaryOperator {
    /// `+`
    Plus,
    /// `-`
    Minus,
    /// `!`
    Not,
    /// `~`
    Complement,
}

/// The operators between two operands (C99 6.5.5 to 6.5.14).
#[derive(Clone, Copy, Debug, PartialEq, Eq)]
pub enum BinaryOperator {
    /// `*`
    Multiply,
    /// `/`
    Divide,
    /// `%`
    Remainder,
    /// `+`
    Add,
    /// `-`
    Subtract,
    /// `<<`
    ShiftLeft,
    /// `>>`
    ShiftRight,
    /// `<`
    Less,
    /// `<=`
    LessEqual,
    /// `>`
    Greater,
    /// `>=`
    GreaterEqual,
    /// `==`
    Equal,
    /// `!=`
    NotEqual,
    /// `&`
    And,
    /// `^`
    Xor,
    /// `|`
    Or,
    /// `&&`
    LogicalAnd,
    /// `||`
    LogicalOr,
}

/// The operators of a compound assignment (C99 6.5.16.2).
#[derive(Clone, Copy, Debug, PartialEq, Eq)]
pub enum AssignmentOperator {
    /// `*=`
    Multiply,
    /// `/=`
    Divide,
    /// `%=`
    Remainder,
    /// `+=`
    Add,
    /// `-=`
    Subtract,
    /// `<<=`
    ShiftLeft,
    /// `>>=`
    ShiftRight,
    /// `&=`
    And,
    /// `^=`
    Xor,
    /// `|=`
    Or,
}

/// `++` and `--` (C99 6.5.2.4 and 6.5.3.1).
#[derive(Clone, Copy, Debug, PartialEq, Eq)]
pub enum StepOperator {
    /// `++`
    Increment,
    /// `--`
    Decrement,
}

/// A unary operator where it stands.
#[derive(Clone, Copy, Debug, PartialEq, Eq)]
pub struct UnaryMark {
    pub place: Place,
    pub operator: UnaryOperator,
}

/// A binary operator where it stands.
#[derive(Clone, Copy, Debug, PartialEq, Eq)]
pub struct BinaryMark {
    pub place: Place,
    pub operator: BinaryOperator,
}

/// The operator of a compound assignment where it stands.
#[derive(Clone, Copy, Debug, PartialEq, Eq)]
pub struct AssignmentMark {
    pub place: Place,
    pub operator: AssignmentOperator,
}

/// `++` or `--` where it stands.
#[derive(Clone, Copy, Debug, PartialEq, Eq)]
pub struct StepMark {
    pub place: Place,
    pub operator: StepOperator,
}

/// `ID { "." ID }`: a variable, or a member of the mirror.
#[derive(Drop)]
pub struct Object {
    pub name: Identifier,
    /// The names behind the dots.
    pub members: Items<Identifier>,
}

/// `Object [ "[" Expression "]" ]`: an object, or an element of an array.
#[cycle(expression)]
#[derive(Drop)]
pub enum Path {
    Object(Object),
    /// With the place of the `[`.
    Element(Object, Place, Boxed<Expression>),
}

/// An expression. Each place is that of a token of its own: its first one, or the operator's.
#[cycle(expression)]
#[derive(Drop)]
pub enum Expression {
    /// An integer constant (C99 6.4.4.1) as it is spelled, with its prefix and its suffix.
    Integer(Place, Name),
    /// A character constant (C99 6.4.4.4) by its value.
    Character(Place, u8),
    True(Place),
    False(Place),
    /// The value of an object or of an element.
    Read(Path),
    /// `"(" Expression ")"`
    Parentheses(Place, Boxed<Expression>),
    Unary(UnaryMark, Boxed<Expression>),
    /// `"(" TypeName ")" Expression`
    Cast(Place, TypeName, Boxed<Expression>),
    Binary(Boxed<Expression>, BinaryMark, Boxed<Expression>),
    /// `Expression "?" Expression ":" Expression`, with the place of the `?`.
    Conditional(Boxed<Expression>, Place, Boxed<Expression>, Boxed<Expression>),
}

/// `ID "(" [ Expression { "," Expression } ] ")"`, which stands only as a statement or as a whole right side.
#[derive(Drop)]
pub struct Call {
    pub name: Identifier,
    pub arguments: Items<Expression>,
}
