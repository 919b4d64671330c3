//! Statements (C99 6.8).

use crate::declarations::{Initializer, Local};
use crate::expressions::{AssignmentMark, Call, Expression, Path, StepMark};
use sqlite_items::{Boxed, Items};
use src_text::Place;

/// An assignment or a call: what stands alone as a statement, or in the head of a `for`.
#[derive(Drop)]
pub enum Simple {
    /// `Path "=" Initializer`
    Assign(Path, Initializer),
    /// `Path "+=" Expression` and the like
    Update(Path, AssignmentMark, Expression),
    /// `Path "++"` or `Path "--"`
    StepAfter(Path, StepMark),
    /// `"++" Path` or `"--" Path`
    StepBefore(StepMark, Path),
    Called(Call),
}

/// A label of a `switch`, with the place of its word.
#[derive(Drop)]
pub enum Label {
    /// `"case" Expression ":"`
    Case(Place, Expression),
    /// `"default" ":"`
    Default(Place),
}

/// The first part of the head of a `for`.
#[derive(Drop)]
pub enum ForFirst {
    Nothing,
    Local(Local),
    Simple(Simple),
}

/// Labels that follow each other, and the statements up to the next label.
#[cycle(statement)]
#[derive(Drop)]
pub struct Group {
    /// The place of the first label.
    pub place: Place,
    pub labels: Items<Label>,
    pub body: Items<Statement>,
}

/// A part of a block.
#[cycle(statement)]
#[derive(Drop)]
pub enum BlockItem {
    Local(Local),
    Statement(Statement),
}

/// A statement. Each place is that of its first token.
#[cycle(statement)]
#[derive(Drop)]
pub enum Statement {
    /// A block.
    Compound(Place, Items<BlockItem>),
    /// `";"`
    Empty(Place),
    /// `Simple ";"`
    Simple(Simple),
    /// `"if" "(" Expression ")" Statement`
    If(Place, Expression, Boxed<Statement>),
    /// `"if" "(" Expression ")" Statement "else" Statement`
    IfElse(Place, Expression, Boxed<Statement>, Boxed<Statement>),
    /// `"while" "(" Expression ")" Statement`
    While(Place, Expression, Boxed<Statement>),
    /// `"do" Statement "while" "(" Expression ")" ";"`
    Do(Place, Boxed<Statement>, Expression),
    /// `"for" "(" ForFirst [Expression] ";" [Simple] ")" Statement`
    For(Place, ForFirst, Option<Expression>, Option<Simple>, Boxed<Statement>),
    /// `"switch" "(" Expression ")" "{" { Group } "}"`
    Switch(Place, Expression, Items<Group>),
    /// `"break" ";"`
    Break(Place),
    /// `"continue" ";"`
    Continue(Place),
    /// `"return" [Initializer] ";"`
    Return(Place, Option<Initializer>),
    /// `"assert" "(" Expression ")" ";"`
    Assert(Place, Expression),
    /// `"__CPROVER_assert" "(" Expression "," STRING ")" ";"`
    CproverAssert(Place, Expression),
    /// `"__CPROVER_assume" "(" Expression ")" ";"`
    CproverAssume(Place, Expression),
}

/// `"{" { BlockItem } "}"` (C99 6.8.2), as the body of a function.
#[derive(Drop)]
pub struct Block {
    pub place: Place,
    pub items: Items<BlockItem>,
}
