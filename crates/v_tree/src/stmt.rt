//! Statements (IEEE 1364-2005, clause 9 and Annex A.6).

use crate::expr::{Expr, Selection};
use crate::name::Identifier;
use sqlite_items::{Boxed, Items};
use src_text::Place;

/// What an assignment writes: a net or a variable lvalue (Annex A.8.5).
#[derive(Drop)]
pub enum Target {
    Name(Identifier),
    /// `name [ .. ]`
    Select(Identifier, Selection),
    /// `{ a, b }`, with the place of `{`.
    Concatenation(Place, Items<Target>),
}

/// When a procedural assignment takes effect (9.2).
#[derive(Clone, Copy, Debug, PartialEq, Eq)]
pub enum AssignmentKind {
    /// `=`
    Blocking,
    /// `<=`
    Nonblocking,
}

/// A procedural assignment (9.2).
#[derive(Drop)]
pub struct Assignment {
    pub target: Target,
    pub kind: AssignmentKind,
    pub value: Expr,
}

/// One of the two assignments in the head of a loop.
#[derive(Drop)]
pub struct LoopAssignment {
    pub name: Identifier,
    pub value: Expr,
}

/// `start ; condition ; step` of a loop (9.6).
#[derive(Drop)]
pub struct ForHead {
    pub start: LoopAssignment,
    pub condition: Expr,
    pub step: LoopAssignment,
}

/// Which case statement (9.5).
#[derive(Clone, Copy, Debug, PartialEq, Eq)]
pub enum CaseKind {
    /// `case`
    Case,
    /// `casez`
    Casez,
}

/// A statement. Each but an assignment holds the place of its first token.
#[cycle(stmt)]
#[derive(Drop)]
pub enum Stmt {
    /// `;`
    Empty(Place),
    /// `begin : label .. end`
    Block(Place, Option<Identifier>, Items<Stmt>),
    /// An `if` without `else`.
    If(Place, Expr, Boxed<Stmt>),
    IfElse(Place, Expr, Boxed<Stmt>, Boxed<Stmt>),
    Case(Place, CaseKind, Expr, Items<CaseItem>),
    For(Place, ForHead, Boxed<Stmt>),
    Assignment(Assignment),
}

/// An item of a case statement (9.5).
#[cycle(stmt)]
#[derive(Drop)]
pub enum CaseItem {
    /// `a, b : ..`
    Values(Items<Expr>, Boxed<Stmt>),
    /// `default : ..`, with the place of `default`.
    Default(Place, Boxed<Stmt>),
}
