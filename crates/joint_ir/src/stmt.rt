//! Typed statements (C99 6.8).

use crate::ctype::IntType;
use crate::expr::{BinaryOp, Slot, TExpr, TExprList};
use crate::program::PropId;
use sqlite_items::{Boxed, Items};
use src_text::Place;

/// What an object is set to, or what a `return` gives.
#[derive(Drop)]
pub enum TInit {
    /// Nothing is written: the object takes any value. Only in a declaration.
    Free,
    /// One expression, or those of an array's first elements.
    Values(TExprList),
    /// The result of a call, converted to the type of what it goes to.
    Called(TCall),
}

/// A call of a function, by its place in `functions`.
#[derive(Drop)]
pub struct TCall {
    pub place: Place,
    pub function: u32,
    pub args: TExprList,
}

/// What is assigned: an object, or an element of an array with the `bounds` property of its index.
#[derive(Drop)]
pub struct TTarget {
    pub place: Place,
    pub slot: Slot,
    pub index: Option<Boxed<TExpr>>,
    pub bounds: Option<PropId>,
}

/// `op=`, `++` or `--`: the operator, and the type in which it works.
#[derive(Drop)]
pub struct TUpdate {
    pub op: BinaryOp,
    pub ty: IntType,
    /// None at `++` and `--`, whose right operand is 1.
    pub right: Option<Boxed<TExpr>>,
    pub division: Option<PropId>,
    /// The `overflow` or the `shift` property.
    pub other: Option<PropId>,
}

/// A statement. Its place is that of its first token, and at a declaration that of the declared name.
#[cycle(tstmt)]
#[derive(Drop)]
pub struct TStmt {
    pub place: Place,
    pub node: SNode,
}

/// What a statement does.
#[cycle(tstmt)]
#[derive(Drop)]
pub enum SNode {
    /// Also `;` alone, with no statement in it.
    Block(TStmtList),
    /// An automatic variable, by its place in `locals`.
    Declare(u32, TInit),
    Store(TTarget, TInit),
    Update(TTarget, TUpdate),
    Call(TCall),
    If(Boxed<TExpr>, Boxed<TStmt>, Option<Boxed<TStmt>>),
    Loop(TLoop),
    Switch(Boxed<TExpr>, GroupList),
    Break,
    Continue,
    Return(Option<TInit>),
    Assert(Boxed<TExpr>, PropId),
    Assume(Boxed<TExpr>),
    /// `set_inputs()`
    SetInputs,
    /// `next_timeframe()`, with its `frame` property.
    NextFrame(PropId),
}

/// A loop, with its `unwind` property.
#[cycle(tstmt)]
#[derive(Drop)]
pub struct TLoop {
    /// False for `do` alone.
    pub tests_first: bool,
    /// The first part of a `for`.
    pub heads: TStmtList,
    /// None where a `for` has no condition.
    pub cond: Option<Boxed<TExpr>>,
    /// The last part of a `for`, which runs after each turn.
    pub step: Option<Boxed<TStmt>>,
    pub body: Boxed<TStmt>,
    pub unwind: PropId,
}

/// `case VALUE:`, the value being converted to the type of the switch, or `default:`.
#[derive(Clone, Copy, Debug, PartialEq, Eq)]
pub enum Label {
    Case(i128),
    Default,
}

/// Statements behind one or more labels of a `switch`. Control falls through to the next group.
#[cycle(tstmt)]
#[derive(Drop)]
pub struct Group {
    pub labels: LabelList,
    pub body: TStmtList,
}

/// Statements, in text order.
pub type TStmtList = Items<TStmt>;

/// The labels of a group of a `switch`.
pub type LabelList = Items<Label>;

/// The groups of a `switch`, in text order.
pub type GroupList = Items<Group>;
