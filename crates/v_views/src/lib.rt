//! What statements do to the bits of a view (IEEE 1364-2005, clauses 6 and 9).
//!
//! The statements are generic in their expressions: `specs/` says what they do for any record of what expressions mean
//! (`Language`), bit by bit, and `proofs/` that a design of this profile has one settled view and one outcome of an
//! edge. It has types alone, and knows nothing of how an expression is evaluated.
#![tactic(auto)]

use bits_core::Word;
use sqlite_items::{Boxed, Items};
use src_text::Place;
use v_tree::AssignmentKind;

/// Which bits of a signal are written (5.2.1 and 5.2.2).
#[derive(Drop)]
pub enum Selection<E> {
    Whole,
    /// `[index]`: a bit, or a word of a memory.
    Bit(E),
    /// `[high : low]`, both known.
    Part(u32, u32),
    /// `[base +: width]`
    Up(E, u8),
    /// `[base -: width]`
    Down(E, u8),
}

/// What an assignment writes (A.8.5).
#[derive(Drop)]
pub enum Target<E> {
    /// The place of its name, the number of the signal, and which bits.
    Signal(Place, u32, Selection<E>),
    /// `{ a, b }`, with the place of `{`. The leftmost part takes the highest bits.
    Concatenation(Place, Items<Target<E>>),
}

/// A value of a case item. A bit that is 1 in `loose` doesn't count: a `z` or `?` of a `casez` (9.5.1).
#[derive(Drop)]
pub struct Pattern<E> {
    pub value: E,
    pub loose: Word,
}

/// A statement, its loops unrolled (clause 9). It begins at its place.
#[cycle(stmt)]
#[derive(Drop)]
pub enum Stmt<E> {
    Block(Place, Items<Stmt<E>>),
    If(Place, E, Boxed<Stmt<E>>),
    IfElse(Place, E, Boxed<Stmt<E>>, Boxed<Stmt<E>>),
    Case(Place, E, Items<CaseItem<E>>),
    Assignment(Place, AssignmentKind, Target<E>, E),
}

/// A branch of a `case` (9.5).
#[cycle(stmt)]
#[derive(Drop)]
pub enum CaseItem<E> {
    Values(Items<Pattern<E>>, Boxed<Stmt<E>>),
    Default(Place, Boxed<Stmt<E>>),
}

/// What a signal is: a top input, what is driven from outside processes, or what processes assign (4.2).
#[derive(Clone, Copy)]
pub enum Sort {
    Input,
    Net,
    Reg,
}
