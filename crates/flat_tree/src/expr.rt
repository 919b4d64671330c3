//! Flat expressions (IEEE 1364-2005, clause 5).

use bits_core::Word;
use sqlite_items::{Boxed, Items};
use src_text::Place;
use v_tree::{BinaryOperator, UnaryOperator};

/// A number that is known: a literal (3.5.1), or a parameter or a loop variable that is read.
#[derive(Clone, Copy)]
pub struct Number {
    pub place: Place,
    pub word: Word,
    pub signed: bool,
    /// Whether it is a literal of the text that has no size.
    pub is_unsized: bool,
}

/// Which bits are read of a signal or of a known number (5.2.1 and 5.2.2).
#[cycle(expr)]
#[derive(Drop)]
pub enum FlatSelection {
    /// `[index]`: a bit, or a word of a memory.
    Bit(Boxed<FlatExpr>),
    /// `[high : low]`, both known and in range.
    Part(u32, u32),
    /// `[base +: width]`
    Up(Boxed<FlatExpr>, u8),
    /// `[base -: width]`
    Down(Boxed<FlatExpr>, u8),
}

/// An expression of the flat module. A signal is named by its number.
#[cycle(expr)]
#[derive(Drop)]
pub enum FlatExpr {
    Literal(Number),
    /// A whole vector, with the place of its name.
    Signal(Place, u32),
    /// `name [ .. ]` of a signal.
    Select(Place, u32, FlatSelection),
    /// `name [ .. ]` of a known number, whose range begins at the low end that is kept.
    SelectNumber(Place, Word, u32, FlatSelection),
    Unary(UnaryOperator, Boxed<FlatExpr>),
    Binary(Boxed<FlatExpr>, BinaryOperator, Boxed<FlatExpr>),
    /// `condition ? one : other`
    Conditional(Boxed<FlatExpr>, Boxed<FlatExpr>, Boxed<FlatExpr>),
    /// `( .. )`, with the place of `(`.
    Parentheses(Place, Boxed<FlatExpr>),
    /// `{ a, b }`, with the place of `{`.
    Concatenation(Place, Items<FlatExpr>),
    /// `{ count { a, b } }`, with the place of the first `{`.
    Replication(Place, u8, Items<FlatExpr>),
    /// `$signed ( .. )`, with the place of `$signed`.
    Signed(Place, Boxed<FlatExpr>),
    /// `$unsigned ( .. )`, with the place of `$unsigned`.
    Unsigned(Place, Boxed<FlatExpr>),
}

/// A word of a signal that an expression reads; word 0 of what is no memory.
#[derive(Clone, Copy)]
pub struct Read {
    pub signal: u32,
    pub word: u32,
}

/// The bits that a read of a name counts, counted from 0: from `high` down to `low` of one word, or of all words of a
/// memory. A read that counts no bit has `high` 0 and `low` 1.
#[derive(Clone, Copy)]
pub struct Seen {
    pub place: Place,
    pub signal: u32,
    pub word: Option<u32>,
    pub high: u32,
    pub low: u32,
}

/// A number of 1 to 64 bits that stands for what the standard calls unknown, with the place of its operator or name.
#[derive(Clone, Copy)]
pub struct PlacedSite {
    pub place: Place,
    pub bits: u8,
}
