// What a term is.

use bits_core::{Op1, Op2, Word};

/// So many terms, variables and steps there are at most; an id of 32 bits names each of them.
pub const MOST_TERMS: u32 = 2147483648;

/// The place of a term, from 0.
#[derive(Clone, Copy, Debug, PartialEq, Eq)]
pub struct TermId(pub u32);

/// The number of a variable, from 0.
#[derive(Clone, Copy, Debug, PartialEq, Eq)]
pub struct VarId(pub u32);

/// A term, whose parts are named by their places.
#[derive(Clone, Copy, Debug, PartialEq, Eq)]
pub enum TermNode {
    Const(Word),
    Var(VarId),
    One(Op1, TermId),
    /// Both parts have one width.
    Two(Op2, TermId, TermId),
    /// The second where the first, of one bit, is 1, and else the third.
    Choose(TermId, TermId, TermId),
    /// A term at another width, extended by its sign or by zeros, or cut.
    Resize(TermId, u8, bool),
    /// The bits of a term from the high to the low, both counted from 0.
    Slice(TermId, u8, u8),
    /// The first on the left of the second.
    Join(TermId, TermId),
}

/// A term and its width in bits.
#[derive(Clone, Copy, Debug, PartialEq, Eq)]
pub struct Term {
    pub node: TermNode,
    pub width: u8,
}
