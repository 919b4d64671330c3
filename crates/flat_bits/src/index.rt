//! Indexes that are constant.

ghost use Rattle.std.specs.Prelude.{◌≡◌, ℕ, ℤ};
ghost use Rattle.bits_core.specs.Word.{IsWord};
ghost use Rattle.flat_tree.specs.Values.{Shape};
ghost use Rattle.flat_bits.specs.Index.{IsNear, IsNumberIndex, IsIndexOf};

use flat_tree::{FlatExpr, Number};

/// No signal has a bit so far from 0.
const FAR: i64 = 4_611_686_018_427_387_904;

/// Where an index leads.
#[derive(Clone, Copy, Debug, PartialEq, Eq)]
pub enum Index {
    /// It isn't constant.
    Varying,
    /// It is constant.
    At(i64),
    /// It is constant, and 2^62 or more, or less than -2^62: there is no bit near it.
    Away,
}

fn near(z: i128) -> Index
    ensures { IsNear z result }
{
    if z < -(FAR as i128) {
        return Index::Away;
    }
    if z >= FAR as i128 {
        return Index::Away;
    }
    Index::At(z as i64)
}

/// A number by its own sign.
fn number_index(n: Number) -> Index
    ensures word { IsWord n.word }
    ensures index { IsNumberIndex n result }
{
    let value = n.word.value();
    if n.signed {
        return near(n.word.to_signed());
    }
    if value < FAR as u128 {
        Index::At(value as i64)
    } else {
        Index::Away
    }
}

/// The value of an index that is a number (IEEE 1364-2005, 5.2.1); any other counts as varying.
pub fn constant_index(e: &FlatExpr) -> Index
    ensures { (shapes : ℕ → Shape) → IsIndexOf shapes e.now result }
{
    match e {
        FlatExpr::Literal(n) => number_index(*n),
        FlatExpr::Parentheses(_, e) => constant_index(e.get()),
        FlatExpr::Signal(..)
        | FlatExpr::Select(..)
        | FlatExpr::SelectNumber(..)
        | FlatExpr::Unary(..)
        | FlatExpr::Binary(..)
        | FlatExpr::Conditional(..)
        | FlatExpr::Concatenation(..)
        | FlatExpr::Replication(..)
        | FlatExpr::Signed(..)
        | FlatExpr::Unsigned(..) => Index::Varying,
    }
}
