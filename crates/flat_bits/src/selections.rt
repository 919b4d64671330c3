//! The bits that a selection names.

ghost use Rattle.std.specs.Prelude.{◌≡◌, ◌<◌, ◌≤◌, ◌+◌, ◌-◌, ◌^◌, ◌≤ℤ◌, ◌-ℤ◌, ℕ, ℤ, pos, negsuc};
ghost use Rattle.bit_sets.specs.Sets.{is_set};
ghost use Rattle.flat_tree.specs.Values.{Shape};
ghost use Rattle.flat_values.specs.Fits.{shape_of};
ghost use Rattle.flat_bits.specs.Selections.{in_span, IsCloseIndex, FitsSelection, HasIndexes, IsIndexed, IsNamed};

use crate::index::{Index, constant_index};
use flat_tree::{FlatExpr, FlatSignal};
use v_views::Selection;

/// The bits that a selection names.
#[derive(Clone, Copy, Debug, PartialEq, Eq)]
pub enum Named {
    /// Its index isn't constant.
    Varying,
    /// These, in every view.
    Mask(u64),
}

/// Which bits of a vector n bits from a place on are.
pub fn span(bits: u8, from: i64, n: u8) -> u64
    requires bits { bits ≤ 64 }
    requires low { negsuc (2 ^ 62 + 2 ^ 40) ≤ℤ from }
    requires high { from ≤ℤ pos (2 ^ 62) }
    ensures { (k : ℕ) → is_set result k ≡ in_span bits from n k }
{
    let mut mask = 0u64;
    for j in 0..n {
        let place = from + j as i64;
        if place >= 0 {
            if place < bits as i64 {
                mask |= 1u64 << place as u32;
            }
        }
    }
    mask
}

/// n bits from an index on, or from some places below it on (5.2.1).
pub fn indexed(bits: u8, low: u32, index: Index, below: u8, n: u8) -> Named
    requires bits { bits ≤ 64 }
    requires close { IsCloseIndex index }
    requires below { below ≤ 64 }
    requires n { n ≤ 64 }
    ensures { IsIndexed bits low below n index result }
{
    match index {
        Index::Varying => Named::Varying,
        Index::Away => Named::Mask(0),
        Index::At(at) => {
            let from = at - below as i64 - low as i64;
            Named::Mask(span(bits, from, n))
        }
    }
}

/// The bits of a part of a vector, from its high end down to its low end; `low` is the low end of the vector.
pub fn part(bits: u8, low: u32, high: u32, end: u32) -> u64
    requires bits { bits ≤ 64 }
    requires end { low ≤ end }
    requires order { end ≤ high }
    requires within { high < low + bits }
    ensures { (k : ℕ) → is_set result k ≡ in_span bits (pos end -ℤ pos low) (high - end + 1) k }
{
    let from = end as i64 - low as i64;
    span(bits, from, (high - end + 1) as u8)
}

/// The bits of a signal that a selection names, whose places are counted from the signal's low end.
pub fn named_bits(signal: &FlatSignal, selection: &Selection<FlatExpr>) -> Named
    requires vector { signal.now.words ≡ 0 }
    requires bits { signal.now.bits ≤ 64 }
    requires fits { FitsSelection signal.now selection.now }
    ensures { (shapes : ℕ → Shape) (g : ℕ) → shapes g ≡ shape_of signal.now → HasIndexes shapes selection.now → IsNamed shapes g selection.now result }
{
    let bits = signal.bits;
    let low = signal.low;
    match selection {
        Selection::Whole => Named::Mask(span(bits, 0, bits)),
        Selection::Bit(i) => indexed(bits, low, constant_index(i), 0, 1),
        Selection::Part(high, end) => Named::Mask(part(bits, low, *high, *end)),
        Selection::Up(i, n) => indexed(bits, low, constant_index(i), 0, *n),
        Selection::Down(i, n) => indexed(bits, low, constant_index(i), *n - 1, *n),
    }
}
