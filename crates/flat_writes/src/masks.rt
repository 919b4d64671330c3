//! Which bits of its signal a part of a target assigns.

ghost use Rattle.std.specs.Prelude.{◌≡◌, ◌≤◌, ℕ, nat_lt};
ghost use Rattle.bit_sets.specs.Sets.{is_set};
ghost use Rattle.v_views.specs.Spots.{spot};
ghost use Rattle.flat_tree.specs.Values.{Shape};
ghost use Rattle.flat_language.proofs.Local.{flat_language};
ghost use Rattle.flat_values.specs.Fits.{shape_of};
ghost use Rattle.flat_bits.specs.Selections.{FitsSelection, HasIndexes};
ghost use Rattle.flat_writes.specs.Writes.{part_bits};

use flat_bits::{Named, named_bits};
use flat_tree::{FlatExpr, FlatSignal};
use v_views::Selection;

/// Which bits are meant: those that a target assigns whatever the view, or all that it may assign. With an index that
/// isn't constant it assigns none for certain, and may assign each bit of the name.
#[derive(Clone, Copy, Debug, PartialEq, Eq)]
pub enum Extent {
    Certain,
    Any,
}

fn full(bits: u8) -> u64
    requires { bits ≤ 64 }
    ensures { (k : ℕ) → is_set result k ≡ nat_lt k bits }
{
    if bits == 64 {
        return u64::MAX;
    }
    (1u64 << bits) - 1
}

/// The bits of a signal that a part of a target assigns.
pub fn part_mask(signal: &FlatSignal, selection: &Selection<FlatExpr>, extent: Extent) -> u64
    requires vector { signal.now.words ≡ 0 }
    requires bits { signal.now.bits ≤ 64 }
    requires fits { FitsSelection signal.now selection.now }
    ensures { (shapes : ℕ → Shape) (g k : ℕ) → shapes g ≡ shape_of signal.now → HasIndexes shapes selection.now → is_set result k ≡ part_bits (flat_language shapes) extent g selection.now (spot g 0 k) }
{
    match named_bits(signal, selection) {
        Named::Mask(mask) => mask,
        Named::Varying => match extent {
            Extent::Certain => 0,
            Extent::Any => full(signal.bits),
        },
    }
}
