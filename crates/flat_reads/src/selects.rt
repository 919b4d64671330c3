//! Which bits of its signal a select reads.

ghost use Rattle.std.specs.Prelude.{◌≡◌, ◌≤◌, ℕ};
ghost use Rattle.flat_tree.specs.Values.{Shape};
ghost use Rattle.flat_values.specs.Fits.{shape_of};
ghost use Rattle.flat_reads.specs.Sets.{FitsRead, HasIndex, IsReadBy};

use flat_bits::{Named, constant_index, indexed, part};
use flat_tree::{FlatSelection, FlatSignal};

/// The bits of a vector that a select reads, whose places are counted from the vector's low end; an index that isn't
/// constant is `Varying` (IEEE 1364-2005, 5.2.1).
pub fn select_bits(signal: &FlatSignal, selection: &FlatSelection) -> Named
    requires bits { signal.now.bits ≤ 64 }
    requires vector { signal.now.words ≡ 0 }
    requires fits { FitsRead (shape_of signal.now) selection.now }
    ensures { (shapes : ℕ → Shape) (g : ℕ) → shapes g ≡ shape_of signal.now → HasIndex shapes selection.now → IsReadBy shapes g selection.now result }
{
    let bits = signal.bits;
    let low = signal.low;
    match selection {
        FlatSelection::Bit(i) => indexed(bits, low, constant_index(i.get()), 0, 1),
        FlatSelection::Part(high, end) => Named::Mask(part(bits, low, *high, *end)),
        FlatSelection::Up(i, n) => indexed(bits, low, constant_index(i.get()), 0, *n),
        FlatSelection::Down(i, n) => indexed(bits, low, constant_index(i.get()), *n - 1, *n),
    }
}
