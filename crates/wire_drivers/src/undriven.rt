//! Wires with a bit that no driver writes.

ghost use Rattle.std.specs.Prelude.{◌≡◌, ◌≤◌, ◌^◌, ℕ, All, length, IfOk};
ghost use Rattle.bit_sets.specs.Sets.{is_set, IsWithin};
ghost use Rattle.flat_values.specs.Fits.{shapes_of};
ghost use Rattle.wire_drivers.specs.Wires.{FitsDriver};
ghost use Rattle.wire_drivers.specs.Undriven.{wire_bit, IsNarrow, AreMasks, IsFirstUndriven};

use crate::sets::driver_sets;
use bit_sets::Bits;
use flat_bits::span;
use flat_tree::{FlatDriver, FlatSignal};
use flat_writes::Extent;
use frame_offences::first_missing;
use std::alloc::{AllocError, Global};
use v_views::Sort;

/// All bits of a wire, and of any other signal none.
fn wire_mask(signal: &FlatSignal) -> u64
    requires { signal.now.bits ≤ 64 }
    ensures { (k : ℕ) → is_set result k ≡ wire_bit signal.now k }
{
    match signal.sort {
        Sort::Net => span(signal.bits, 0, signal.bits),
        Sort::Input => 0,
        Sort::Reg => 0,
    }
}

fn wire_masks(alloc: Global, signals: &[FlatSignal]) -> Result<Vec<Bits>, AllocError>
    requires bits { All IsNarrow signals.now }
    requires count { length signals.now ≤ 2 ^ 32 }
    ensures within { IfOk result (λ w. IsWithin (length signals.now) w.items) }
    ensures len { IfOk result (λ w. length w.items ≡ length signals.now) }
    ensures masks { IfOk result (λ w. AreMasks signals.now w.items) }
{
    let mut masks = Vec::new(alloc);
    for g in 0..signals.len() {
        let mask = wire_mask(&signals[g]);
        masks.push(Bits {
            signal: g as u32,
            mask,
        })?;
    }
    Ok(masks)
}

/// The number of the first signal that is a wire with a bit which no driver writes whatever the view: such a bit would be z
/// (IEEE 1364-2005, 4.2.1), and this profile has two values. A write by an index that isn't constant writes no bit for
/// certain. The time is that of going once over all targets and signals.
pub fn undriven_wire(
    alloc: Global,
    signals: &[FlatSignal],
    drivers: &[FlatDriver],
) -> Result<Option<usize>, AllocError>
    requires bits { All IsNarrow signals.now }
    requires count { length signals.now ≤ 2 ^ 32 }
    requires fits { All (FitsDriver signals.now) drivers.now }
    ensures { IfOk result (IsFirstUndriven signals.now drivers.now) }
{
    let wires = wire_masks(alloc, signals)?;
    let sets = driver_sets(alloc, signals, drivers, Extent::Certain)?;
    first_missing(alloc, signals.len(), wires.as_slice(), sets.as_slice())
}
