//! The bits that a target assigns.

ghost use Rattle.std.specs.Prelude.{All, length, OnOk};
ghost use Rattle.bit_sets.specs.Sets.{IsWithin};
ghost use Rattle.flat_values.specs.Fits.{shapes_of};
ghost use Rattle.flat_writes.specs.Writes.{FitsTarget, AddsTarget, AddsParts};

use crate::masks::{Extent, part_mask};
use bit_sets::Bits;
use flat_tree::{FlatSignal, FlatTarget};
use std::alloc::{AllocError, Global};
use v_views::Target;

/// Adds the bits that a target assigns to a set; of a concatenation, those of all its parts.
#[cycle(parts)]
pub fn add_bits(
    signals: &[FlatSignal],
    target: &FlatTarget,
    extent: Extent,
    set: &mut Vec<Bits>,
) -> Result<(), AllocError>
    requires fits { FitsTarget signals.now target.now }
    requires within { IsWithin (length signals.now) set.old.items }
    ensures within { OnOk result (IsWithin (length signals.now) set.new.items) }
    ensures adds { OnOk result (AddsTarget (shapes_of signals.now) extent target.now set.old.items set.new.items) }
{
    match target {
        Target::Signal(_, g, selection) => {
            let mask = part_mask(&signals[*g as usize], selection, extent);
            set.push(Bits { signal: *g, mask })?;
        }
        Target::Concatenation(_, parts) => add_parts(signals, parts.as_slice(), extent, set)?,
    }
    Ok(())
}

#[cycle(parts)]
fn add_parts(
    signals: &[FlatSignal],
    parts: &[FlatTarget],
    extent: Extent,
    set: &mut Vec<Bits>,
) -> Result<(), AllocError>
    requires fits { All (FitsTarget signals.now) parts.now }
    requires within { IsWithin (length signals.now) set.old.items }
    ensures within { OnOk result (IsWithin (length signals.now) set.new.items) }
    ensures adds { OnOk result (AddsParts (shapes_of signals.now) extent parts.now set.old.items set.new.items) }
{
    for part in parts {
        add_bits(signals, part, extent, set)?;
    }
    Ok(())
}
