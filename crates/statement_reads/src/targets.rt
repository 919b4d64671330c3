//! The bits that the indexes in a target read.

ghost use Rattle.std.specs.Prelude.{All, length, OnOk};
ghost use Rattle.bit_sets.specs.Sets.{IsWithin};
ghost use Rattle.flat_values.specs.Fits.{shapes_of};
ghost use Rattle.statement_reads.specs.Reads.{HasReadable, ReadableTarget, AddsSelection, AddsTarget, AddsParts};

use bit_sets::Bits;
use flat_reads::add_reads;
use flat_tree::{FlatExpr, FlatSignal, FlatTarget};
use std::alloc::{AllocError, Global};
use v_views::{Selection, Target};

/// Adds the bits that the index of a selection reads; numbers read none.
fn add_selection(
    signals: &[FlatSignal],
    selection: &Selection<FlatExpr>,
    set: &mut Vec<Bits>,
) -> Result<(), AllocError>
    requires fits { HasReadable signals.now selection.now }
    requires within { IsWithin (length signals.now) set.old.items }
    ensures within { OnOk result (IsWithin (length signals.now) set.new.items) }
    ensures adds { OnOk result (AddsSelection (shapes_of signals.now) selection.now set.old.items set.new.items) }
{
    match selection {
        Selection::Whole => Ok(()),
        Selection::Bit(i) => add_reads(signals, i, set),
        Selection::Part(_, _) => Ok(()),
        Selection::Up(i, _) => add_reads(signals, i, set),
        Selection::Down(i, _) => add_reads(signals, i, set),
    }
}

/// Adds the bits that the indexes in a target read to a set (IEEE 1364-2005, 9.2).
#[cycle(target)]
pub fn add_target_reads(
    signals: &[FlatSignal],
    target: &FlatTarget,
    set: &mut Vec<Bits>,
) -> Result<(), AllocError>
    requires fits { ReadableTarget signals.now target.now }
    requires within { IsWithin (length signals.now) set.old.items }
    ensures within { OnOk result (IsWithin (length signals.now) set.new.items) }
    ensures adds { OnOk result (AddsTarget (shapes_of signals.now) target.now set.old.items set.new.items) }
{
    match target {
        Target::Signal(_, _, selection) => add_selection(signals, selection, set),
        Target::Concatenation(_, parts) => add_parts(signals, parts.as_slice(), set),
    }
}

#[cycle(target)]
fn add_parts(
    signals: &[FlatSignal],
    parts: &[FlatTarget],
    set: &mut Vec<Bits>,
) -> Result<(), AllocError>
    requires fits { All (ReadableTarget signals.now) parts.now }
    requires within { IsWithin (length signals.now) set.old.items }
    ensures within { OnOk result (IsWithin (length signals.now) set.new.items) }
    ensures adds { OnOk result (AddsParts (shapes_of signals.now) parts.now set.old.items set.new.items) }
{
    for part in parts {
        add_target_reads(signals, part, set)?;
    }
    Ok(())
}
