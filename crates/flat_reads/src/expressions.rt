//! The bits that an expression reads.

ghost use Rattle.std.specs.Prelude.{All, length, OnOk};
ghost use Rattle.bit_sets.specs.Sets.{IsWithin};
ghost use Rattle.flat_values.specs.Fits.{shapes_of};
ghost use Rattle.flat_reads.specs.Sets.{IsVector, IsReadable, IsReadableIndex, IsReadableSelect, AddsWhole, AddsReads, AddsSelected, AddsIndex, AddsParts};

use crate::selects::select_bits;
use bit_sets::Bits;
use flat_bits::{Named, span};
use flat_tree::{FlatExpr, FlatSelection, FlatSignal};
use std::alloc::{AllocError, Global};

/// Adds all bits of a vector to a set.
fn add_whole(signals: &[FlatSignal], g: u32, set: &mut Vec<Bits>) -> Result<(), AllocError>
    requires vector { IsVector (length signals.now) (shapes_of signals.now) g }
    requires within { IsWithin (length signals.now) set.old.items }
    ensures within { OnOk result (IsWithin (length signals.now) set.new.items) }
    ensures adds { OnOk result (AddsWhole (shapes_of signals.now) g set.old.items set.new.items) }
{
    let bits = signals[g as usize].bits;
    set.push(Bits {
        signal: g,
        mask: span(bits, 0, bits),
    })?;
    Ok(())
}

/// Adds the bits of its vector that a select reads: its own, or all where its index isn't constant.
fn add_selected(
    signals: &[FlatSignal],
    g: u32,
    selection: &FlatSelection,
    set: &mut Vec<Bits>,
) -> Result<(), AllocError>
    requires fits { IsReadableSelect signals.now g selection.now }
    requires within { IsWithin (length signals.now) set.old.items }
    ensures within { OnOk result (IsWithin (length signals.now) set.new.items) }
    ensures adds { OnOk result (AddsSelected (shapes_of signals.now) g selection.now set.old.items set.new.items) }
{
    match select_bits(&signals[g as usize], selection) {
        Named::Mask(mask) => {
            set.push(Bits { signal: g, mask })?;
            Ok(())
        }
        Named::Varying => add_whole(signals, g, set),
    }
}

/// Adds the bits that an expression reads to a set: of a name all its bits, of a constant select its own, of any other
/// select all bits of the name and those of its index. All operands count, also one that isn't chosen.
#[cycle(reads)]
pub fn add_reads(
    signals: &[FlatSignal],
    e: &FlatExpr,
    set: &mut Vec<Bits>,
) -> Result<(), AllocError>
    requires fits { IsReadable signals.now e.now }
    requires within { IsWithin (length signals.now) set.old.items }
    ensures within { OnOk result (IsWithin (length signals.now) set.new.items) }
    ensures adds { OnOk result (AddsReads (shapes_of signals.now) e.now set.old.items set.new.items) }
{
    match e {
        FlatExpr::Literal(_) => Ok(()),
        FlatExpr::Signal(_, g) => add_whole(signals, *g, set),
        FlatExpr::Select(_, g, s) => {
            add_selected(signals, *g, s, set)?;
            add_index(signals, s, set)
        }
        FlatExpr::SelectNumber(_, _, _, s) => add_index(signals, s, set),
        FlatExpr::Unary(_, a) => add_reads(signals, a.get(), set),
        FlatExpr::Binary(a, _, b) => {
            add_reads(signals, a.get(), set)?;
            add_reads(signals, b.get(), set)
        }
        FlatExpr::Conditional(c, a, b) => {
            add_reads(signals, c.get(), set)?;
            add_reads(signals, a.get(), set)?;
            add_reads(signals, b.get(), set)
        }
        FlatExpr::Parentheses(_, a) => add_reads(signals, a.get(), set),
        FlatExpr::Concatenation(_, parts) => add_parts(signals, parts.as_slice(), set),
        FlatExpr::Replication(_, _, parts) => add_parts(signals, parts.as_slice(), set),
        FlatExpr::Signed(_, a) => add_reads(signals, a.get(), set),
        FlatExpr::Unsigned(_, a) => add_reads(signals, a.get(), set),
    }
}

#[cycle(reads)]
fn add_parts(
    signals: &[FlatSignal],
    parts: &[FlatExpr],
    set: &mut Vec<Bits>,
) -> Result<(), AllocError>
    requires fits { All (IsReadable signals.now) parts.now }
    requires within { IsWithin (length signals.now) set.old.items }
    ensures within { OnOk result (IsWithin (length signals.now) set.new.items) }
    ensures adds { OnOk result (AddsParts (shapes_of signals.now) parts.now set.old.items set.new.items) }
{
    for part in parts {
        add_reads(signals, part, set)?;
    }
    Ok(())
}

/// Adds the bits that the index of a select reads; a number reads none.
#[cycle(reads)]
fn add_index(
    signals: &[FlatSignal],
    selection: &FlatSelection,
    set: &mut Vec<Bits>,
) -> Result<(), AllocError>
    requires fits { IsReadableIndex signals.now selection.now }
    requires within { IsWithin (length signals.now) set.old.items }
    ensures within { OnOk result (IsWithin (length signals.now) set.new.items) }
    ensures adds { OnOk result (AddsIndex (shapes_of signals.now) selection.now set.old.items set.new.items) }
{
    match selection {
        FlatSelection::Bit(i) => add_reads(signals, i.get(), set),
        FlatSelection::Part(_, _) => Ok(()),
        FlatSelection::Up(i, _) => add_reads(signals, i.get(), set),
        FlatSelection::Down(i, _) => add_reads(signals, i.get(), set),
    }
}
