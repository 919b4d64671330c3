//! The parts that a target names.

ghost use Rattle.std.specs.Prelude.{◌≡◌, ℕ, ◌<◌, ◌≤◌, All, IfOk, OnOk};
ghost use Rattle.flat_bits.specs.Selections.{FitsSelection};
ghost use Rattle.flat_tree.specs.Values.{Shape};
ghost use Rattle.flat_values.specs.Fits.{shape_of};
ghost use Rattle.flat_writes.specs.Writes.{FitsTarget};
ghost use Rattle.target_parts.specs.Places.{HasBits, IsSelected, AddsTarget, AddsRow};

use flat_tree::{FlatExpr, FlatSignal, FlatTarget};
use std::alloc::AllocError;
use v_views::{Selection, Target};
use view_rows::Part;

/// The part of a signal that a selection names. A selection by an index ends as want of memory does.
fn selected(
    signal: &FlatSignal,
    g: u32,
    selection: &Selection<FlatExpr>,
) -> Result<Part, AllocError>
    requires vector { signal.now.words ≡ 0 }
    requires some { 0 < signal.now.bits }
    requires bits { signal.now.bits ≤ 64 }
    requires fits { FitsSelection signal.now selection.now }
    ensures { IfOk result (λ p. (shapes : ℕ → Shape) → shapes g ≡ shape_of signal.now → IsSelected shapes g selection.now p) }
{
    let low = signal.low;
    match selection {
        Selection::Whole => Ok(Part {
            signal: g,
            word: 0,
            high: signal.bits - 1,
            low: 0,
        }),
        Selection::Part(high, end) => Ok(Part {
            signal: g,
            word: 0,
            high: (*high - low) as u8,
            low: (*end - low) as u8,
        }),
        _ => Err(AllocError),
    }
}

/// Adds the parts that a target names, the leftmost first: those that its places are in every view (IEEE 1364-2005, 5.1.14
/// and 9.2). A selection by an index ends as want of memory does.
#[cycle(parts)]
pub fn target_parts(
    signals: &[FlatSignal],
    target: &FlatTarget,
    parts: &mut Vec<Part>,
) -> Result<(), AllocError>
    requires bits { All HasBits signals.now }
    requires fits { FitsTarget signals.now target.now }
    ensures { OnOk result (AddsTarget signals.now target.now parts.old.items parts.new.items) }
{
    match target {
        Target::Signal(_, g, selection) => {
            let part = selected(&signals[*g as usize], *g, selection)?;
            parts.push(part)?;
        }
        Target::Concatenation(_, list) => row_parts(signals, list.as_slice(), parts)?,
    }
    Ok(())
}

#[cycle(parts)]
fn row_parts(
    signals: &[FlatSignal],
    targets: &[FlatTarget],
    parts: &mut Vec<Part>,
) -> Result<(), AllocError>
    requires bits { All HasBits signals.now }
    requires fits { All (FitsTarget signals.now) targets.now }
    ensures { OnOk result (AddsRow signals.now targets.now parts.old.items parts.new.items) }
{
    for target in targets {
        target_parts(signals, target, parts)?;
    }
    Ok(())
}
