//! The bits that a statement may assign by `=`, or by `<=`.

ghost use Rattle.std.specs.Prelude.{All, length, OnOk};
ghost use Rattle.bit_sets.specs.Sets.{IsWithin};
ghost use Rattle.flat_values.specs.Fits.{shapes_of};
ghost use Rattle.flat_writes.specs.Writes.{FitsTarget};
ghost use Rattle.statement_writes.specs.Assigned.{IsSame, FitsStmt, FitsItem, AddsTarget, AddsStmt, AddsBody, AddsItem, AddsItems};

use bit_sets::Bits;
use flat_tree::{FlatExpr, FlatSignal, FlatStmt, FlatTarget};
use flat_writes::{Extent, add_bits};
use std::alloc::{AllocError, Global};
use v_tree::AssignmentKind;
use v_views::{CaseItem, Stmt};

fn is_same(kind: AssignmentKind, by: AssignmentKind) -> bool
    ensures { IsSame by kind result }
{
    match by {
        AssignmentKind::Blocking => matches!(kind, AssignmentKind::Blocking),
        AssignmentKind::Nonblocking => matches!(kind, AssignmentKind::Nonblocking),
    }
}

/// Adds the bits of a target, where its assignment is of the kind that is asked for.
fn add_target(
    signals: &[FlatSignal],
    kind: AssignmentKind,
    target: &FlatTarget,
    by: AssignmentKind,
    set: &mut Vec<Bits>,
) -> Result<(), AllocError>
    requires fits { FitsTarget signals.now target.now }
    requires within { IsWithin (length signals.now) set.old.items }
    ensures within { OnOk result (IsWithin (length signals.now) set.new.items) }
    ensures adds { OnOk result (AddsTarget (shapes_of signals.now) by kind target.now set.old.items set.new.items) }
{
    if is_same(kind, by) {
        return add_bits(signals, target, Extent::Any, set);
    }
    Ok(())
}

/// Adds the bits that a statement assigns somewhere by `=`, or by `<=`, to a set (IEEE 1364-2005, 9.2). Each branch counts,
/// and a write with an index that isn't constant counts as all bits of its name.
#[cycle(assigned)]
pub fn add_assigned(
    signals: &[FlatSignal],
    stmt: &FlatStmt,
    by: AssignmentKind,
    set: &mut Vec<Bits>,
) -> Result<(), AllocError>
    requires fits { FitsStmt signals.now stmt.now }
    requires within { IsWithin (length signals.now) set.old.items }
    ensures within { OnOk result (IsWithin (length signals.now) set.new.items) }
    ensures adds { OnOk result (AddsStmt (shapes_of signals.now) by stmt.now set.old.items set.new.items) }
{
    match stmt {
        Stmt::Block(_, body) => add_body(signals, body.as_slice(), by, set),
        Stmt::If(_, _, a) => add_assigned(signals, a.get(), by, set),
        Stmt::IfElse(_, _, a, b) => {
            add_assigned(signals, a.get(), by, set)?;
            add_assigned(signals, b.get(), by, set)
        }
        Stmt::Case(_, _, items) => add_items(signals, items.as_slice(), by, set),
        Stmt::Assignment(_, kind, target, _) => add_target(signals, *kind, target, by, set),
    }
}

#[cycle(assigned)]
fn add_body(
    signals: &[FlatSignal],
    body: &[FlatStmt],
    by: AssignmentKind,
    set: &mut Vec<Bits>,
) -> Result<(), AllocError>
    requires fits { All (FitsStmt signals.now) body.now }
    requires within { IsWithin (length signals.now) set.old.items }
    ensures within { OnOk result (IsWithin (length signals.now) set.new.items) }
    ensures adds { OnOk result (AddsBody (shapes_of signals.now) by body.now set.old.items set.new.items) }
{
    for stmt in body {
        add_assigned(signals, stmt, by, set)?;
    }
    Ok(())
}

#[cycle(assigned)]
fn add_items(
    signals: &[FlatSignal],
    items: &[CaseItem<FlatExpr>],
    by: AssignmentKind,
    set: &mut Vec<Bits>,
) -> Result<(), AllocError>
    requires fits { All (FitsItem signals.now) items.now }
    requires within { IsWithin (length signals.now) set.old.items }
    ensures within { OnOk result (IsWithin (length signals.now) set.new.items) }
    ensures adds { OnOk result (AddsItems (shapes_of signals.now) by items.now set.old.items set.new.items) }
{
    for item in items {
        add_item(signals, item, by, set)?;
    }
    Ok(())
}

#[cycle(assigned)]
fn add_item(
    signals: &[FlatSignal],
    item: &CaseItem<FlatExpr>,
    by: AssignmentKind,
    set: &mut Vec<Bits>,
) -> Result<(), AllocError>
    requires fits { FitsItem signals.now item.now }
    requires within { IsWithin (length signals.now) set.old.items }
    ensures within { OnOk result (IsWithin (length signals.now) set.new.items) }
    ensures adds { OnOk result (AddsItem (shapes_of signals.now) by item.now set.old.items set.new.items) }
{
    match item {
        CaseItem::Values(_, a) => add_assigned(signals, a.get(), by, set),
        CaseItem::Default(_, a) => add_assigned(signals, a.get(), by, set),
    }
}
