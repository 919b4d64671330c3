//! The bits that a statement reads.

ghost use Rattle.std.specs.Prelude.{All, length, OnOk};
ghost use Rattle.bit_sets.specs.Sets.{IsWithin};
ghost use Rattle.flat_values.specs.Fits.{shapes_of};
ghost use Rattle.statement_reads.specs.Reads.{IsReadablePattern, ReadableStmt, ReadableItem, AddsPatterns, AddsStmt, AddsBody, AddsItem, AddsItems};

use crate::targets::add_target_reads;
use bit_sets::Bits;
use flat_reads::add_reads;
use flat_tree::{FlatExpr, FlatSignal, FlatStmt};
use std::alloc::{AllocError, Global};
use v_views::{CaseItem, Pattern, Stmt};

/// Adds the bits that the values of a case item read.
fn add_patterns(
    signals: &[FlatSignal],
    patterns: &[Pattern<FlatExpr>],
    set: &mut Vec<Bits>,
) -> Result<(), AllocError>
    requires fits { All (IsReadablePattern signals.now) patterns.now }
    requires within { IsWithin (length signals.now) set.old.items }
    ensures within { OnOk result (IsWithin (length signals.now) set.new.items) }
    ensures adds { OnOk result (AddsPatterns (shapes_of signals.now) patterns.now set.old.items set.new.items) }
{
    for pattern in patterns {
        add_reads(signals, &pattern.value, set)?;
    }
    Ok(())
}

/// Adds the bits that a statement reads anywhere to a set: its conditions, the values of its cases, the right sides of its
/// assignments, and the indexes in their targets (IEEE 1364-2005, 9.2 to 9.5). Each branch counts.
#[cycle(reads)]
pub fn add_statement_reads(
    signals: &[FlatSignal],
    stmt: &FlatStmt,
    set: &mut Vec<Bits>,
) -> Result<(), AllocError>
    requires fits { ReadableStmt signals.now stmt.now }
    requires within { IsWithin (length signals.now) set.old.items }
    ensures within { OnOk result (IsWithin (length signals.now) set.new.items) }
    ensures adds { OnOk result (AddsStmt (shapes_of signals.now) stmt.now set.old.items set.new.items) }
{
    match stmt {
        Stmt::Block(_, body) => add_body(signals, body.as_slice(), set),
        Stmt::If(_, e, a) => {
            add_reads(signals, e, set)?;
            add_statement_reads(signals, a.get(), set)
        }
        Stmt::IfElse(_, e, a, b) => {
            add_reads(signals, e, set)?;
            add_statement_reads(signals, a.get(), set)?;
            add_statement_reads(signals, b.get(), set)
        }
        Stmt::Case(_, e, items) => {
            add_reads(signals, e, set)?;
            add_items(signals, items.as_slice(), set)
        }
        Stmt::Assignment(_, _, target, e) => {
            add_target_reads(signals, target, set)?;
            add_reads(signals, e, set)
        }
    }
}

#[cycle(reads)]
fn add_body(
    signals: &[FlatSignal],
    body: &[FlatStmt],
    set: &mut Vec<Bits>,
) -> Result<(), AllocError>
    requires fits { All (ReadableStmt signals.now) body.now }
    requires within { IsWithin (length signals.now) set.old.items }
    ensures within { OnOk result (IsWithin (length signals.now) set.new.items) }
    ensures adds { OnOk result (AddsBody (shapes_of signals.now) body.now set.old.items set.new.items) }
{
    for stmt in body {
        add_statement_reads(signals, stmt, set)?;
    }
    Ok(())
}

#[cycle(reads)]
fn add_items(
    signals: &[FlatSignal],
    items: &[CaseItem<FlatExpr>],
    set: &mut Vec<Bits>,
) -> Result<(), AllocError>
    requires fits { All (ReadableItem signals.now) items.now }
    requires within { IsWithin (length signals.now) set.old.items }
    ensures within { OnOk result (IsWithin (length signals.now) set.new.items) }
    ensures adds { OnOk result (AddsItems (shapes_of signals.now) items.now set.old.items set.new.items) }
{
    for item in items {
        add_item(signals, item, set)?;
    }
    Ok(())
}

#[cycle(reads)]
fn add_item(
    signals: &[FlatSignal],
    item: &CaseItem<FlatExpr>,
    set: &mut Vec<Bits>,
) -> Result<(), AllocError>
    requires fits { ReadableItem signals.now item.now }
    requires within { IsWithin (length signals.now) set.old.items }
    ensures within { OnOk result (IsWithin (length signals.now) set.new.items) }
    ensures adds { OnOk result (AddsItem (shapes_of signals.now) item.now set.old.items set.new.items) }
{
    match item {
        CaseItem::Values(patterns, a) => {
            add_patterns(signals, patterns.as_slice(), set)?;
            add_statement_reads(signals, a.get(), set)
        }
        CaseItem::Default(_, a) => add_statement_reads(signals, a.get(), set),
    }
}
