//! Statements (IEEE 1364-2005, clause 9).

ghost use Rattle.std.specs.Prelude.{◌≡◌, map, IfOk};
ghost use Rattle.v_views.specs.declared.CaseItem.TheVariants as choice;
ghost use Rattle.v_views.specs.declared.Stmt.TheVariants as made;
ghost use Rattle.elab_names.specs.declared.constant.Worth.TheVariants.{Value};
ghost use Rattle.elab_flat.specs.Flat.{flat_expr as flat_expr_of};
ghost use Rattle.elab_loops.specs.Loops.{with_turn as with_turn_of};
ghost use Rattle.elab_statements.specs.Patterns.{flat_pattern as flat_pattern_of};
ghost use Rattle.elab_statements.specs.Statements.{flat_assignment as flat_assignment_of, loop_copies as loop_copies_of, flat_stmt as flat_stmt_of, flat_item as flat_item_of};

use crate::pattern::flat_patterns;
use bits_core::Word;
use elab_flat::{flat_expr, flat_target};
use elab_loops::{integer_number, taken_turns, with_turn};
use elab_names::constant::Worth;
use elab_names::names::Turn;
use elab_names::scope::Names;
use flat_tree::{FlatExpr, FlatStmt};
use sqlite_items::{Boxed, Items};
use src_text::Place;
use std::alloc::{AllocError, Global};
use v_starts::target_start;
use v_tree::{Assignment, CaseItem as SourceItem, CaseKind, Expr, ForHead, Stmt as SourceStmt};
use v_views::{CaseItem, Stmt};

/// A branch of a flat `case`.
pub type FlatItem = CaseItem<FlatExpr>;

fn flat_assignment(
    alloc: Global,
    names: &Names,
    turns: &[Turn],
    a: &Assignment,
) -> Result<FlatStmt, AllocError>
    ensures { IfOk result (λ r. r ≡ flat_assignment_of names.now turns.now a.now) }
{
    let target = flat_target(alloc, names, turns, &a.target)?;
    let value = flat_expr(alloc, names, turns, &a.value)?;
    Ok(Stmt::Assignment(target_start(&a.target), a.kind, target, value))
}

fn flat_if(
    alloc: Global,
    names: &Names,
    turns: &[Turn],
    place: Place,
    c: &Expr,
    s: Boxed<FlatStmt>,
) -> Result<FlatStmt, AllocError>
    ensures { IfOk result (λ f. f ≡ made.If place (flat_expr_of names.now turns.now c.now) s) }
{
    let c = flat_expr(alloc, names, turns, c)?;
    Ok(Stmt::If(place, c, s))
}

fn flat_if_else(
    alloc: Global,
    names: &Names,
    turns: &[Turn],
    place: Place,
    c: &Expr,
    s: Boxed<FlatStmt>,
    other: Boxed<FlatStmt>,
) -> Result<FlatStmt, AllocError>
    ensures { IfOk result (λ f. f ≡ made.IfElse place (flat_expr_of names.now turns.now c.now) s other) }
{
    let c = flat_expr(alloc, names, turns, c)?;
    Ok(Stmt::IfElse(place, c, s, other))
}

fn flat_case(
    alloc: Global,
    names: &Names,
    turns: &[Turn],
    place: Place,
    value: &Expr,
    items: Items<FlatItem>,
) -> Result<FlatStmt, AllocError>
    ensures { IfOk result (λ f. f ≡ made.Case place (flat_expr_of names.now turns.now value.now) items) }
{
    let value = flat_expr(alloc, names, turns, value)?;
    Ok(Stmt::Case(place, value, items))
}

fn flat_values(
    alloc: Global,
    names: &Names,
    turns: &[Turn],
    kind: CaseKind,
    values: &[Expr],
    s: Boxed<FlatStmt>,
) -> Result<FlatItem, AllocError>
    ensures { IfOk result (λ f. f ≡ choice.Values (map (flat_pattern_of names.now turns.now kind) values.now) s) }
{
    let values = flat_patterns(alloc, names, turns, kind, values)?;
    Ok(CaseItem::Values(values, s))
}

/// The flat form of a statement, by the names round it and the turns of the loops round it.
#[cycle(stmt)]
pub fn flat_stmt(
    alloc: Global,
    names: &Names,
    turns: &[Turn],
    s: &SourceStmt,
) -> Result<FlatStmt, AllocError>
    ensures { IfOk result (λ f. f ≡ flat_stmt_of names.now s.now turns.now) }
{
    match s {
        SourceStmt::Empty(place) => Ok(Stmt::Block(*place, Items::new(alloc))),
        SourceStmt::Block(place, _, body) => {
            let f = flat_block(alloc, names, turns, *place, body.as_slice())?;
            Ok(f)
        }
        SourceStmt::If(place, c, s) => {
            let s = flat_boxed(alloc, names, turns, s.get())?;
            let f = flat_if(alloc, names, turns, *place, c, s)?;
            Ok(f)
        }
        SourceStmt::IfElse(place, c, s, other) => {
            let s = flat_boxed(alloc, names, turns, s.get())?;
            let other = flat_boxed(alloc, names, turns, other.get())?;
            let f = flat_if_else(alloc, names, turns, *place, c, s, other)?;
            Ok(f)
        }
        SourceStmt::Case(place, kind, value, items) => {
            let items = flat_items(alloc, names, turns, *kind, items.as_slice())?;
            let f = flat_case(alloc, names, turns, *place, value, items)?;
            Ok(f)
        }
        SourceStmt::For(place, head, s) => {
            let f = flat_for(alloc, names, turns, *place, head, s.get())?;
            Ok(f)
        }
        SourceStmt::Assignment(a) => {
            let f = flat_assignment(alloc, names, turns, a)?;
            Ok(f)
        }
    }
}

/// A statement in a box of its own.
#[cycle(stmt)]
fn flat_boxed(
    alloc: Global,
    names: &Names,
    turns: &[Turn],
    s: &SourceStmt,
) -> Result<Boxed<FlatStmt>, AllocError>
    ensures { IfOk result (λ f. f ≡ flat_stmt_of names.now s.now turns.now) }
{
    let f = flat_stmt(alloc, names, turns, s)?;
    let boxed = Boxed::new(alloc, f)?;
    Ok(boxed)
}

#[cycle(stmt)]
fn flat_block(
    alloc: Global,
    names: &Names,
    turns: &[Turn],
    place: Place,
    body: &[SourceStmt],
) -> Result<FlatStmt, AllocError>
    ensures { IfOk result (λ f. f ≡ made.Block place (map (λ s. flat_stmt_of names.now s turns.now) body.now)) }
{
    let body = flat_body(alloc, names, turns, body)?;
    Ok(Stmt::Block(place, body))
}

#[cycle(stmt)]
fn flat_for(
    alloc: Global,
    names: &Names,
    turns: &[Turn],
    place: Place,
    head: &ForHead,
    body: &SourceStmt,
) -> Result<FlatStmt, AllocError>
    ensures { IfOk result (λ f. f ≡ made.Block place (loop_copies_of names.now (flat_stmt_of names.now body.now) turns.now head.now)) }
{
    let copies = flat_loop(alloc, names, turns, head, body)?;
    Ok(Stmt::Block(place, copies))
}

#[cycle(stmt)]
fn flat_body(
    alloc: Global,
    names: &Names,
    turns: &[Turn],
    body: &[SourceStmt],
) -> Result<Items<FlatStmt>, AllocError>
    ensures { IfOk result (λ f. f ≡ map (λ s. flat_stmt_of names.now s turns.now) body.now) }
{
    let mut flat = Items::new(alloc);
    for s in body {
        let f = flat_stmt(alloc, names, turns, s)?;
        flat.push(f)?;
    }
    Ok(flat)
}

#[cycle(stmt)]
fn flat_items(
    alloc: Global,
    names: &Names,
    turns: &[Turn],
    kind: CaseKind,
    items: &[SourceItem],
) -> Result<Items<FlatItem>, AllocError>
    ensures { IfOk result (λ f. f ≡ map (λ c. flat_item_of names.now kind c turns.now) items.now) }
{
    let mut flat = Items::new(alloc);
    for c in items {
        let f = flat_item(alloc, names, turns, kind, c)?;
        flat.push(f)?;
    }
    Ok(flat)
}

#[cycle(stmt)]
fn flat_item(
    alloc: Global,
    names: &Names,
    turns: &[Turn],
    kind: CaseKind,
    c: &SourceItem,
) -> Result<FlatItem, AllocError>
    ensures { IfOk result (λ f. f ≡ flat_item_of names.now kind c.now turns.now) }
{
    match c {
        SourceItem::Values(values, s) => {
            let s = flat_boxed(alloc, names, turns, s.get())?;
            let f = flat_values(alloc, names, turns, kind, values.as_slice(), s)?;
            Ok(f)
        }
        SourceItem::Default(place, s) => {
            let f = flat_default(alloc, names, turns, *place, s.get())?;
            Ok(f)
        }
    }
}

#[cycle(stmt)]
fn flat_default(
    alloc: Global,
    names: &Names,
    turns: &[Turn],
    place: Place,
    s: &SourceStmt,
) -> Result<FlatItem, AllocError>
    ensures { IfOk result (λ f. f ≡ choice.Default place (flat_stmt_of names.now s.now turns.now)) }
{
    let s = flat_boxed(alloc, names, turns, s)?;
    Ok(CaseItem::Default(place, s))
}

#[cycle(stmt)]
fn flat_loop(
    alloc: Global,
    names: &Names,
    turns: &[Turn],
    head: &ForHead,
    body: &SourceStmt,
) -> Result<Items<FlatStmt>, AllocError>
    ensures { IfOk result (λ f. f ≡ loop_copies_of names.now (flat_stmt_of names.now body.now) turns.now head.now) }
{
    let integer = integer_number(&names.find(&head.start.name.name));
    let taken = taken_turns(alloc, names, turns, integer, head)?;
    let copies = flat_copies(alloc, names, turns, integer, taken.as_slice(), body)?;
    Ok(copies)
}

#[cycle(stmt)]
fn flat_copies(
    alloc: Global,
    names: &Names,
    turns: &[Turn],
    integer: usize,
    values: &[Word],
    body: &SourceStmt,
) -> Result<Items<FlatStmt>, AllocError>
    ensures { IfOk result (λ f. f ≡ map (λ v. flat_stmt_of names.now body.now (with_turn_of turns.now integer (Value v))) values.now) }
{
    let mut copies = Items::new(alloc);
    for value in values {
        let f = flat_copy(alloc, names, turns, integer, *value, body)?;
        copies.push(f)?;
    }
    Ok(copies)
}

#[cycle(stmt)]
fn flat_copy(
    alloc: Global,
    names: &Names,
    turns: &[Turn],
    integer: usize,
    value: Word,
    body: &SourceStmt,
) -> Result<FlatStmt, AllocError>
    ensures { IfOk result (λ f. f ≡ flat_stmt_of names.now body.now (with_turn_of turns.now integer (Value value))) }
{
    let inside = with_turn(alloc, turns, integer, Worth::Value(value))?;
    let f = flat_stmt(alloc, names, inside.as_slice(), body)?;
    Ok(f)
}
