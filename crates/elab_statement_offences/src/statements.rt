//! Statements (IEEE 1364-2005, clause 9).

ghost use Rattle.std.specs.Prelude.{true, flat_map, OnOk};
ghost use Rattle.elab_names.specs.declared.constant.Worth.TheVariants.{Value};
ghost use Rattle.elab_loops.specs.Loops.{with_turn as with_turn_of};
ghost use Rattle.elab_offences.specs.Noted.{Notes};
ghost use Rattle.elab_statement_offences.specs.Statements.{idle_body, copies_offences, unrolled_offences, integer_offences, loop_at, loop_offences, assignment_offences, stmt_offences, item_offences};

use crate::cases::patterns;
use crate::heads::{integer_in, is_idle, live_values, loop_head, other};
use bits_core::Word;
use elab_loops::{is_long, turns_of, with_turn};
use elab_names::constant::Worth;
use elab_names::names::{Entry, Turn};
use elab_names::scope::Names;
use elab_offences::{expression, target};
use offence_order::First;
use src_text::Place;
use std::alloc::{AllocError, Global};
use v_tree::{Assignment, CaseItem, CaseKind, ForHead, Stmt};

fn assignment(
    alloc: Global,
    first: &mut First,
    names: &Names,
    turns: &[Turn],
    a: &Assignment,
) -> Result<(), AllocError>
    ensures { OnOk result (Notes first.old first.new (assignment_offences names.now turns.now a.now)) }
{
    target(alloc, first, names, turns, true, &a.target)?;
    expression(alloc, first, names, turns, false, &a.value)?;
    Ok(())
}

/// What is wrong with a statement of a process, by the turns of the loops round it. What is never run is not live: it stands
/// in a loop that takes no turn, and no loop in it takes one.
#[cycle(stmt)]
pub fn statement(
    alloc: Global,
    first: &mut First,
    names: &Names,
    live: bool,
    turns: &[Turn],
    s: &Stmt,
) -> Result<(), AllocError>
    ensures { OnOk result (Notes first.old first.new (stmt_offences names.now s.now live turns.now)) }
{
    match s {
        Stmt::Empty(_) => Ok(()),
        Stmt::Block(_, _, body) => {
            statements(alloc, first, names, live, turns, body.as_slice())?;
            Ok(())
        }
        Stmt::If(_, c, s) => {
            expression(alloc, first, names, turns, false, c)?;
            statement(alloc, first, names, live, turns, s.get())?;
            Ok(())
        }
        Stmt::IfElse(_, c, s, other) => {
            expression(alloc, first, names, turns, false, c)?;
            statement(alloc, first, names, live, turns, s.get())?;
            statement(alloc, first, names, live, turns, other.get())?;
            Ok(())
        }
        Stmt::Case(_, kind, value, items) => {
            expression(alloc, first, names, turns, false, value)?;
            case_items(alloc, first, names, *kind, live, turns, items.as_slice())?;
            Ok(())
        }
        Stmt::For(place, head, s) => {
            for_loop(alloc, first, names, live, turns, *place, head, s.get())?;
            Ok(())
        }
        Stmt::Assignment(a) => {
            assignment(alloc, first, names, turns, a)?;
            Ok(())
        }
    }
}

#[cycle(stmt)]
fn statements(
    alloc: Global,
    first: &mut First,
    names: &Names,
    live: bool,
    turns: &[Turn],
    body: &[Stmt],
) -> Result<(), AllocError>
    ensures { OnOk result (Notes first.old first.new (flat_map (λ s. stmt_offences names.now s live turns.now) body.now)) }
{
    for s in body {
        statement(alloc, first, names, live, turns, s)?;
    }
    Ok(())
}

#[cycle(stmt)]
fn case_items(
    alloc: Global,
    first: &mut First,
    names: &Names,
    kind: CaseKind,
    live: bool,
    turns: &[Turn],
    items: &[CaseItem],
) -> Result<(), AllocError>
    ensures { OnOk result (Notes first.old first.new (flat_map (λ c. item_offences names.now kind c live turns.now) items.now)) }
{
    for c in items {
        case_item(alloc, first, names, kind, live, turns, c)?;
    }
    Ok(())
}

#[cycle(stmt)]
fn case_item(
    alloc: Global,
    first: &mut First,
    names: &Names,
    kind: CaseKind,
    live: bool,
    turns: &[Turn],
    c: &CaseItem,
) -> Result<(), AllocError>
    ensures { OnOk result (Notes first.old first.new (item_offences names.now kind c.now live turns.now)) }
{
    match c {
        CaseItem::Values(values, s) => {
            patterns(alloc, first, names, turns, kind, values.as_slice())?;
            statement(alloc, first, names, live, turns, s.get())?;
            Ok(())
        }
        CaseItem::Default(_, s) => {
            statement(alloc, first, names, live, turns, s.get())?;
            Ok(())
        }
    }
}

#[cycle(stmt)]
fn for_loop(
    alloc: Global,
    first: &mut First,
    names: &Names,
    live: bool,
    turns: &[Turn],
    place: Place,
    head: &ForHead,
    body: &Stmt,
) -> Result<(), AllocError>
    ensures { OnOk result (Notes first.old first.new (loop_offences names.now (stmt_offences names.now body.now) live turns.now place head.now)) }
{
    let entry = names.find(&head.start.name.name);
    let integer = integer_in(&entry);
    loop_over(
        alloc, first, names, live, turns, place, head, &entry, integer, body,
    )?;
    Ok(())
}

#[cycle(stmt)]
fn loop_over(
    alloc: Global,
    first: &mut First,
    names: &Names,
    live: bool,
    turns: &[Turn],
    place: Place,
    head: &ForHead,
    entry: &Option<Entry>,
    integer: Option<usize>,
    body: &Stmt,
) -> Result<(), AllocError>
    ensures { OnOk result (Notes first.old first.new (loop_at names.now (stmt_offences names.now body.now) live turns.now place head.now entry.now integer)) }
{
    match integer {
        Some(n) => {
            over_integer(alloc, first, names, live, turns, place, n, head, body)?;
            Ok(())
        }
        None => {
            other(alloc, first, names, turns, head, entry)?;
            statement(alloc, first, names, false, turns, body)?;
            Ok(())
        }
    }
}

#[cycle(stmt)]
fn over_integer(
    alloc: Global,
    first: &mut First,
    names: &Names,
    live: bool,
    turns: &[Turn],
    place: Place,
    n: usize,
    head: &ForHead,
    body: &Stmt,
) -> Result<(), AllocError>
    ensures { OnOk result (Notes first.old first.new (integer_offences names.now (stmt_offences names.now body.now) live turns.now place n head.now)) }
{
    let values = live_values(alloc, names, live, turns, n, head)?;
    let long = is_long(values.as_slice());
    let taken = turns_of(alloc, values);
    unrolled(
        alloc,
        first,
        names,
        turns,
        place,
        n,
        head,
        long,
        taken.as_slice(),
        body,
    )?;
    Ok(())
}

#[cycle(stmt)]
fn unrolled(
    alloc: Global,
    first: &mut First,
    names: &Names,
    turns: &[Turn],
    place: Place,
    n: usize,
    head: &ForHead,
    long: bool,
    taken: &[Word],
    body: &Stmt,
) -> Result<(), AllocError>
    ensures { OnOk result (Notes first.old first.new (unrolled_offences names.now (stmt_offences names.now body.now) turns.now place n head.now long taken.now)) }
{
    loop_head(alloc, first, names, turns, place, n, head, long, taken)?;
    copies(alloc, first, names, turns, n, taken, body)?;
    Ok(())
}

#[cycle(stmt)]
fn copies(
    alloc: Global,
    first: &mut First,
    names: &Names,
    turns: &[Turn],
    n: usize,
    taken: &[Word],
    body: &Stmt,
) -> Result<(), AllocError>
    ensures { OnOk result (Notes first.old first.new (copies_offences (stmt_offences names.now body.now) turns.now n taken.now)) }
{
    let none = is_idle(taken);
    idle(alloc, first, names, turns, n, none, body)?;
    each_copy(alloc, first, names, turns, n, taken, body)?;
    Ok(())
}

#[cycle(stmt)]
fn idle(
    alloc: Global,
    first: &mut First,
    names: &Names,
    turns: &[Turn],
    n: usize,
    none: bool,
    body: &Stmt,
) -> Result<(), AllocError>
    ensures { OnOk result (Notes first.old first.new (idle_body (stmt_offences names.now body.now) turns.now n none)) }
{
    if none {
        copy(alloc, first, names, false, turns, n, Worth::Open, body)?;
        Ok(())
    } else {
        Ok(())
    }
}

#[cycle(stmt)]
fn each_copy(
    alloc: Global,
    first: &mut First,
    names: &Names,
    turns: &[Turn],
    n: usize,
    taken: &[Word],
    body: &Stmt,
) -> Result<(), AllocError>
    ensures { OnOk result (Notes first.old first.new (flat_map (λ v. stmt_offences names.now body.now true (with_turn_of turns.now n (Value v))) taken.now)) }
{
    for v in taken {
        copy(alloc, first, names, true, turns, n, Worth::Value(*v), body)?;
    }
    Ok(())
}

#[cycle(stmt)]
fn copy(
    alloc: Global,
    first: &mut First,
    names: &Names,
    live: bool,
    turns: &[Turn],
    n: usize,
    worth: Worth,
    body: &Stmt,
) -> Result<(), AllocError>
    ensures { OnOk result (Notes first.old first.new (stmt_offences names.now body.now live (with_turn_of turns.now n worth))) }
{
    let inside = with_turn(alloc, turns, n, worth)?;
    statement(alloc, first, names, live, inside.as_slice(), body)?;
    Ok(())
}
