//! What is wrong with an expression (IEEE 1364-2005, clause 5).

ghost use Rattle.std.specs.Prelude.{◌≡◌, ◌++◌, flat_map, OnOk};
ghost use Rattle.elab_offences.specs.Noted.{Notes};
ghost use Rattle.elab_offences.specs.Expressions.{element_offences, varying as varying_of, span_offences, expr_offences, selection_offences, constant_offences, part_offences, spanning_offences};

use crate::rules::{at_if, is_out_of, literal, select, size, varying, whole};
use elab_names::measure::{choice_of, constant_of};
use elab_names::names::Turn;
use elab_names::scope::Names;
use elab_names::select::number_of;
use offence_order::First;
use src_text::Kind;
use std::alloc::{AllocError, Global};
use v_starts::expr_start;
use v_tree::{Expr, Selection};

fn element(first: &mut First, fixed: bool, e: &Expr)
    ensures { Notes first.old first.new (element_offences fixed e.now) }
{
    if fixed {
        match e {
            Expr::Literal(l) => size(first, l),
            _ => {}
        }
    }
}

fn not_varying(
    alloc: Global,
    first: &mut First,
    names: &Names,
    turns: &[Turn],
    e: &Expr,
) -> Result<(), AllocError>
    ensures { OnOk result (Notes first.old first.new (varying_of names.now turns.now e.now)) }
{
    let standing = constant_of(alloc, names, turns, e)?;
    varying(first, expr_start(e), standing.worth);
    Ok(())
}

fn span(
    alloc: Global,
    first: &mut First,
    names: &Names,
    turns: &[Turn],
    most: u8,
    e: &Expr,
) -> Result<(), AllocError>
    ensures { OnOk result (Notes first.old first.new (span_offences names.now turns.now most e.now)) }
{
    let standing = constant_of(alloc, names, turns, e)?;
    let broken = is_out_of(most, number_of(standing));
    at_if(first, broken, expr_start(e), Kind::VRange);
    Ok(())
}

/// What is wrong with an expression. Where it is fixed, it stands in an expression that must be constant.
#[cycle(parts)]
pub fn expression(
    alloc: Global,
    first: &mut First,
    names: &Names,
    turns: &[Turn],
    fixed: bool,
    e: &Expr,
) -> Result<(), AllocError>
    ensures { OnOk result (Notes first.old first.new (expr_offences names.now turns.now fixed e.now)) }
{
    match e {
        Expr::Literal(l) => {
            literal(first, l);
            Ok(())
        }
        Expr::Name(x) => {
            whole(first, turns, x.place, &names.find(&x.name));
            Ok(())
        }
        Expr::Select(x, s) => {
            let c = choice_of(alloc, names, turns, s.get())?;
            select(first, turns, x.place, &names.find(&x.name), c);
            selection(alloc, first, names, turns, fixed, s.get())?;
            Ok(())
        }
        Expr::Unary(_, p) => {
            expression(alloc, first, names, turns, fixed, p.get())?;
            Ok(())
        }
        Expr::Binary(p, _, q) => {
            expression(alloc, first, names, turns, fixed, p.get())?;
            expression(alloc, first, names, turns, fixed, q.get())?;
            Ok(())
        }
        Expr::Conditional(c, p, q) => {
            expression(alloc, first, names, turns, fixed, c.get())?;
            expression(alloc, first, names, turns, fixed, p.get())?;
            expression(alloc, first, names, turns, fixed, q.get())?;
            Ok(())
        }
        Expr::Parentheses(_, p) => {
            expression(alloc, first, names, turns, fixed, p.get())?;
            Ok(())
        }
        Expr::Concatenation(_, ps) => {
            parts(alloc, first, names, turns, fixed, ps.as_slice())?;
            Ok(())
        }
        Expr::Replication(_, count, ps) => {
            constant_expression(alloc, first, names, turns, count.get())?;
            span(alloc, first, names, turns, 128, count.get())?;
            parts(alloc, first, names, turns, fixed, ps.as_slice())?;
            Ok(())
        }
        Expr::Signed(_, p) => {
            expression(alloc, first, names, turns, fixed, p.get())?;
            Ok(())
        }
        Expr::Unsigned(_, p) => {
            expression(alloc, first, names, turns, fixed, p.get())?;
            Ok(())
        }
    }
}

/// What is wrong with an expression that must be constant.
#[cycle(parts)]
pub fn constant_expression(
    alloc: Global,
    first: &mut First,
    names: &Names,
    turns: &[Turn],
    e: &Expr,
) -> Result<(), AllocError>
    ensures { OnOk result (Notes first.old first.new (constant_offences names.now turns.now e.now)) }
{
    expression(alloc, first, names, turns, true, e)?;
    not_varying(alloc, first, names, turns, e)?;
    Ok(())
}

/// What is wrong with a selection.
#[cycle(parts)]
pub fn selection(
    alloc: Global,
    first: &mut First,
    names: &Names,
    turns: &[Turn],
    fixed: bool,
    s: &Selection,
) -> Result<(), AllocError>
    ensures { OnOk result (Notes first.old first.new (selection_offences names.now turns.now fixed s.now)) }
{
    match s {
        Selection::Index(i) => {
            expression(alloc, first, names, turns, fixed, i.get())?;
            Ok(())
        }
        Selection::Range(h, l) => {
            constant_expression(alloc, first, names, turns, h.get())?;
            constant_expression(alloc, first, names, turns, l.get())?;
            Ok(())
        }
        Selection::Up(b, w) => {
            expression(alloc, first, names, turns, fixed, b.get())?;
            spanning(alloc, first, names, turns, 64, w.get())?;
            Ok(())
        }
        Selection::Down(b, w) => {
            expression(alloc, first, names, turns, fixed, b.get())?;
            spanning(alloc, first, names, turns, 64, w.get())?;
            Ok(())
        }
    }
}

/// A constant from 1 to a greatest one.
#[cycle(parts)]
fn spanning(
    alloc: Global,
    first: &mut First,
    names: &Names,
    turns: &[Turn],
    most: u8,
    e: &Expr,
) -> Result<(), AllocError>
    ensures { OnOk result (Notes first.old first.new (spanning_offences names.now turns.now most e.now)) }
{
    constant_expression(alloc, first, names, turns, e)?;
    span(alloc, first, names, turns, most, e)?;
    Ok(())
}

#[cycle(parts)]
fn parts(
    alloc: Global,
    first: &mut First,
    names: &Names,
    turns: &[Turn],
    fixed: bool,
    ps: &[Expr],
) -> Result<(), AllocError>
    ensures { OnOk result (Notes first.old first.new (flat_map (part_offences names.now turns.now fixed) ps.now)) }
{
    for p in ps {
        part(alloc, first, names, turns, fixed, p)?;
    }
    Ok(())
}

#[cycle(parts)]
fn part(
    alloc: Global,
    first: &mut First,
    names: &Names,
    turns: &[Turn],
    fixed: bool,
    e: &Expr,
) -> Result<(), AllocError>
    ensures { OnOk result (Notes first.old first.new (part_offences names.now turns.now fixed e.now)) }
{
    element(first, fixed, e);
    expression(alloc, first, names, turns, fixed, e)?;
    Ok(())
}
