//! Expressions.

ghost use Rattle.std.specs.Prelude.{◌≡◌, ◌≤◌, map, IfOk};
ghost use Rattle.flat_tree.specs.declared.expr.FlatExpr.TheVariants as flat;
ghost use Rattle.flat_tree.specs.declared.expr.FlatSelection.TheVariants as part;
ghost use Rattle.elab_flat.specs.Flat.{known as known_of, flat_expr as flat_expr_of, flat_selection as flat_selection_of};

use crate::number::{flat_name, flat_select, literal_number, number_up_to};
use elab_names::measure::constant_of;
use elab_names::names::Turn;
use elab_names::scope::Names;
use elab_names::select::number_of;
use flat_tree::{FlatExpr, FlatSelection};
use sqlite_items::{Boxed, Items};
use src_text::Place;
use std::alloc::{AllocError, Global};
use v_tree::{BinaryOperator, Expr, Selection, UnaryOperator};

fn unary(alloc: Global, o: UnaryOperator, p: FlatExpr) -> Result<FlatExpr, AllocError>
    ensures { IfOk result (λ e. e ≡ flat.Unary o p) }
{
    Ok(FlatExpr::Unary(o, Boxed::new(alloc, p)?))
}

fn binary(
    alloc: Global,
    p: FlatExpr,
    o: BinaryOperator,
    q: FlatExpr,
) -> Result<FlatExpr, AllocError>
    ensures { IfOk result (λ e. e ≡ flat.Binary p o q) }
{
    Ok(FlatExpr::Binary(Boxed::new(alloc, p)?, o, Boxed::new(alloc, q)?))
}

fn conditional(alloc: Global, c: FlatExpr, p: FlatExpr, q: FlatExpr) -> Result<FlatExpr, AllocError>
    ensures { IfOk result (λ e. e ≡ flat.Conditional c p q) }
{
    Ok(FlatExpr::Conditional(
        Boxed::new(alloc, c)?,
        Boxed::new(alloc, p)?,
        Boxed::new(alloc, q)?,
    ))
}

fn parentheses(alloc: Global, place: Place, p: FlatExpr) -> Result<FlatExpr, AllocError>
    ensures { IfOk result (λ e. e ≡ flat.Parentheses place p) }
{
    Ok(FlatExpr::Parentheses(place, Boxed::new(alloc, p)?))
}

fn signed(alloc: Global, place: Place, p: FlatExpr) -> Result<FlatExpr, AllocError>
    ensures { IfOk result (λ e. e ≡ flat.Signed place p) }
{
    Ok(FlatExpr::Signed(place, Boxed::new(alloc, p)?))
}

fn unsigned(alloc: Global, place: Place, p: FlatExpr) -> Result<FlatExpr, AllocError>
    ensures { IfOk result (λ e. e ≡ flat.Unsigned place p) }
{
    Ok(FlatExpr::Unsigned(place, Boxed::new(alloc, p)?))
}

fn bit(alloc: Global, i: FlatExpr) -> Result<FlatSelection, AllocError>
    ensures { IfOk result (λ s. s ≡ part.Bit i) }
{
    Ok(FlatSelection::Bit(Boxed::new(alloc, i)?))
}

fn up(alloc: Global, b: FlatExpr, width: u8) -> Result<FlatSelection, AllocError>
    ensures { IfOk result (λ s. s ≡ part.Up b width) }
{
    Ok(FlatSelection::Up(Boxed::new(alloc, b)?, width))
}

fn down(alloc: Global, b: FlatExpr, width: u8) -> Result<FlatSelection, AllocError>
    ensures { IfOk result (λ s. s ≡ part.Down b width) }
{
    Ok(FlatSelection::Down(Boxed::new(alloc, b)?, width))
}

/// The value of an expression that must be constant, up to a greatest one.
pub fn known(
    alloc: Global,
    names: &Names,
    turns: &[Turn],
    most: u32,
    e: &Expr,
) -> Result<u32, AllocError>
    ensures value { IfOk result (λ n. n ≡ known_of names.now turns.now most e.now) }
    ensures most { IfOk result (λ n. n ≤ most) }
{
    let s = constant_of(alloc, names, turns, e)?;
    Ok(number_up_to(most, number_of(s)))
}

/// The flat form of an expression.
#[cycle(parts)]
pub fn flat_expr(
    alloc: Global,
    names: &Names,
    turns: &[Turn],
    e: &Expr,
) -> Result<FlatExpr, AllocError>
    ensures { IfOk result (λ f. f ≡ flat_expr_of names.now turns.now e.now) }
{
    match e {
        Expr::Literal(l) => Ok(FlatExpr::Literal(literal_number(l))),
        Expr::Name(x) => Ok(flat_name(turns, x.place, &names.find(&x.name))),
        Expr::Select(x, s) => {
            let s = flat_selection(alloc, names, turns, s.get())?;
            Ok(flat_select(turns, x.place, &names.find(&x.name), s))
        }
        Expr::Unary(operator, p) => {
            let p = flat_expr(alloc, names, turns, p.get())?;
            let f = unary(alloc, *operator, p)?;
            Ok(f)
        }
        Expr::Binary(p, operator, q) => {
            let p = flat_expr(alloc, names, turns, p.get())?;
            let q = flat_expr(alloc, names, turns, q.get())?;
            let f = binary(alloc, p, *operator, q)?;
            Ok(f)
        }
        Expr::Conditional(c, p, q) => {
            let c = flat_expr(alloc, names, turns, c.get())?;
            let p = flat_expr(alloc, names, turns, p.get())?;
            let q = flat_expr(alloc, names, turns, q.get())?;
            let f = conditional(alloc, c, p, q)?;
            Ok(f)
        }
        Expr::Parentheses(place, p) => {
            let p = flat_expr(alloc, names, turns, p.get())?;
            let f = parentheses(alloc, *place, p)?;
            Ok(f)
        }
        Expr::Concatenation(place, parts) => {
            let parts = flat_parts(alloc, names, turns, parts.as_slice())?;
            Ok(FlatExpr::Concatenation(*place, parts))
        }
        Expr::Replication(place, count, parts) => {
            let n = known(alloc, names, turns, 128, count.get())?;
            let parts = flat_parts(alloc, names, turns, parts.as_slice())?;
            Ok(FlatExpr::Replication(*place, n as u8, parts))
        }
        Expr::Signed(place, p) => {
            let p = flat_expr(alloc, names, turns, p.get())?;
            let f = signed(alloc, *place, p)?;
            Ok(f)
        }
        Expr::Unsigned(place, p) => {
            let p = flat_expr(alloc, names, turns, p.get())?;
            let f = unsigned(alloc, *place, p)?;
            Ok(f)
        }
    }
}

#[cycle(parts)]
fn flat_parts(
    alloc: Global,
    names: &Names,
    turns: &[Turn],
    parts: &[Expr],
) -> Result<Items<FlatExpr>, AllocError>
    ensures { IfOk result (λ f. f ≡ map (flat_expr_of names.now turns.now) parts.now) }
{
    let mut flat = Items::new(alloc);
    for p in parts {
        let f = flat_expr(alloc, names, turns, p)?;
        flat.push(f)?;
    }
    Ok(flat)
}

/// The flat form of a selection that is read.
#[cycle(parts)]
fn flat_selection(
    alloc: Global,
    names: &Names,
    turns: &[Turn],
    s: &Selection,
) -> Result<FlatSelection, AllocError>
    ensures { IfOk result (λ f. f ≡ flat_selection_of names.now turns.now s.now) }
{
    match s {
        Selection::Index(i) => {
            let i = flat_expr(alloc, names, turns, i.get())?;
            let f = bit(alloc, i)?;
            Ok(f)
        }
        Selection::Range(h, l) => {
            let h = known(alloc, names, turns, 4_294_967_295, h.get())?;
            let l = known(alloc, names, turns, 4_294_967_295, l.get())?;
            Ok(FlatSelection::Part(h, l))
        }
        Selection::Up(b, w) => {
            let b = flat_expr(alloc, names, turns, b.get())?;
            let w = known(alloc, names, turns, 64, w.get())?;
            let f = up(alloc, b, w as u8)?;
            Ok(f)
        }
        Selection::Down(b, w) => {
            let b = flat_expr(alloc, names, turns, b.get())?;
            let w = known(alloc, names, turns, 64, w.get())?;
            let f = down(alloc, b, w as u8)?;
            Ok(f)
        }
    }
}
