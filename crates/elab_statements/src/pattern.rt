//! Values of case items (IEEE 1364-2005, 9.5 and 9.5.1).

ghost use Rattle.std.specs.Prelude.{◌≡◌, map, IfOk};
ghost use Rattle.elab_names.specs.Constants.{literal_standing};
ghost use Rattle.elab_patterns.specs.Patterns.{none_loose as none_loose_of, loose_bits as loose_bits_of};
ghost use Rattle.flat_tree.specs.declared.expr.FlatExpr.TheVariants as flat;
ghost use Rattle.elab_flat.specs.Numbers.{number_from};
ghost use Rattle.elab_flat.specs.Flat.{flat_expr as flat_expr_of};
ghost use Rattle.elab_statements.specs.Patterns.{pattern as pattern_of, pattern_number as pattern_number_of, loose_pattern as loose_pattern_of, flat_pattern as flat_pattern_of};

use bits_core::Word;
use elab_flat::flat_expr;
use elab_flat::number::literal_number;
use elab_names::constant::Constant;
use elab_names::names::Turn;
use elab_names::scope::Names;
use elab_patterns::{loose_bits, pattern_constant};
use flat_tree::{FlatExpr, Number};
use sqlite_items::Items;
use std::alloc::{AllocError, Global};
use v_tree::{CaseKind, Expr, Literal};
use v_views::Pattern;

/// The number with what a constant says.
fn with_constant(n: Number, c: Option<Constant>) -> Number
    ensures { result ≡ number_from n.place n.is_unsized (literal_standing c) }
{
    match c {
        None => Number {
            place: n.place,
            word: Word::from_low_bits(32, 0),
            signed: false,
            is_unsized: n.is_unsized,
        },
        Some(c) => Number {
            place: n.place,
            word: c.word,
            signed: c.signed,
            is_unsized: n.is_unsized,
        },
    }
}

fn pattern_number(alloc: Global, l: &Literal) -> Result<Number, AllocError>
    ensures { IfOk result (λ n. n ≡ pattern_number_of l.now) }
{
    let c = pattern_constant(alloc, l)?;
    Ok(with_constant(literal_number(l), c))
}

fn counted_pattern(
    alloc: Global,
    names: &Names,
    turns: &[Turn],
    e: &Expr,
) -> Result<Pattern<FlatExpr>, AllocError>
    ensures { IfOk result (λ p. p ≡ pattern_of (flat_expr_of names.now turns.now e.now) none_loose_of) }
{
    let value = flat_expr(alloc, names, turns, e)?;
    Ok(Pattern {
        value,
        loose: Word::from_low_bits(128, 0),
    })
}

fn literal_pattern(alloc: Global, l: &Literal) -> Result<Pattern<FlatExpr>, AllocError>
    ensures { IfOk result (λ p. p ≡ pattern_of (flat.Literal (pattern_number_of l.now)) (loose_bits_of l.now)) }
{
    let number = pattern_number(alloc, l)?;
    let loose = loose_bits(alloc, l)?;
    Ok(Pattern {
        value: FlatExpr::Literal(number),
        loose,
    })
}

fn loose_pattern(
    alloc: Global,
    names: &Names,
    turns: &[Turn],
    e: &Expr,
) -> Result<Pattern<FlatExpr>, AllocError>
    ensures { IfOk result (λ p. p ≡ loose_pattern_of names.now turns.now e.now) }
{
    match e {
        Expr::Literal(l) => {
            let p = literal_pattern(alloc, l)?;
            Ok(p)
        }
        _ => {
            let p = counted_pattern(alloc, names, turns, e)?;
            Ok(p)
        }
    }
}

/// The flat form of a value of a case item, with the bits of it that don't count.
pub fn flat_pattern(
    alloc: Global,
    names: &Names,
    turns: &[Turn],
    kind: CaseKind,
    e: &Expr,
) -> Result<Pattern<FlatExpr>, AllocError>
    ensures { IfOk result (λ p. p ≡ flat_pattern_of names.now turns.now kind e.now) }
{
    match kind {
        CaseKind::Case => {
            let p = counted_pattern(alloc, names, turns, e)?;
            Ok(p)
        }
        CaseKind::Casez => {
            let p = loose_pattern(alloc, names, turns, e)?;
            Ok(p)
        }
    }
}

/// The values of a case item, in order.
pub fn flat_patterns(
    alloc: Global,
    names: &Names,
    turns: &[Turn],
    kind: CaseKind,
    values: &[Expr],
) -> Result<Items<Pattern<FlatExpr>>, AllocError>
    ensures { IfOk result (λ l. l ≡ map (flat_pattern_of names.now turns.now kind) values.now) }
{
    let mut flat = Items::new(alloc);
    for e in values {
        let p = flat_pattern(alloc, names, turns, kind, e)?;
        flat.push(p)?;
    }
    Ok(flat)
}
