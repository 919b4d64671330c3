//! Values of case items (IEEE 1364-2005, 9.5 and 9.5.1).

ghost use Rattle.std.specs.Prelude.{◌≡◌, flat_map, OnOk};
ghost use Rattle.elab_offences.specs.Noted.{Notes};
ghost use Rattle.elab_offences.specs.Rules.{literal_fault};
ghost use Rattle.elab_patterns.specs.Patterns.{pattern_constant as pattern_constant_of};
ghost use Rattle.v_tree.specs.Starts.{literal_start as literal_start_of};
ghost use Rattle.elab_statement_offences.specs.Cases.{loose_offences, pattern_offences};

use elab_names::constant::Constant;
use elab_names::names::Turn;
use elab_names::scope::Names;
use elab_offences::expression;
use elab_patterns::pattern_constant;
use offence_order::First;
use src_text::{Kind, Place};
use std::alloc::{AllocError, Global};
use v_starts::literal_start;
use v_tree::{CaseKind, Expr, Literal};

fn fault(first: &mut First, place: Place, c: Option<Constant>)
    ensures { Notes first.old first.new (literal_fault place c) }
{
    match c {
        None => first.note(place, Kind::VLiteral),
        Some(_) => {}
    }
}

fn loose_literal(alloc: Global, first: &mut First, l: &Literal) -> Result<(), AllocError>
    ensures { OnOk result (Notes first.old first.new (literal_fault (literal_start_of l.now) (pattern_constant_of l.now))) }
{
    let c = pattern_constant(alloc, l)?;
    fault(first, literal_start(l), c);
    Ok(())
}

fn loose(
    alloc: Global,
    first: &mut First,
    names: &Names,
    turns: &[Turn],
    e: &Expr,
) -> Result<(), AllocError>
    ensures { OnOk result (Notes first.old first.new (loose_offences names.now turns.now e.now)) }
{
    match e {
        Expr::Literal(l) => {
            loose_literal(alloc, first, l)?;
            Ok(())
        }
        _ => {
            expression(alloc, first, names, turns, false, e)?;
            Ok(())
        }
    }
}

/// What is wrong with a value of a case item.
pub fn pattern(
    alloc: Global,
    first: &mut First,
    names: &Names,
    turns: &[Turn],
    kind: CaseKind,
    e: &Expr,
) -> Result<(), AllocError>
    ensures { OnOk result (Notes first.old first.new (pattern_offences names.now turns.now kind e.now)) }
{
    match kind {
        CaseKind::Case => {
            expression(alloc, first, names, turns, false, e)?;
            Ok(())
        }
        CaseKind::Casez => {
            loose(alloc, first, names, turns, e)?;
            Ok(())
        }
    }
}

/// What is wrong with the values of a case item.
pub fn patterns(
    alloc: Global,
    first: &mut First,
    names: &Names,
    turns: &[Turn],
    kind: CaseKind,
    values: &[Expr],
) -> Result<(), AllocError>
    ensures { OnOk result (Notes first.old first.new (flat_map (pattern_offences names.now turns.now kind) values.now)) }
{
    for e in values {
        pattern(alloc, first, names, turns, kind, e)?;
    }
    Ok(())
}
