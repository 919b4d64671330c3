//! Constant expressions of C (C99 6.6): array lengths, labels of a `switch`, and initializers at file scope.
//!
//! Evaluates nothing itself: an expression is typed as any other, and the stepper's evaluation gives its value.
#![tactic(auto)]

pub mod places;

ghost use Rattle.std.specs.Prelude.{◌≡◌, IfOk};
ghost use Rattle.joint_ir.specs.Values.{value_of};
ghost use Rattle.joint_value.specs.Answers.{answer_of};
ghost use Rattle.joint_value.specs.Evaluable.{IsEvaluable};
ghost use Rattle.c_meaning.specs.Sound.{AreBytes};
ghost use Rattle.c_constants.specs.Holding.{Holds};
ghost use Rattle.c_constants.specs.Constants.{no_rows, answered, evaluated as evaluated_of, constant_of, never_offences, told, IsConstant};

use c_expressions::expressions::expression;
use c_names::scope::Scopes;
use c_tree::Expression;
use c_words::Notes;
use joint_ir::{PropId, TExpr};
use joint_value::{Rows, Store, value};
use sqlite_items::Items;
use src_text::{Kind, Place};
use std::alloc::{AllocError, Global};

/// What an expression is that must be constant.
#[derive(Clone, Copy, Debug, PartialEq, Eq)]
pub enum Constant {
    /// A number.
    Is(i128),
    /// Nothing, since it holds a path, or breaks a check when it is evaluated.
    Never,
    /// Nothing that is known, since something else is wrong in it.
    Undefined,
}

/// Whether an expression holds a path.
#[cycle(holding)]
fn holds_path(e: &Expression) -> bool
    ensures { Holds e.now result }
{
    match e {
        Expression::Integer(_, _) => false,
        Expression::Character(_, byte) => {
            let _byte = *byte;
            false
        }
        Expression::True(_) | Expression::False(_) => false,
        Expression::Read(_) => true,
        Expression::Parentheses(_, a) => holds_path(a.get()),
        Expression::Unary(_, a) => holds_path(a.get()),
        Expression::Cast(_, _, a) => holds_path(a.get()),
        Expression::Binary(a, _, b) => {
            if holds_path(a.get()) {
                return true;
            }
            holds_path(b.get())
        }
        Expression::Conditional(c, _, a, b) => {
            if holds_path(c.get()) {
                return true;
            }
            if holds_path(a.get()) {
                return true;
            }
            holds_path(b.get())
        }
    }
}

fn answer_given(outcome: Result<i128, PropId>) -> Constant
    ensures { result ≡ answered (answer_of outcome) }
{
    match outcome {
        Ok(n) => Constant::Is(n),
        Err(_) => Constant::Never,
    }
}

/// The value of an expression over no objects, as a constant.
fn answer(alloc: Global, typed: &TExpr) -> Constant
    requires { IsEvaluable no_rows typed.now }
    ensures { result ≡ answered (value_of no_rows typed.now) }
{
    let store = Store::new(Rows::new(alloc), Rows::new(alloc), Rows::new(alloc));
    let outcome = value(0, &store, typed);
    answer_given(outcome)
}

/// The value of an expression that holds no path.
fn evaluated(alloc: Global, e: &Expression) -> Result<Constant, AllocError>
    requires { AreBytes e.now }
    ensures { IfOk result (λ c. c ≡ evaluated_of e.now) }
{
    let scopes = Scopes::new(alloc);
    let mut notes = Notes::new(alloc);
    let typed = expression(alloc, &scopes, &mut notes, e)?;
    if notes.first.is_some() {
        return Ok(Constant::Undefined);
    }
    if notes.sites.len() > 4294967296 {
        return Ok(Constant::Never);
    }
    Ok(answer(alloc, &typed))
}

/// What a constant expression is. Want of memory is the only error.
pub fn constant_value(alloc: Global, e: &Expression) -> Result<Constant, AllocError>
    ensures { IfOk result (λ c. c ≡ constant_of e.now) }
{
    if holds_path(e) {
        Ok(Constant::Never)
    } else {
        let c = evaluated(alloc, e)?;
        Ok(c)
    }
}

fn note_never(notes: &mut Notes, place: Place, c: Constant)
    ensures { notes.new ≡ told notes.old (never_offences place c) }
{
    match c {
        Constant::Never => notes.offence(place, Kind::CConstant),
        _ => {}
    }
}

/// What a constant expression is, with what is wrong in it noted, and at a place that it isn't constant. It has no
/// properties. Want of memory is the only error.
pub fn constant_in(
    alloc: Global,
    scopes: &Scopes,
    notes: &mut Notes,
    place: Place,
    e: &Expression,
) -> Result<Constant, AllocError>
    ensures { IfOk result (λ c. IsConstant scopes.now notes.old notes.new place e.now c) }
{
    let mut scratch = Notes {
        first: notes.first,
        sites: Items::new(alloc),
    };
    let _typed = expression(alloc, scopes, &mut scratch, e)?;
    notes.first = scratch.first;
    let c = constant_value(alloc, e)?;
    note_never(notes, place, c);
    Ok(c)
}
