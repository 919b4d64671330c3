//! The walk over an expression.

ghost use Rattle.std.specs.Prelude.{length, IfOk};
ghost use Rattle.flat_values.specs.Fits.{shapes_of};
ghost use Rattle.row_terms.specs.Rows.{AreJoined};
ghost use Rattle.sized_expressions.specs.Rows.{MayJoin};
ghost use Rattle.sized_expressions.specs.Sized.{MaySize, IsTermOf, world_in};
ghost use Rattle.word_eqs.specs.Graph.{IsGraph};

use crate::leaves::{number, word_at};
use crate::operators::{operated, site_of};
use crate::selects::{select, select_number};
use flat_tree::{FlatExpr, FlatSignal};
use flat_values::{LengthSign, own};
use operand_contexts::{contexts, unary, unary_context};
use operator_terms::branch;
use row_terms::{beside, copies};
use std::alloc::AllocError;
use term_steps::resize;
use word_eqs::{TermId, Terms};

/// The term of an expression at a width and a sign that are handed down. `words` has the terms of the words of all signals, each
/// signal's from its start on; the numbers of the sites are new variables, in the order of the text. Selects by an index aren't
/// made yet: they end as want of memory does.
#[cycle(sizing)]
pub fn size(
    terms: &mut Terms,
    signals: &[FlatSignal],
    starts: &[u32],
    words: &[TermId],
    e: &FlatExpr,
    at: LengthSign,
) -> Result<TermId, AllocError>
    requires { MaySize signals.now starts.now words.now terms.old e.now at.length }
    ensures { IfOk result (λ t. IsTermOf signals.now starts.now words.now e.now at.length at.signed terms.old terms.new t.0) }
{
    match e {
        FlatExpr::Literal(n) => {
            let t = number(terms, n.word, at)?;
            Ok(t)
        }
        FlatExpr::Signal(_, g) => {
            let x = word_at(starts, words, *g, 0);
            let t = resize(terms, x, at.length, at.signed)?;
            Ok(t)
        }
        FlatExpr::Select(_, g, s) => {
            let t = select(terms, signals, starts, words, *g, s, at)?;
            Ok(t)
        }
        FlatExpr::SelectNumber(_, c, low, s) => {
            let t = select_number(terms, signals, starts, words, *c, *low, s, at)?;
            Ok(t)
        }
        FlatExpr::Unary(operator, a) => {
            let a = a.get();
            let stand = unary_context(operator.op, at, own(signals, a));
            let x = size(terms, signals, starts, words, a, stand)?;
            let t = unary(terms, operator.op, x, at)?;
            Ok(t)
        }
        FlatExpr::Binary(a, operator, b) => {
            let a = a.get();
            let b = b.get();
            let stand = contexts(signals, operator.op, a, b, at);
            let x = size(terms, signals, starts, words, a, stand.left)?;
            let n = site_of(terms, operator.op, at.length, x)?;
            let y = size(terms, signals, starts, words, b, stand.right)?;
            let t = operated(terms, operator.op, stand.left.signed, x, n, y, at)?;
            Ok(t)
        }
        FlatExpr::Conditional(c, a, b) => {
            let c = c.get();
            let a = a.get();
            let b = b.get();
            let test = size(terms, signals, starts, words, c, own(signals, c))?;
            let x = size(terms, signals, starts, words, a, at)?;
            let y = size(terms, signals, starts, words, b, at)?;
            let t = branch(terms, test, x, y)?;
            Ok(t)
        }
        FlatExpr::Parentheses(_, a) => {
            let a = a.get();
            let t = size(terms, signals, starts, words, a, at)?;
            Ok(t)
        }
        FlatExpr::Concatenation(_, parts) => {
            let x = row(terms, signals, starts, words, parts.as_slice())?;
            let t = resize(terms, x, at.length, at.signed)?;
            Ok(t)
        }
        FlatExpr::Replication(_, c, parts) => {
            let x = row(terms, signals, starts, words, parts.as_slice())?;
            let _ = terms.len();
            let y = copies(terms, x, *c)?;
            let t = resize(terms, y, at.length, at.signed)?;
            Ok(t)
        }
        FlatExpr::Signed(_, a) => {
            let a = a.get();
            let x = size(terms, signals, starts, words, a, own(signals, a))?;
            let t = resize(terms, x, at.length, at.signed)?;
            Ok(t)
        }
        FlatExpr::Unsigned(_, a) => {
            let a = a.get();
            let x = size(terms, signals, starts, words, a, own(signals, a))?;
            let t = resize(terms, x, at.length, at.signed)?;
            Ok(t)
        }
    }
}

/// The term of parts side by side, the first on the left.
#[cycle(sizing)]
fn row(
    terms: &mut Terms,
    signals: &[FlatSignal],
    starts: &[u32],
    words: &[TermId],
    parts: &[FlatExpr],
) -> Result<TermId, AllocError>
    requires { MayJoin signals.now starts.now words.now terms.old parts.now }
    ensures { IfOk result (λ t. AreJoined (shapes_of signals.now) (world_in starts.now words.now) parts.now terms.old terms.new t.0) }
{
    let mut sofar: Option<TermId> = None;
    for e in parts {
        let x = size(terms, signals, starts, words, e, own(signals, e))?;
        let _ = terms.len();
        let t = beside(terms, sofar, x)?;
        sofar = Some(t);
    }
    match sofar {
        Some(t) => Ok(t),
        None => Err(AllocError),
    }
}
