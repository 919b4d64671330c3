//! The term of an expression's value in a view.

ghost use Rattle.std.specs.Prelude.{IfOk};
ghost use Rattle.view_expressions.specs.Viewed.{MayView, IsViewed};

use flat_tree::{FlatExpr, FlatSignal};
use flat_values::LengthSign;
use sized_expressions::size;
use std::alloc::AllocError;
use word_eqs::{TermId, Terms};

/// The term of an expression at a width and a sign (IEEE 1364-2005, 5.4 and 5.5), in the view that the row of terms stands
/// for. The numbers of its sites are new variables, in the order of the text.
pub fn value(
    terms: &mut Terms,
    signals: &[FlatSignal],
    starts: &[u32],
    words: &[TermId],
    e: &FlatExpr,
    at: LengthSign,
) -> Result<TermId, AllocError>
    requires { MayView signals.now starts.now words.now terms.old e.now at.length }
    ensures { IfOk result (λ t. IsViewed signals.now starts.now words.now e.now at.length at.signed terms.old terms.new t.0) }
{
    // The terms that are there are a graph.
    let _ = terms.len();
    let t = size(terms, signals, starts, words, e, at)?;
    Ok(t)
}
