// Terms that are added where they fit.

ghost use Rattle.std.specs.Prelude.{◌≡◌, ◌+◌, ◌≤◌, ◌<◌, None, IsTrue, IfSome, IfOk, OnErr, length};
ghost use Rattle.word_eqs.specs.Graph.{FitsNode, width_in, with_term};

use std::alloc::AllocError;
use word_eqs::{MOST_TERMS, TermId, TermNode, Terms};

/// Whether a term is there, of one bit.
fn is_bit(terms: &Terms, c: TermId) -> bool
    ensures there { IsTrue result → c.0 < length terms.now.terms }
    ensures bit { IsTrue result → width_in terms.now c.0 ≡ 1 }
{
    c.0 < terms.len() && terms.width_of(c) == 1
}

/// Whether two terms are there, of one width.
fn are_alike(terms: &Terms, a: TermId, b: TermId) -> bool
    ensures first { IsTrue result → a.0 < length terms.now.terms }
    ensures second { IsTrue result → b.0 < length terms.now.terms }
    ensures width { IsTrue result → width_in terms.now b.0 ≡ width_in terms.now a.0 }
{
    a.0 < terms.len() && b.0 < terms.len() && terms.width_of(b) == terms.width_of(a)
}

/// Whether bits of a term are there.
fn is_part(terms: &Terms, a: TermId, high: u8, low: u8) -> bool
    ensures there { IsTrue result → a.0 < length terms.now.terms }
    ensures order { IsTrue result → low ≤ high }
    ensures within { IsTrue result → high < width_in terms.now a.0 }
{
    a.0 < terms.len() && low <= high && high < terms.width_of(a)
}

/// Whether two terms are there, of 128 bits at most together.
fn are_joined(terms: &Terms, a: TermId, b: TermId) -> bool
    ensures first { IsTrue result → a.0 < length terms.now.terms }
    ensures second { IsTrue result → b.0 < length terms.now.terms }
    ensures within { IsTrue result → width_in terms.now a.0 + width_in terms.now b.0 ≤ 128 }
{
    a.0 < terms.len()
        && b.0 < terms.len()
        && terms.width_of(a) as u32 + terms.width_of(b) as u32 <= 128
}

/// Whether a node's parts are there, with widths that fit.
fn fits(terms: &Terms, node: &TermNode) -> bool
    ensures { IsTrue result → FitsNode terms.now (length terms.now.terms) node.now }
{
    match *node {
        TermNode::Const(word) => 0 < word.width(),
        TermNode::Var(x) => x.0 < terms.vars(),
        TermNode::One(_, a) => a.0 < terms.len(),
        TermNode::Two(_, a, b) => are_alike(terms, a, b),
        TermNode::Choose(c, a, b) => is_bit(terms, c) && are_alike(terms, a, b),
        TermNode::Resize(a, to, _) => a.0 < terms.len() && 0 < to && to <= 128,
        TermNode::Slice(a, high, low) => is_part(terms, a, high, low),
        TermNode::Join(a, b) => are_joined(terms, a, b),
    }
}

/// A new term, where its parts are there with widths that fit, and there is room for it. Else all is as before, as after want of
/// memory.
pub fn add_term(terms: &mut Terms, node: TermNode) -> Result<Option<TermId>, AllocError>
    ensures added { IfOk result (λ t. IfSome t (λ id. terms.new ≡ with_term terms.old node)) }
    ensures left { IfOk result (λ t. t ≡ None → terms.new ≡ terms.old) }
    ensures err { OnErr result (terms.new ≡ terms.old) }
{
    if fits(terms, &node) && terms.len() < MOST_TERMS {
        let t = terms.add(node)?;
        Ok(Some(t))
    } else {
        Ok(None)
    }
}
