//! Terms and steps that are put together one by one.

ghost use Rattle.std.specs.Prelude.{length, IsTrue};
ghost use Rattle.word_eqs.specs.Graph.{FitsNode};

use anyhow::{Context, Result, bail};
use bitblast::{Blasted, blast_if_ordered};
use std::alloc::Global;
use word_eqs::{Act, GuardedList, Step, TermId, TermNode, Terms};

/// A few terms and steps.
#[derive(Drop)]
pub struct Source {
    terms: Terms,
    list: GuardedList,
}

/// Whether a node may be the next term: of those kinds that the lists have.
fn fits(terms: &Terms, node: &TermNode) -> bool
    ensures { IsTrue result → FitsNode terms.now (length terms.now.terms) node.now }
{
    let len = terms.len();
    match *node {
        TermNode::Const(word) => word.width() > 0,
        TermNode::Var(x) => x.0 < terms.vars(),
        TermNode::One(_, a) => a.0 < len,
        TermNode::Two(_, a, b) => {
            a.0 < len && b.0 < len && terms.width_of(b) == terms.width_of(a)
        }
        _ => false,
    }
}

impl Source {
    /// No terms, no variables and no steps.
    pub fn new(alloc: Global) -> Source {
        Source {
            terms: Terms::new(alloc),
            list: GuardedList::new(alloc),
        }
    }

    /// A new term. It refuses a node whose parts are not there or do not fit.
    pub fn term(&mut self, node: TermNode) -> Result<TermId> {
        if self.terms.len() > 1000 || !fits(&self.terms, &node) {
            bail!("no such term");
        }
        let t = self.terms.add(node)?;
        Ok(t)
    }

    /// A new step, the last so far.
    pub fn step(&mut self, guard: TermId, act: Act) -> Result<()> {
        if self.list.len() > 1000 {
            bail!("too many steps");
        }
        self.list.push(Step { guard, act })?;
        Ok(())
    }

    /// A new variable of a width in bits, which is left free, as a term.
    pub fn free(&mut self, always: TermId, width: u8) -> Result<TermId> {
        if width == 0 || width > 128 || self.terms.vars() > 1000 {
            bail!("no such width");
        }
        let x = self.terms.var(width)?;
        self.step(always, Act::Free(x))?;
        self.term(TermNode::Var(x))
    }

    /// The net of the list. It refuses a list that is not in order.
    pub fn net(&self, alloc: Global) -> Result<Blasted> {
        let made = blast_if_ordered(alloc, &self.terms, &self.list)?;
        made.context("the list is not in order")
    }
}
