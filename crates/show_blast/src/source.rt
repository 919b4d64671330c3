//! Terms and steps that are put together one by one.

ghost use Rattle.std.specs.Prelude.{◌≡◌, ◌<◌, ◌≤◌, length, map, IsTrue};
ghost use Rattle.bits_core.specs.Word.{Word as Worded};
ghost use Rattle.word_eqs.specs.Graph.{FitsNode};

use anyhow::{Context, Result, bail};
use bitblast::{Blasted, blast_if_ordered};
use bits_core::Word;
use std::alloc::{AllocError, Global};
use word_eqs::{Act, GuardedList, Step, TermId, TermNode, Terms, VarId, Words};

/// A few terms and steps.
#[derive(Drop)]
pub struct Source {
    terms: Terms,
    list: GuardedList,
}

/// Whether a node may be the next term.
fn fits(terms: &Terms, node: &TermNode) -> bool
    ensures { IsTrue result → FitsNode terms.now (length terms.now.terms) node.now }
{
    let len = terms.len();
    match *node {
        TermNode::Const(word) => word.width() > 0,
        TermNode::Var(x) => x.0 < terms.vars(),
        TermNode::One(_, a) => a.0 < len,
        TermNode::Two(_, a, b) => {
            a.0 < len && b.0 < len && terms.width_of(b) == terms.width_of(a)
        }
        TermNode::Choose(c, a, b) => {
            c.0 < len
                && a.0 < len
                && b.0 < len
                && terms.width_of(c) == 1
                && terms.width_of(b) == terms.width_of(a)
        }
        TermNode::Resize(a, to, _) => a.0 < len && 0 < to && to <= 128,
        TermNode::Slice(a, high, low) => a.0 < len && low <= high && high < terms.width_of(a),
        TermNode::Join(a, b) => {
            a.0 < len
                && b.0 < len
                && u16::from(terms.width_of(a)) + u16::from(terms.width_of(b)) <= 128
        }
    }
}

/// Whether there is a word for each variable, of its width.
fn words_fit(terms: &Terms, env: &Words) -> bool
    ensures { IsTrue result → map (λ (a : Worded). a.width) env.now ≡ terms.now.vars }
{
    if env.len() != terms.vars() as usize {
        return false;
    }
    for i in 0..terms.vars() {
        if env.as_slice()[i as usize].width() != terms.width_of_var(VarId(i)) {
            return false;
        }
    }
    true
}

/// So many words.
fn blank_words(alloc: Global, count: u32) -> Result<Words, AllocError> {
    let mut words = Words::new(alloc);
    for _ in 0..count {
        words.push(Word::from_low_bits(1, 0))?;
    }
    Ok(words)
}

impl Source {
    /// No terms, no variables and no steps.
    pub fn new(alloc: Global) -> Source {
        Source {
            terms: Terms::new(alloc),
            list: GuardedList::new(alloc),
        }
    }

    /// A new term. It refuses a node whose parts are not there or do not fit.
    pub fn term(&mut self, node: TermNode) -> Result<TermId> {
        if self.terms.len() > 1000 || !fits(&self.terms, &node) {
            bail!("no such term");
        }
        let t = self.terms.add(node)?;
        Ok(t)
    }

    /// A new step, the last so far.
    pub fn step(&mut self, guard: TermId, act: Act) -> Result<()> {
        if self.list.len() > 1000 {
            bail!("too many steps");
        }
        self.list.push(Step { guard, act })?;
        Ok(())
    }

    fn var(&mut self, width: u8) -> Result<VarId> {
        if width == 0 || width > 128 || self.terms.vars() > 1000 {
            bail!("no such width");
        }
        let x = self.terms.var(width)?;
        Ok(x)
    }

    /// A new variable of a width in bits, which is left free.
    pub fn free(&mut self, always: TermId, width: u8) -> Result<VarId> {
        let x = self.var(width)?;
        self.step(always, Act::Free(x))?;
        Ok(x)
    }

    /// A new variable of the width of a term, which is set to it.
    pub fn set(&mut self, always: TermId, t: TermId) -> Result<VarId> {
        if t.0 >= self.terms.len() {
            bail!("no such term");
        }
        let width = self.terms.width_of(t);
        let x = self.var(width)?;
        self.step(always, Act::Set(x, t))?;
        Ok(x)
    }

    /// The width of a variable in bits, and 0 for one that is not there.
    pub fn width_of(&self, x: VarId) -> u8 {
        if x.0 >= self.terms.vars() {
            return 0;
        }
        self.terms.width_of_var(x)
    }

    /// The net of the list. It refuses a list that is not in order.
    pub fn net(&self, alloc: Global) -> Result<Blasted> {
        let made = blast_if_ordered(alloc, &self.terms, &self.list)?;
        made.context("the list is not in order")
    }

    /// The word of a term, by those of the variables.
    pub fn eval(&self, alloc: Global, env: &Words, t: TermId) -> Result<Word> {
        let mut out = blank_words(alloc, self.terms.len())?;
        if !words_fit(&self.terms, env) || out.len() != self.terms.len() as usize {
            bail!("no word for each variable");
        }
        self.terms.eval_into(env, &mut out);
        out.as_slice()
            .get(t.0 as usize)
            .copied()
            .context("no such term")
    }
}
