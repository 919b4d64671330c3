// Terms, and their words.

ghost use Rattle.std.specs.Prelude.{◌≡◌, ℕ, ◌<◌, ◌≤◌, ◌^◌, ◌+◌, [], ◌∷◌, Some, length, map, count_by, slice_get, slice_index, IfOk, OnOk, OnErr};
ghost use Rattle.bits_core.specs.Word.{Word as Worded};
ghost use Rattle.word_eqs.specs.Graph.{graph, width_in, width_of_var, node_at, node_width, FitsNode, IsTermAt, IsGraph, IsTyped, with_var, with_term, Extends, is_no_var, places, MOST_TERMS};
ghost use Rattle.word_eqs.specs.Import.{AreSubs, AreCopies, Copies, IsCopy, moved_node};
ghost use Rattle.word_eqs.specs.Meaning.{Values, Respects, Makes, AreValues, look, word_at as word_of, node_word};
ghost use Rattle.word_eqs.specs.declared.term.Term.{Term as Termed};
ghost use Rattle.word_eqs.specs.Gates.{term_gates, node_gates};

use crate::term::{Term, TermId, TermNode, VarId};
use crate::{TermIds, Words};
use bits_core::Word;
use std::alloc::{AllocError, Global};
use std::marker::Model;

/// Terms over variables: each term's parts stand before it, with widths that fit.
#[derive(Drop)]
pub struct Terms {
    vars: Vec<u8>,
    terms: Vec<Term>,
}

impl Model for Terms {
    ghost use Rattle.word_eqs.specs.Graph.{Graph, graph as graph_of, IsGraph as IsProper};

    ghost Value = { Graph };

    ghost view = { λ t. graph_of t.vars.items t.terms.items };

    ghost invariant = { λ t. IsProper (graph_of t.vars.items t.terms.items) };
}

impl Terms {
    /// No terms and no variables.
    pub fn new(alloc: Global) -> Terms
        ensures { result ≡ graph [] [] }
    {
        Terms {
            vars: Vec::new(alloc),
            terms: Vec::new(alloc),
        }
    }

    /// The number of terms.
    pub fn len(&self) -> u32
        ensures value { result ≡ length self.now.terms }
        ensures proper { IsGraph self.now }
    {
        self.terms.len() as u32
    }

    /// The number of variables.
    pub fn vars(&self) -> u32
        ensures value { result ≡ length self.now.vars }
        ensures proper { IsGraph self.now }
    {
        self.vars.len() as u32
    }

    /// The width of a term, in bits.
    pub fn width_of(&self, id: TermId) -> u8
        requires { id.0 < length self.now.terms }
        ensures width { result ≡ width_in self.now id.0 }
        ensures some { 0 < result }
        ensures within { result ≤ 128 }
    {
        self.term_at(id.0).width
    }

    /// The width of a variable, in bits.
    pub fn width_of_var(&self, id: VarId) -> u8
        requires { id.0 < length self.now.vars }
        ensures width { result ≡ width_of_var self.now id.0 }
        ensures some { 0 < result }
        ensures within { result ≤ 128 }
    {
        self.vars[id.0 as usize]
    }

    /// What a term is.
    pub fn node(&self, id: TermId) -> TermNode
        requires { id.0 < length self.now.terms }
        ensures { node_at self.now id.0 ≡ Some result }
    {
        self.term_at(id.0).node
    }

    /// A new variable of a width. After want of memory all is as before.
    pub fn var(&mut self, width: u8) -> Result<VarId, AllocError>
        requires some { 0 < width }
        requires within { width ≤ 128 }
        requires room { length self.old.vars < MOST_TERMS }
        ensures ok { OnOk result (self.new ≡ with_var self.old width) }
        ensures id { IfOk result (λ x. x.0 ≡ length self.old.vars) }
        ensures grown { OnOk result ((v : Values) → Respects v self.new → Respects v self.old) }
        ensures err { OnErr result (self.new ≡ self.old) }
        ensures proper { IsGraph self.new }
    {
        let id = VarId(self.vars.len() as u32);
        self.vars.push(width)?;
        Ok(id)
    }

    /// A new term. After want of memory all is as before.
    pub fn add(&mut self, node: TermNode) -> Result<TermId, AllocError>
        requires fits { FitsNode self.old (length self.old.terms) node }
        requires room { length self.old.terms < MOST_TERMS }
        ensures ok { OnOk result (self.new ≡ with_term self.old node) }
        ensures id { IfOk result (λ t. t.0 ≡ length self.old.terms) }
        ensures made { IfOk result (λ t. Makes self.old self.new node t.0) }
        ensures typed { IfOk result (λ t. IsTyped self.old self.new (node_width self.old node) t.0) }
        ensures cost { OnOk result (term_gates self.new ≡ term_gates self.old + node_gates self.old node) }
        ensures err { OnErr result (self.new ≡ self.old) }
        ensures proper { IsGraph self.new }
    {
        let width = self.width_of_node(&node);
        let id = TermId(self.terms.len() as u32);
        self.terms.push(Term { node, width })?;
        Ok(id)
    }

    /// The width of a node, by those of its parts.
    fn width_of_node(&self, node: &TermNode) -> u8
        requires { FitsNode self.now (length self.now.terms) node.now }
        ensures width { result ≡ node_width self.now node.now }
        ensures some { 0 < result }
        ensures within { result ≤ 128 }
    {
        let _ = &self.vars;
        match *node {
            TermNode::Const(word) => word.width(),
            TermNode::Var(x) => self.width_of_var(x),
            TermNode::One(op, a) => op.width(self.width_of(a)),
            TermNode::Two(op, a, _) => op.width(self.width_of(a)),
            TermNode::Choose(_, a, _) => self.width_of(a),
            TermNode::Resize(_, to, _) => to,
            TermNode::Slice(_, high, low) => high - low + 1,
            TermNode::Join(a, b) => self.width_of(a) + self.width_of(b),
        }
    }

    /// The term at a place.
    fn term_at(&self, k: u32) -> Term
        requires { k < length self.now.terms }
        ensures at { slice_get self.now.terms k ≡ Some result }
        ensures fits { IsTermAt self.now k result }
    {
        self.terms[k as usize]
    }

    /// Puts the word of each term into `out`, by a word for each variable. It takes no memory, and time
    /// linear in the number of terms.
    pub fn eval_into(&self, env: &Words, out: &mut Words)
        requires words { map (λ (a : Worded). a.width) env.now ≡ self.now.vars }
        requires room { length out.old ≡ length self.now.terms }
        ensures len { length out.new ≡ length out.old }
        ensures values { AreValues (look (word_of env.now) out.new) self.now.terms }
    {
        for k in 0..self.len() {
            let word = self.eval_at(k, env, out);
            out.set(k as usize, word);
        }
    }

    /// The word of the term at a place, by those of the variables and of the terms before it.
    fn eval_at(&self, k: u32, env: &Words, words: &Words) -> Word
        requires within { k < length self.now.terms }
        requires there { k ≤ length words.now }
        requires widths { (j : ℕ) → j < k → (word_of words.now j).width ≡ width_in self.now j }
        requires vars { map (λ (a : Worded). a.width) env.now ≡ self.now.vars }
        ensures { (x : Termed) → slice_get self.now.terms k ≡ Some x → result ≡ node_word (look (word_of env.now) words.now) x.node }
    {
        let node = self.term_at(k).node;
        match node {
            TermNode::Const(word) => word,
            TermNode::Var(x) => word_at(env, x.0),
            TermNode::One(op, a) => word_at(words, a.0).apply1(op),
            TermNode::Two(op, a, b) => {
                let left = word_at(words, a.0);
                let right = word_at(words, b.0);
                left.apply2(op, right)
            }
            TermNode::Choose(c, a, b) => {
                if word_at(words, c.0).value() == 0 {
                    word_at(words, b.0)
                } else {
                    word_at(words, a.0)
                }
            }
            TermNode::Resize(a, to, signed) => word_at(words, a.0).resize(to, signed),
            TermNode::Slice(a, high, low) => word_at(words, a.0).slice(high, low),
            TermNode::Join(a, b) => {
                let left = word_at(words, a.0);
                let right = word_at(words, b.0);
                left.join(right)
            }
        }
    }

    /// Copies of the terms of another graph, with the terms of `map` put in for its variables. Gives the
    /// copy of each term, in order. After want of memory all is as before.
    pub fn import(&mut self, from: &Terms, map: &TermIds) -> Result<TermIds, AllocError>
        requires subs { AreSubs self.old from.now (places map.now) }
        requires room { length self.old.terms + count_by is_no_var from.now.terms ≤ MOST_TERMS }
        ensures extends { OnOk result (Extends self.old self.new) }
        ensures vars { OnOk result (self.new.vars ≡ self.old.vars) }
        ensures copied { IfOk result (λ ids. Copies self.old self.new from.now (places map.now) (places ids)) }
        ensures typed { IfOk result (λ ids. AreCopies self.new from.now (places ids) (length from.now.terms)) }
        ensures count { OnOk result (length self.new.terms ≤ length self.old.terms + count_by is_no_var from.now.terms) }
        ensures cost { OnOk result (term_gates self.new ≤ term_gates self.old + term_gates from.now) }
        ensures err { OnErr result (self.new ≡ self.old) }
        ensures proper { IsGraph self.new }
    {
        let len = self.terms.len();
        match self.import_terms(from, map) {
            Ok(ids) => Ok(ids),
            Err(e) => {
                self.terms.truncate(len);
                Err(e)
            }
        }
    }

    /// The same, where what was added stays after want of memory.
    fn import_terms(&mut self, from: &Terms, map: &TermIds) -> Result<TermIds, AllocError>
        requires subs { AreSubs self.old from.now (places map.now) }
        requires room { length self.old.terms + count_by is_no_var from.now.terms ≤ MOST_TERMS }
        ensures extends { Extends self.old self.new }
        ensures vars { self.new.vars ≡ self.old.vars }
        ensures copied { IfOk result (λ ids. Copies self.old self.new from.now (places map.now) (places ids)) }
        ensures typed { IfOk result (λ ids. AreCopies self.new from.now (places ids) (length from.now.terms)) }
        ensures count { OnOk result (length self.new.terms ≤ length self.old.terms + count_by is_no_var from.now.terms) }
        ensures cost { OnOk result (term_gates self.new ≤ term_gates self.old + term_gates from.now) }
        ensures proper { IsGraph self.new }
    {
        let mut ids = TermIds::new(*self.terms.allocator());
        for k in 0..from.len() {
            let id = self.import_at(from, map, &ids, k)?;
            ids.push(id)?;
        }
        Ok(ids)
    }

    /// The copy of the term at a place, where those before it have copies.
    fn import_at(
        &mut self,
        from: &Terms,
        map: &TermIds,
        ids: &TermIds,
        k: u32,
    ) -> Result<TermId, AllocError>
        requires within { k < length from.now.terms }
        requires subs { AreSubs self.old from.now (places map.now) }
        requires copies { AreCopies self.old from.now (places ids.now) k }
        requires room { (x : Termed) → slice_get from.now.terms k ≡ Some x → length self.old.terms + count_by is_no_var (x ∷ []) ≤ MOST_TERMS }
        ensures copy { IfOk result (λ t. (x : Termed) → slice_get from.now.terms k ≡ Some x → IsCopy self.old self.new from.now (places map.now) (places ids.now) x t.0) }
        ensures err { OnErr result (self.new ≡ self.old) }
    {
        let _ = &self.vars;
        match from.term_at(k).node {
            TermNode::Var(x) => Ok(id_at(map, x.0)),
            _ => {
                let id = self.add(from.moved(k, ids))?;
                Ok(id)
            }
        }
    }

    /// The node at a place, with other terms for its parts.
    fn moved(&self, k: u32, ids: &TermIds) -> TermNode
        requires within { k < length self.now.terms }
        requires there { k ≤ length ids.now }
        ensures { (x : Termed) → slice_get self.now.terms k ≡ Some x → result ≡ moved_node (places ids.now) x.node }
    {
        let node = self.term_at(k).node;
        match node {
            TermNode::Const(_) | TermNode::Var(_) => node,
            TermNode::One(op, a) => TermNode::One(op, id_at(ids, a.0)),
            TermNode::Two(op, a, b) => TermNode::Two(op, id_at(ids, a.0), id_at(ids, b.0)),
            TermNode::Choose(c, a, b) => TermNode::Choose(
                id_at(ids, c.0),
                id_at(ids, a.0),
                id_at(ids, b.0),
            ),
            TermNode::Resize(a, to, signed) => TermNode::Resize(id_at(ids, a.0), to, signed),
            TermNode::Slice(a, high, low) => TermNode::Slice(id_at(ids, a.0), high, low),
            TermNode::Join(a, b) => TermNode::Join(id_at(ids, a.0), id_at(ids, b.0)),
        }
    }
}

/// The word at a place.
fn word_at(words: &Words, at: u32) -> Word
    requires { at < length words.now }
    ensures { result ≡ word_of words.now at }
{
    words.as_slice()[at as usize]
}

/// The term that a list names at a place.
fn id_at(ids: &TermIds, at: u32) -> TermId
    requires { at < length ids.now }
    ensures { result.0 ≡ slice_index (places ids.now) at }
{
    ids.as_slice()[at as usize]
}
