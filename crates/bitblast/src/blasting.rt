//! A guarded list over terms as a net.

ghost use Rattle.std.specs.Prelude.{◌≡◌, ◌+◌, ◌<◌, ◌≤◌, ◌^◌, ◌∷◌, [], ℕ, Bool, ◌||◌, ◌&&◌, false, true, length, replicate, slice_get, IfOk, OnOk, ◌++◌, Some};
ghost use Rattle.gate_net.specs.Edge.{edge_value};
ghost use Rattle.gate_net.specs.Net.{IsValuation, MOST_NODES};
ghost use Rattle.gate_net.specs.declared.net.Node.TheVariants.{Input};
ghost use Rattle.word_eqs.specs.Gates.{gate_count};
ghost use Rattle.word_eqs.specs.Graph.{IsGraph, width_of_var};
ghost use Rattle.word_eqs.specs.Guarded.{IsOrdered};
ghost use Rattle.bitblast.specs.Blasted.{StandsFor, inputs_from};
ghost use Rattle.bitblast.specs.Circuit.{MakesEdge};
ghost use Rattle.bitblast.specs.Making.{Frees, Gives, IsAt, IsTest, IsWanted, MayEnd};
ghost use Rattle.bitblast.specs.Wires.{edges_at};

use crate::bitwise::Wire;
use crate::edge_table::EdgeTable;
use crate::gates::{both, either, opposite};
use crate::making::{failing, make};
use crate::nodes::WireList;
use crate::shapes::{append, falsity};
use gate_net::{Edge, Net};
use std::alloc::{AllocError, Global};
use word_eqs::{Act, GuardedList, TermId, Terms, VarId};

/// The net of a list.
#[derive(Drop)]
pub struct Blasted {
    pub net: Net,
    /// It is 1 exactly where the list breaks some property.
    pub root: Edge,
    /// The edges of each variable, the lowest bit first.
    pub wires: WireList,
}

/// A net in the making.
#[derive(Drop)]
struct Maker {
    net: Net,
    wires: WireList,
    words: EdgeTable,
    /// It is 1 where no step so far ends the list.
    live: Edge,
    /// It is 1 where a property ended it.
    root: Edge,
}

/// So many words without edges.
fn no_wires(alloc: Global, count: u32) -> Result<WireList, AllocError>
    ensures { IfOk result (λ wires. wires ≡ replicate count (record { items = [] })) }
{
    let mut wires = WireList::new(alloc);
    for _ in 0..count {
        wires.push(Wire::new())?;
    }
    Ok(wires)
}

/// A word of new inputs.
fn new_inputs(net: &mut Net, width: u8) -> Result<Wire, AllocError>
    requires within { width ≤ 128 }
    requires room { length net.old + width ≤ MOST_NODES }
    ensures net { OnOk result (net.new ≡ net.old ++ replicate width Input) }
    ensures word { IfOk result (λ word. word.items ≡ inputs_from (length net.old) (replicate width Input)) }
{
    let mut word = Wire::new();
    for _ in 0..width {
        let e = net.input()?;
        word.push(e);
    }
    Ok(word)
}

/// The edge that is 1 where the root is, or where a step that is a property ends the list.
fn broken(
    net: &mut Net,
    root: Edge,
    live: Edge,
    fails: Edge,
    breaks: bool,
) -> Result<Edge, AllocError>
    requires room { length net.old + 2 ≤ MOST_NODES }
    requires root { root.node < length net.old }
    requires live { live.node < length net.old }
    requires fails { fails.node < length net.old }
    ensures { IfOk result (MakesEdge net.old net.new 2 (λ a. edge_value a root || (breaks && (edge_value a live && edge_value a fails)))) }
{
    if breaks {
        let ends = both(net, live, fails)?;
        let e = either(net, root, ends)?;
        Ok(e)
    } else {
        Ok(root)
    }
}

/// A copy of the edges of a term.
fn word_of(words: &EdgeTable, t: u32) -> Wire
    requires { t < length words.now }
    ensures { result.items ≡ edges_at words.now t }
{
    let mut word = Wire::new();
    append(&mut word, words.edges_of(t));
    word
}

impl Maker {
    /// Nothing is translated yet.
    fn new(alloc: Global, terms: &Terms, list: &GuardedList) -> Result<Maker, AllocError>
        ensures { IfOk result (IsAt terms.now list.now 0) }
    {
        let _ = list.len();
        let net = Net::new(alloc)?;
        let live = net.truth();
        let root = falsity(&net);
        let wires = no_wires(alloc, terms.vars())?;
        let words = EdgeTable::new(alloc, terms.len())?;
        Ok(Maker {
            net,
            wires,
            words,
            live,
            root,
        })
    }

    /// A variable gets new inputs.
    fn leave_free(&mut self, width: u8, x: VarId) -> Result<(), AllocError>
        requires within { width ≤ 128 }
        requires there { x.0 < length self.old.wires }
        requires room { length self.old.net + width ≤ MOST_NODES }
        ensures { OnOk result (Frees self.old self.new x.0 width) }
    {
        let word = new_inputs(&mut self.net, width)?;
        self.wires.set(x.0 as usize, word);
        Ok(())
    }

    /// A variable gets the edges of a term.
    fn give(&mut self, alloc: Global, terms: &Terms, x: VarId, t: TermId) -> Result<(), AllocError>
        requires there { x.0 < length self.old.wires }
        requires wanted { IsWanted self.old.net terms.now self.old.wires self.old.words t.0 0 }
        ensures { OnOk result (Gives terms.now self.old self.new x.0 t.0) }
    {
        make(alloc, &mut self.net, terms, &self.wires, &mut self.words, t)?;
        self.wires.set(x.0 as usize, word_of(&self.words, t.0));
        Ok(())
    }

    /// The list ends where the guard is 1 and the term 0.
    fn may_end(
        &mut self,
        alloc: Global,
        terms: &Terms,
        guard: TermId,
        t: TermId,
        breaks: bool,
    ) -> Result<(), AllocError>
        requires test { IsTest self.old.net terms.now self.old.wires self.old.words guard.0 t.0 }
        requires live { self.old.live.node < length self.old.net }
        requires root { self.old.root.node < length self.old.net }
        ensures { OnOk result (MayEnd terms.now self.old self.new guard.0 t.0 breaks) }
    {
        let fails = failing(
            alloc,
            &mut self.net,
            terms,
            &self.wires,
            &mut self.words,
            guard,
            t,
        )?;
        self.root = broken(&mut self.net, self.root, self.live, fails, breaks)?;
        self.live = both(&mut self.net, self.live, opposite(fails))?;
        Ok(())
    }

    /// Translates the next step.
    fn step(
        &mut self,
        alloc: Global,
        terms: &Terms,
        list: &GuardedList,
        k: u32,
    ) -> Result<(), AllocError>
        requires within { k < length list.now }
        requires ordered { IsOrdered terms.now list.now }
        requires room { 1 + gate_count terms.now list.now ≤ MOST_NODES }
        requires at { IsAt terms.now list.now k self.old }
        ensures { OnOk result (IsAt terms.now list.now (k + 1) self.new) }
    {
        let step = list.get(k);
        match step.act {
            Act::Free(x) => self.leave_free(terms.width_of_var(x), x),
            Act::Set(x, t) => self.give(alloc, terms, x, t),
            Act::Cut(t) => self.may_end(alloc, terms, step.guard, t, false),
            Act::Prop(_, t) => self.may_end(alloc, terms, step.guard, t, true),
        }
    }
}

/// The net of a list in order: its inputs are the bits of the variables that the list leaves free, the
/// edges of each variable are its bits, and its root is 1 exactly where the list breaks some property.
/// A term is translated once, when a guard, a set variable, an assumption or a property first wants it.
pub fn blast(alloc: Global, terms: &Terms, list: &GuardedList) -> Result<Blasted, AllocError>
    requires ordered { IsOrdered terms.now list.now }
    requires room { 1 + gate_count terms.now list.now ≤ MOST_NODES }
    ensures { IfOk result (λ b. StandsFor terms.now list.now b.net b.root b.wires) }
{
    let mut maker = Maker::new(alloc, terms, list)?;
    for k in 0..list.len() {
        maker.step(alloc, terms, list, k)?;
    }
    maker.net.values_law();
    let Maker {
        net,
        wires,
        root,
        ..
    } = maker;
    Ok(Blasted { net, root, wires })
}
