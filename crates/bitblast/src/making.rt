//! Terms to edges, each when it is first wanted, and its parts before it.

ghost use Rattle.std.specs.Prelude.{◌≡◌, ◌<◌, [], ℕ, length, Contains, IfSome, IfNone, IfOk, OnOk};
ghost use Rattle.word_eqs.specs.Graph.{parts, places};
ghost use Rattle.bitblast.specs.Wires.{IsMade, edges_at};
ghost use Rattle.bitblast.specs.Making.{IsNext, IsTest, IsWanted, MakesOne, Tests, Translates};

use crate::bitwise::Wire;
use crate::edge_table::EdgeTable;
use crate::gates::{both, opposite};
use crate::nodes::{WireList, node_edges};
use crate::reductions::is_some_set;
use gate_net::{Edge, Net};
use std::alloc::{AllocError, Global};
use word_eqs::{TermId, TermIds, TermNode, Terms};

/// The first of some terms that isn't made yet.
fn first_unmade(words: &EdgeTable, ids: &[TermId]) -> Option<TermId>
    requires { (k : ℕ) → Contains (places ids.now) k → k < length words.now }
    ensures none { IfNone result ((k : ℕ) → Contains (places ids.now) k → IsMade words.now k) }
    ensures named { IfSome result (λ t. Contains (places ids.now) t.0) }
    ensures unmade { IfSome result (λ t. edges_at words.now t.0 ≡ []) }
{
    for &id in ids {
        if words.edges_of(id.0).is_empty() {
            return Some(id);
        }
    }
    None
}

/// A part of a node that isn't made yet.
fn unmade_part(words: &EdgeTable, node: TermNode) -> Option<TermId>
    requires { (k : ℕ) → Contains (parts node) k → k < length words.now }
    ensures none { IfNone result ((k : ℕ) → Contains (parts node) k → IsMade words.now k) }
    ensures named { IfSome result (λ t. Contains (parts node) t.0) }
    ensures unmade { IfSome result (λ t. edges_at words.now t.0 ≡ []) }
{
    match node {
        TermNode::Const(_) => None,
        TermNode::Var(_) => None,
        TermNode::One(_, a) => first_unmade(words, &[a]),
        TermNode::Two(_, a, b) => first_unmade(words, &[a, b]),
        TermNode::Choose(c, a, b) => first_unmade(words, &[c, a, b]),
        TermNode::Resize(a, _, _) => first_unmade(words, &[a]),
        TermNode::Slice(a, _, _) => first_unmade(words, &[a]),
        TermNode::Join(a, b) => first_unmade(words, &[a, b]),
    }
}

/// Makes a term whose parts are made.
fn make_one(
    net: &mut Net,
    terms: &Terms,
    vars: &WireList,
    words: &mut EdgeTable,
    t: TermId,
) -> Result<(), AllocError>
    requires { IsNext net.old terms.now vars.now words.old t.0 }
    ensures { OnOk result (MakesOne net.old net.new terms.now vars.now words.old words.new t.0) }
{
    let made = node_edges(net, terms, vars, words, terms.node(t))?;
    words.put(t.0, &made)?;
    Ok(())
}

/// Makes a term, and before it those of its parts that aren't made yet. The stack has the terms that
/// wait for a part of theirs.
pub fn make(
    alloc: Global,
    net: &mut Net,
    terms: &Terms,
    vars: &WireList,
    words: &mut EdgeTable,
    t: TermId,
) -> Result<(), AllocError>
    requires { IsWanted net.old terms.now vars.now words.old t.0 0 }
    ensures made { OnOk result (IsMade words.new t.0) }
    ensures rest { OnOk result (Translates net.old net.new terms.now vars.now words.old words.new 0) }
{
    let mut stack = TermIds::new(alloc);
    if words.edges_of(t.0).is_empty() {
        stack.push(t)?;
    }
    while let Some(top) = stack.pop() {
        match unmade_part(words, terms.node(top)) {
            Some(part) => {
                stack.push(top)?;
                stack.push(part)?;
            }
            None => make_one(net, terms, vars, words, top)?,
        }
    }
    Ok(())
}

/// The edge that is 1 where the guard is 1 and the term 0.
pub fn failing(
    alloc: Global,
    net: &mut Net,
    terms: &Terms,
    vars: &WireList,
    words: &mut EdgeTable,
    guard: TermId,
    t: TermId,
) -> Result<Edge, AllocError>
    requires { IsTest net.old terms.now vars.now words.old guard.0 t.0 }
    ensures { IfOk result (Tests net.old net.new terms.now vars.now words.old words.new guard.0 t.0) }
{
    make(alloc, net, terms, vars, words, guard)?;
    make(alloc, net, terms, vars, words, t)?;
    let guarded = words.edges_of(guard.0)[0];
    let holds = is_some_set(net, words.edges_of(t.0))?;
    let e = both(net, guarded, opposite(holds))?;
    Ok(e)
}
