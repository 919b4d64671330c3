//! The edges of a term, by those of its parts.

ghost use Rattle.std.specs.Prelude.{◌≡◌, ◌+◌, ◌<◌, ◌≤◌, length, IfOk};
ghost use Rattle.word_eqs.specs.declared.term.TermNode.TheVariants.{Const, Var, One, Two, Choose, Resize, Slice, Join};
ghost use Rattle.bitblast.specs.Wires.{IsReady, MakesNode, edges_at};

use crate::bitwise::{Wire, choose_word};
use crate::edge_table::EdgeTable;
use crate::operations::{operate1, operate2};
use crate::shapes::{append, constant, join, resize, slice};
use bits_core::{Op1, Op2, Word};
use gate_net::{Edge, Net};
use sqlite_items::Items;
use std::alloc::AllocError;
use word_eqs::{TermId, TermNode, Terms, VarId};

/// The edges of words. A word without edges isn't made yet.
pub type WireList = Items<Wire>;

/// The edges at a place.
pub fn edges_of(wires: &WireList, at: u32) -> &[Edge]
    requires { at < length wires.now }
    ensures value { result.now ≡ edges_at wires.now at }
    ensures within { length result.now ≤ 128 }
{
    wires.as_slice()[at as usize].as_slice()
}

/// The edges of a constant.
fn constant_edges(
    net: &mut Net,
    terms: &Terms,
    vars: &WireList,
    words: &EdgeTable,
    word: Word,
) -> Result<Wire, AllocError>
    requires { IsReady net.old terms.now vars.now words.now (Const word) }
    ensures { IfOk result (λ made. MakesNode net.old net.new terms.now vars.now words.now (Const word) made.items) }
{
    Ok(constant(net, word))
}

/// The edges of a variable.
fn variable_edges(
    net: &mut Net,
    terms: &Terms,
    vars: &WireList,
    words: &EdgeTable,
    x: VarId,
) -> Result<Wire, AllocError>
    requires { IsReady net.old terms.now vars.now words.now (Var x) }
    ensures { IfOk result (λ made. MakesNode net.old net.new terms.now vars.now words.now (Var x) made.items) }
{
    let mut made = Wire::new();
    append(&mut made, edges_of(vars, x.0));
    Ok(made)
}

/// The edges of an operation on one term.
fn one_edges(
    net: &mut Net,
    terms: &Terms,
    vars: &WireList,
    words: &EdgeTable,
    op: Op1,
    a: TermId,
) -> Result<Wire, AllocError>
    requires { IsReady net.old terms.now vars.now words.now (One op a) }
    ensures { IfOk result (λ made. MakesNode net.old net.new terms.now vars.now words.now (One op a) made.items) }
{
    let made = operate1(net, op, words.edges_of(a.0))?;
    Ok(made)
}

/// The edges of an operation on two terms.
fn two_edges(
    net: &mut Net,
    terms: &Terms,
    vars: &WireList,
    words: &EdgeTable,
    op: Op2,
    a: TermId,
    b: TermId,
) -> Result<Wire, AllocError>
    requires { IsReady net.old terms.now vars.now words.now (Two op a b) }
    ensures { IfOk result (λ made. MakesNode net.old net.new terms.now vars.now words.now (Two op a b) made.items) }
{
    let made = operate2(net, op, words.edges_of(a.0), words.edges_of(b.0))?;
    Ok(made)
}

/// The edges of a choice.
fn choice_edges(
    net: &mut Net,
    terms: &Terms,
    vars: &WireList,
    words: &EdgeTable,
    c: TermId,
    a: TermId,
    b: TermId,
) -> Result<Wire, AllocError>
    requires { IsReady net.old terms.now vars.now words.now (Choose c a b) }
    ensures { IfOk result (λ made. MakesNode net.old net.new terms.now vars.now words.now (Choose c a b) made.items) }
{
    let condition = words.edges_of(c.0)[0];
    let made = choose_word(net, condition, words.edges_of(a.0), words.edges_of(b.0))?;
    Ok(made)
}

/// The edges of a term at another width.
fn resized_edges(
    net: &mut Net,
    terms: &Terms,
    vars: &WireList,
    words: &EdgeTable,
    a: TermId,
    to: u8,
    signed: bool,
) -> Result<Wire, AllocError>
    requires { IsReady net.old terms.now vars.now words.now (Resize a to signed) }
    ensures { IfOk result (λ made. MakesNode net.old net.new terms.now vars.now words.now (Resize a to signed) made.items) }
{
    Ok(resize(net, words.edges_of(a.0), to as usize, signed))
}

/// The edges of a slice.
fn slice_edges(
    net: &mut Net,
    terms: &Terms,
    vars: &WireList,
    words: &EdgeTable,
    a: TermId,
    high: u8,
    low: u8,
) -> Result<Wire, AllocError>
    requires { IsReady net.old terms.now vars.now words.now (Slice a high low) }
    ensures { IfOk result (λ made. MakesNode net.old net.new terms.now vars.now words.now (Slice a high low) made.items) }
{
    Ok(slice(words.edges_of(a.0), high as usize, low as usize))
}

/// The edges of a term on the left of another.
fn joined_edges(
    net: &mut Net,
    terms: &Terms,
    vars: &WireList,
    words: &EdgeTable,
    a: TermId,
    b: TermId,
) -> Result<Wire, AllocError>
    requires { IsReady net.old terms.now vars.now words.now (Join a b) }
    ensures { IfOk result (λ made. MakesNode net.old net.new terms.now vars.now words.now (Join a b) made.items) }
{
    Ok(join(words.edges_of(a.0), words.edges_of(b.0)))
}

/// The edges of a node whose parts are made.
pub fn node_edges(
    net: &mut Net,
    terms: &Terms,
    vars: &WireList,
    words: &EdgeTable,
    node: TermNode,
) -> Result<Wire, AllocError>
    requires { IsReady net.old terms.now vars.now words.now node }
    ensures { IfOk result (λ made. MakesNode net.old net.new terms.now vars.now words.now node made.items) }
{
    match node {
        TermNode::Const(word) => constant_edges(net, terms, vars, words, word),
        TermNode::Var(x) => variable_edges(net, terms, vars, words, x),
        TermNode::One(op, a) => one_edges(net, terms, vars, words, op, a),
        TermNode::Two(op, a, b) => two_edges(net, terms, vars, words, op, a, b),
        TermNode::Choose(c, a, b) => choice_edges(net, terms, vars, words, c, a, b),
        TermNode::Resize(a, to, signed) => resized_edges(net, terms, vars, words, a, to, signed),
        TermNode::Slice(a, high, low) => slice_edges(net, terms, vars, words, a, high, low),
        TermNode::Join(a, b) => joined_edges(net, terms, vars, words, a, b),
    }
}
