//! Each kind of node at some widths: the words that the edges of its net have, for words that its inputs
//! have, against those that `Terms::eval_into` gives. A row says for how many pairs of operands they
//! agree, and where they differ, and for how many the node over them as constants folds to that constant.
//! Then the roots of small lists.
#![tactic(auto)]

mod kinds;
mod net_values;
mod roots;
mod source;

ghost use Rattle.std.specs.Prelude.{◌<◌, ◌≤◌};

use anyhow::{Context, Result, bail};
use bitblast::Blasted;
use bits_core::Word;
use kinds::{KINDS, Kind, Parts, node_of, operand_width, operands};
use net_values::{node_values, number_of, push_bits};
use source::Source;
use std::alloc::Global;
use word_eqs::{TermId, TermNode, VarId, Words};

const WIDTHS: [u8; 5] = [1, 4, 8, 64, 128];

/// A node over free variables, and a variable that is set to it.
#[derive(Drop)]
struct Made {
    source: Source,
    node: TermId,
    result: VarId,
    blasted: Blasted,
}

/// The parts of a node: two words of a width and a bit, of variables that are left free.
fn free_parts(source: &mut Source, always: TermId, width: u8) -> Result<Parts> {
    let var = source.free(always, width)?;
    let second = source.free(always, width)?;
    let third = source.free(always, 1)?;
    Ok(Parts {
        left: source.term(TermNode::Var(var))?,
        right: source.term(TermNode::Var(second))?,
        bit: source.term(TermNode::Var(third))?,
        var,
    })
}

/// The parts of a node as constants: two words and a bit, and a variable that is set to the first word.
fn constant_parts(source: &mut Source, always: TermId, words: [Word; 3]) -> Result<Parts> {
    let left = source.term(TermNode::Const(words[0]))?;
    Ok(Parts {
        left,
        right: source.term(TermNode::Const(words[1]))?,
        bit: source.term(TermNode::Const(words[2]))?,
        var: source.set(always, left)?,
    })
}

/// The net of a node of a kind over words of a width: free ones, or constants.
fn make(alloc: Global, kind: Kind, width: u8, constants: Option<[Word; 3]>) -> Result<Made>
    requires some { 0 < width }
    requires within { width ≤ 128 }
{
    let mut source = Source::new(alloc);
    let always = source.term(TermNode::Const(Word::from_low_bits(1, 1)))?;
    let parts = match constants {
        None => free_parts(&mut source, always, width)?,
        Some(words) => constant_parts(&mut source, always, words)?,
    };
    let node = source.term(node_of(kind, width, parts))?;
    let result = source.set(always, node)?;
    let blasted = source.net(alloc)?;
    Ok(Made {
        source,
        node,
        result,
        blasted,
    })
}

/// The words of the free variables: the operands, and the lowest bit of the second.
fn free_words(width: u8, left: u128, right: u128) -> [Word; 3]
    requires some { 0 < width }
    requires within { width ≤ 128 }
{
    [
        Word::from_low_bits(width, left),
        Word::from_low_bits(width, right),
        Word::from_low_bits(1, right),
    ]
}

/// The word of the node, by `eval_into`.
fn expected_word(alloc: Global, made: &Made, words: &[Word]) -> Result<Word> {
    let mut env = Words::new(alloc);
    for &word in words {
        env.push(word)?;
    }
    let width = made.source.width_of(made.result);
    let blank = Word::new(width, 0).context("no such width")?;
    env.push(blank)?;
    made.source.eval(alloc, &env, made.node)
}

/// The word that the edges of the result have, by the values of the net.
fn found_word(alloc: Global, made: &Made, words: &[Word]) -> Result<Word> {
    let mut bits = Vec::new(alloc);
    for &word in words {
        push_bits(&mut bits, word)?;
    }
    let values = node_values(alloc, &made.blasted.net, &bits)?;
    let wire = made.blasted.wires.get(made.result.0 as usize);
    let edges = wire.context("no edges")?.as_slice();
    let width = edges.len().min(255) as u8;
    let word = Word::new(width, number_of(&values, edges));
    word.context("no word")
}

/// Whether both words of the result are the same. If they aren't, a row says so.
fn agrees<R: Print>(rt: &R, alloc: Global, made: &Made, words: &[Word]) -> Result<bool> {
    let found = found_word(alloc, made, words)?;
    let expected = expected_word(alloc, made, words)?;
    if found != expected {
        println!(rt; "{words:?} differs: {found:?}, not {expected:?}")?;
        return Ok(false);
    }
    Ok(true)
}

/// Whether each edge of the result is a constant.
fn is_constant(made: &Made) -> Result<bool> {
    let wire = made.blasted.wires.get(made.result.0 as usize);
    let edges = wire.context("no edges")?.as_slice();
    Ok(edges.iter().all(|edge| edge.node == 0))
}

/// Whether a node over constants is the constant that it should be.
fn folds<R: Print>(rt: &R, alloc: Global, kind: Kind, width: u8, words: [Word; 3]) -> Result<bool>
    requires some { 0 < width }
    requires within { width ≤ 128 }
{
    let made = make(alloc, kind, width, Some(words))?;
    Ok(is_constant(&made)? && agrees(rt, alloc, &made, &words[..1])?)
}

/// The row of a kind and a width.
fn row<R: Print>(rt: &R, alloc: Global, kind: Kind, width: u8) -> Result<()> {
    if width == 0 || width > 128 {
        bail!("no such width");
    }
    let operand = operand_width(kind, width);
    let made = make(alloc, kind, operand, None)?;
    let mut agreed = 0u32;
    let mut folded = 0u32;
    for (left, right) in operands(operand) {
        let words = free_words(operand, left, right);
        if agrees(rt, alloc, &made, &words)? {
            agreed = agreed.saturating_add(1);
        }
        if folds(rt, alloc, kind, operand, words)? {
            folded = folded.saturating_add(1);
        }
    }
    println!(rt; "{kind:?} {width}: {agreed} agree, {folded} fold")?;
    Ok(())
}

fn main(rt: HostRuntime) -> Result<()> {
    for kind in KINDS {
        for width in WIDTHS {
            row(&rt, rt.alloc(), kind, width)?;
        }
    }
    roots::rows(&rt, rt.alloc())
}
