//! The roots of small lists over two free bits `x` and `y`, for each value of both.

use crate::net_values::{is_set, node_values};
use crate::source::Source;
use anyhow::Result;
use bitblast::Blasted;
use bits_core::{Op1, Op2, Word};
use std::alloc::{AllocError, Global};
use word_eqs::{Act, TermId, TermNode};

/// Which list.
#[derive(Clone, Copy, Debug)]
enum List {
    /// `x` is assumed to be 1, and the property is that it is 0.
    AssumedWrong,
    /// `x` is assumed to be 1, and the property is that `y` is.
    Assumed,
    /// The property that `x` is 1, where `y` is 1.
    Guarded,
    /// The property that `x` or its inverse is 1.
    Always,
}

const LISTS: [List; 4] = [
    List::AssumedWrong,
    List::Assumed,
    List::Guarded,
    List::Always,
];

/// A bit that is left free, as a term.
fn free_bit(source: &mut Source, always: TermId) -> Result<TermId> {
    let bit = source.free(always, 1)?;
    source.term(TermNode::Var(bit))
}

fn make(alloc: Global, list: List) -> Result<Source> {
    let mut source = Source::new(alloc);
    let always = source.term(TermNode::Const(Word::from_low_bits(1, 1)))?;
    let x = free_bit(&mut source, always)?;
    let y = free_bit(&mut source, always)?;
    let inverse = source.term(TermNode::One(Op1::Not, x))?;
    let either = source.term(TermNode::Two(Op2::Or, x, inverse))?;
    match list {
        List::AssumedWrong => {
            source.step(always, Act::Cut(x))?;
            source.step(always, Act::Prop(0, inverse))?;
        }
        List::Assumed => {
            source.step(always, Act::Cut(x))?;
            source.step(always, Act::Prop(0, y))?;
        }
        List::Guarded => source.step(y, Act::Prop(7, x))?,
        List::Always => source.step(always, Act::Prop(0, either))?,
    }
    Ok(source)
}

/// The root, where `x` and `y` have these values.
fn root(alloc: Global, blasted: &Blasted, x: bool, y: bool) -> Result<u8, AllocError> {
    let values = node_values(alloc, &blasted.net, &[x, y])?;
    Ok(u8::from(is_set(&values, blasted.root)))
}

/// A row for each list: its root where `x` and `y` are 00, 01, 10 and 11.
pub fn rows<R: Print>(rt: &R, alloc: Global) -> Result<()> {
    for list in LISTS {
        let blasted = make(alloc, list)?.net(alloc)?;
        let first = root(alloc, &blasted, false, false)?;
        let second = root(alloc, &blasted, false, true)?;
        let third = root(alloc, &blasted, true, false)?;
        let fourth = root(alloc, &blasted, true, true)?;
        println!(rt; "{list:?}: {first}{second}{third}{fourth}")?;
    }
    Ok(())
}
