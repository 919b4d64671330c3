//! The lists: a free bit and two free words, and then a property, an assumption or both.

use crate::source::Source;
use anyhow::Result;
use bits_core::{Op1, Op2, Word};
use std::alloc::Global;
use word_eqs::{Act, TermId, TermNode};

/// Which list.
#[derive(Clone, Copy)]
pub enum Name {
    /// The property is a bit or its inverse.
    BitOrInverse,
    /// The property is that the sum of two words is that of their common bits and of all their bits.
    SumTwoWays,
    /// The bit is assumed to be 1, and the property is that it is 0.
    AssumedWrong,
    /// The bit is assumed to be 1, and the property is that it is 1.
    AssumedRight,
    /// The property that the bit is 1, under a guard that is always 0.
    UnderZero,
    /// The property that the bit is 1, after an assumption that is always 0.
    AfterZero,
    /// The property that the bit is 1, before an assumption that is always 0.
    BeforeZero,
    /// No property.
    NoProperty,
}

/// Each list once.
pub const LISTS: [Name; 8] = [
    Name::BitOrInverse,
    Name::SumTwoWays,
    Name::AssumedWrong,
    Name::AssumedRight,
    Name::UnderZero,
    Name::AfterZero,
    Name::BeforeZero,
    Name::NoProperty,
];

impl Name {
    /// What its row begins with.
    pub fn title(self) -> &'static str {
        match self {
            Name::BitOrInverse => "a bit or its inverse",
            Name::SumTwoWays => "a sum in two ways",
            Name::AssumedWrong => "assumed 1, to be 0",
            Name::AssumedRight => "assumed 1, to be 1",
            Name::UnderZero => "under a guard of 0",
            Name::AfterZero => "after an assumption of 0",
            Name::BeforeZero => "before an assumption of 0",
            Name::NoProperty => "no property",
        }
    }
}

/// Terms that the lists are made of.
#[derive(Clone, Copy)]
struct Parts {
    /// The constant 1.
    always: TermId,
    bit: TermId,
    inverse: TermId,
    /// The bit and its inverse, which is 0 in each run.
    neither: TermId,
    /// The bit or its inverse, which is 1 in each run.
    either: TermId,
    /// Whether the sums are equal, which is 1 in each run.
    same_sum: TermId,
}

/// Whether `x + y` is `(x & y) + (x | y)`, of two free words of 4 bits.
fn same_sum(source: &mut Source, always: TermId) -> Result<TermId> {
    let x = source.free(always, 4)?;
    let y = source.free(always, 4)?;
    let common = source.term(TermNode::Two(Op2::And, x, y))?;
    let all = source.term(TermNode::Two(Op2::Or, x, y))?;
    let sum = source.term(TermNode::Two(Op2::Add, x, y))?;
    let other = source.term(TermNode::Two(Op2::Add, common, all))?;
    source.term(TermNode::Two(Op2::Eq, sum, other))
}

fn make_parts(source: &mut Source) -> Result<Parts> {
    let always = source.term(TermNode::Const(Word::from_low_bits(1, 1)))?;
    let bit = source.free(always, 1)?;
    let inverse = source.term(TermNode::One(Op1::Not, bit))?;
    Ok(Parts {
        always,
        bit,
        inverse,
        neither: source.term(TermNode::Two(Op2::And, bit, inverse))?,
        either: source.term(TermNode::Two(Op2::Or, bit, inverse))?,
        same_sum: same_sum(source, always)?,
    })
}

/// An assumption and then the property, without a guard.
fn assume_then(source: &mut Source, always: TermId, assumed: TermId, wanted: TermId) -> Result<()> {
    source.step(always, Act::Cut(assumed))?;
    source.step(always, Act::Prop(0, wanted))
}

/// The steps of a list, after the free variables.
fn put_steps(source: &mut Source, parts: Parts, name: Name) -> Result<()> {
    let Parts {
        always,
        bit,
        inverse,
        neither,
        either,
        same_sum,
    } = parts;
    match name {
        Name::BitOrInverse => source.step(always, Act::Prop(0, either)),
        Name::SumTwoWays => source.step(always, Act::Prop(0, same_sum)),
        Name::AssumedWrong => assume_then(source, always, bit, inverse),
        Name::AssumedRight => assume_then(source, always, bit, bit),
        Name::UnderZero => source.step(neither, Act::Prop(0, bit)),
        Name::AfterZero => assume_then(source, always, neither, bit),
        Name::BeforeZero => {
            source.step(always, Act::Prop(0, bit))?;
            source.step(always, Act::Cut(neither))
        }
        Name::NoProperty => Ok(()),
    }
}

/// The terms and steps of a list.
pub fn make(alloc: Global, name: Name) -> Result<Source> {
    let mut source = Source::new(alloc);
    let parts = make_parts(&mut source)?;
    put_steps(&mut source, parts, name)?;
    Ok(source)
}
