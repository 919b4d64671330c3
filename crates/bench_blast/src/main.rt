//! Times `blast` on made work: `bench_blast COUNT` makes COUNT products of words of 128 bits, each of the
//! one before and a free word, and a property of the last, and turns them into a net. It prints how many
//! nodes the net has, and how long it took on standard error.
#![tactic(auto)]

use anyhow::{Context, Result, bail};
use bitblast::blast_if_ordered;
use bits_core::{Op2, Word};
use std::alloc::Global;
use std::env;
use std::rt::{Clock, Env};
use std::time::Instant;
use word_eqs::{Act, GuardedList, Step, TermId, TermNode, Terms};

/// The products of a run that names none.
const COUNT: u32 = 2;

/// A variable of 128 bits that is left free, as a term.
fn free(terms: &mut Terms, list: &mut GuardedList, always: TermId) -> Result<TermId> {
    if terms.vars() > 100 || terms.len() > 100 || list.len() > 100 {
        bail!("too many variables");
    }
    let x = terms.var(128)?;
    list.push(Step {
        guard: always,
        act: Act::Free(x),
    })?;
    let t = terms.add(TermNode::Var(x))?;
    Ok(t)
}

fn product(terms: &mut Terms, a: TermId, b: TermId) -> Result<TermId> {
    let len = terms.len();
    if len > 4000 || a.0 >= len || b.0 >= len {
        bail!("no such terms");
    }
    if terms.width_of(b) != terms.width_of(a) {
        bail!("two widths");
    }
    let t = terms.add(TermNode::Two(Op2::Mul, a, b))?;
    Ok(t)
}

/// A list whose property is the last of so many products.
fn fill(terms: &mut Terms, list: &mut GuardedList, count: u32) -> Result<()> {
    if terms.len() > 100 {
        bail!("too many terms");
    }
    let always = terms.add(TermNode::Const(Word::from_low_bits(1, 1)))?;
    let mut last = free(terms, list, always)?;
    let factor = free(terms, list, always)?;
    for _ in 0..count {
        last = product(terms, last, factor)?;
    }
    if list.len() > 100 {
        bail!("too many steps");
    }
    list.push(Step {
        guard: always,
        act: Act::Prop(0, last),
    })?;
    Ok(())
}

fn run<R: Print + Eprint + Clock>(rt: &R, alloc: Global, count: u32) -> Result<()> {
    let mut terms = Terms::new(alloc);
    let mut list = GuardedList::new(alloc);
    fill(&mut terms, &mut list, count)?;
    let start = Instant::now(rt)?;
    let made = blast_if_ordered(alloc, &terms, &list)?.context("the list is not in order")?;
    let took = start.elapsed(rt)?.as_millis();
    let nodes = made.net.count();
    eprintln!(rt; "blast: {took} ms")?;
    println!(rt; "nodes: {nodes}")?;
    Ok(())
}

fn main(rt: HostRuntime) -> Result<()> {
    let mut words = env::args(&rt)?;
    let count = match words.nth(1) {
        Some(word) => word.as_str().parse::<u32>().unwrap_or(COUNT),
        None => COUNT,
    };
    run(&rt, rt.alloc(), count)
}
