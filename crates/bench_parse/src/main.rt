//! Reads nested parentheses by a table: `bench_parse PAIRS` parses PAIRS opening parentheses, an `x`, and as many
//! closing ones, then the same without the last one, and prints what came of each.
#![tactic(auto)]

use ll_parse::{examples, parse};
use std::alloc::{AllocError, Global};
use std::{env, io};

/// How many pairs a run has that names none.
const PAIRS: usize = 1000;

/// The kinds of `(`, `x` and `)` in the grammar of nested parentheses.
const OPEN: u8 = 1;

const INNER: u8 = 3;

const CLOSE: u8 = 2;

/// Opening parentheses, an `x`, and closing ones.
fn nested(alloc: Global, opened: usize, closed: usize) -> Result<Vec<u8>, AllocError> {
    let mut tokens = Vec::new(alloc);
    for _ in 0..opened {
        tokens.push(OPEN)?;
    }
    tokens.push(INNER)?;
    for _ in 0..closed {
        tokens.push(CLOSE)?;
    }
    Ok(tokens)
}

fn report(rt: &(impl Print + AllocGlobal), tokens: &[u8]) -> io::Result<()> {
    let count = tokens.len();
    match parse(rt.alloc(), &examples::nested(), tokens)? {
        Ok(productions) => {
            let used = productions.len();
            println!(rt; "{count} tokens: {used} productions")
        }
        Err(place) => println!(rt; "{count} tokens: wrong at token {place}"),
    }
}

fn main(rt: HostRuntime) -> io::Result<()> {
    let word = env::args(&rt)?.nth(1);
    let pairs = match word {
        Some(word) => word.as_str().parse::<usize>().unwrap_or(PAIRS),
        None => PAIRS,
    };
    report(&rt, &nested(rt.alloc(), pairs, pairs)?)?;
    report(&rt, &nested(rt.alloc(), pairs, pairs.saturating_sub(1))?)
}
