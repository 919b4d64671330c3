//! Times the reading of C's tokens on made texts: `bench_c_tokens BYTES` reads a text of statements, one of names that
//! are each defined and used once, and one that uses a name of four tokens everywhere, each of about BYTES bytes. It
//! prints how many tokens each has, and with a second word the milliseconds of processor time on standard error.
#![tactic(auto)]

use c_tokens::c_tokens;
use std::alloc::{AllocError, Global};
use std::time::CpuClock;
use std::{env, io};

/// The size of a run that names none.
const BYTES: usize = 3000;

const STATEMENTS: &str = "for (i = 0; i < N; i++) { sum += t[i] * 0x1Full; } // as in a loop\n";

/// The lines over and over, behind a first one.
fn repeated(alloc: Global, first: &str, lines: &str, bytes: usize) -> Result<String, AllocError> {
    let mut text = String::from_str(alloc, first)?;
    for _ in 0..bytes / lines.len().max(1) {
        text.push_str(lines)?;
    }
    Ok(text)
}

/// Names that are each defined on a line of its own and used on the next.
fn defined(alloc: Global, bytes: usize) -> Result<String, AllocError> {
    let mut text = String::new(alloc);
    for i in 0..bytes / 24 {
        let lines = format!(in alloc; "#define n{i} {i}\nn{i};\n")?;
        text.push_str(lines.as_str())?;
    }
    Ok(text)
}

fn report<R: Print + Eprint + CpuClock + AllocGlobal>(
    rt: &R,
    name: &str,
    text: &str,
    times: bool,
) -> io::Result<()> {
    let bytes = text.as_bytes();
    if bytes.len() > 1 << 30 {
        return Ok(());
    }
    let start = rt.process_cpu_time()?;
    let count = c_tokens(rt.alloc(), bytes)?.len();
    if times {
        let took = rt.process_cpu_time()?.saturating_sub(start).as_millis();
        eprintln!(rt; "{name}: {took} ms")?;
    }
    println!(rt; "{name}: {count} tokens")
}

fn run<R: Print + Eprint + CpuClock + AllocGlobal>(
    rt: &R,
    bytes: usize,
    times: bool,
) -> io::Result<()> {
    let statements = repeated(rt.alloc(), "", STATEMENTS, bytes)?;
    report(rt, "statements", statements.as_str(), times)?;
    let names = defined(rt.alloc(), bytes)?;
    report(rt, "definitions", names.as_str(), times)?;
    let uses = repeated(rt.alloc(), "#define N (-1)\n", "N+", bytes)?;
    report(rt, "uses", uses.as_str(), times)
}

fn main(rt: HostRuntime) -> io::Result<()> {
    let mut words = env::args(&rt)?;
    let bytes = match words.nth(1) {
        Some(word) => word.as_str().parse::<usize>().unwrap_or(BYTES),
        None => BYTES,
    };
    let times = words.next().is_some();
    run(&rt, bytes, times)
}
