//! Prints the answers of the command to worked words: `show_answers FILE`, over the texts that the file holds, each behind a line
//! `//// NAME`. What has to be printed was worked out by hand from the rules.
#![tactic(auto)]

mod rows;
mod texts;

use cdcl::{ActivityChooser, Chooser, Choosers, OrderChooser};
use hwcbmc_core::{Kept, Ran, run};
use io_edge::{MemFiles, MemSink, RealFiles, read_all};
use rows::{FAULTY, Faulty, PLAIN};
use std::alloc::{AllocError, Global};
use std::{env, io, str};
use texts::add_texts;

/// How many bytes a call of a file or of a stream moves.
const PIECE: usize = 64;

/// How many bytes a stream has room for.
const ROOM: usize = 4096;

fn words_of(alloc: Global, row: &str) -> Result<Vec<String>, AllocError> {
    let mut words = Vec::new(alloc);
    if row.is_empty() {
        return Ok(words);
    }
    for word in row.split(' ') {
        words.push(String::from_str(alloc, word)?)?;
    }
    Ok(words)
}

/// Runs the command with new choosers.
fn run_once(
    alloc: Global,
    words: &[String],
    files: &mut MemFiles,
    out: &mut MemSink,
    err: &mut MemSink,
) -> Result<Ran, AllocError> {
    let order: Box<dyn Chooser> = Box::new(alloc, OrderChooser::new(alloc))?;
    let activity: Box<dyn Chooser> = Box::new(alloc, ActivityChooser::new(alloc))?;
    let choosers = Choosers { order, activity };
    Ok(run(alloc, words, files, out, err, choosers))
}

fn print_bytes<R: Print>(rt: &R, bytes: &[u8]) -> io::Result<()> {
    match str::from_utf8(bytes) {
        Ok(text) => print!(rt; "{text}"),
        Err(_) => println!(rt; "not UTF-8"),
    }
}

/// The words, the two streams, the status, and whether a proof is kept. Of the files and of the output the calls of these numbers
/// fail.
fn print_row<R: Print + AllocGlobal>(
    rt: &R,
    texts: &str,
    row: &str,
    read: u64,
    write: u64,
) -> io::Result<()> {
    let alloc = rt.alloc();
    let mut files = MemFiles::new(alloc, PIECE);
    add_texts(&mut files, texts)?;
    files.fail_at(read)?;
    let mut out = MemSink::new(alloc, PIECE, ROOM)?;
    out.fail_at(write)?;
    let mut err = MemSink::new(alloc, PIECE, ROOM)?;
    let words = words_of(alloc, row)?;
    println!(rt; "> {row}")?;
    let ran = run_once(alloc, words.as_slice(), &mut files, &mut out, &mut err)?;
    print_bytes(rt, out.bytes())?;
    print_bytes(rt, err.bytes())?;
    let kept = match ran.kept {
        Kept::Nothing => "",
        Kept::Proof(_) => ", with a proof",
    };
    println!(rt; "= {}{kept}", ran.status)
}

fn print_rows(rt: &HostRuntime, name: &str) -> io::Result<()> {
    let mut files = RealFiles::new(rt.clone()?);
    let Ok(bytes) = read_all(rt.alloc(), &mut files, name) else {
        return println!(rt; "{name}: not there");
    };
    let Ok(texts) = str::from_utf8(&bytes) else {
        return println!(rt; "{name}: not UTF-8");
    };
    for row in PLAIN {
        print_row(rt, texts, row, 0, 0)?;
    }
    for Faulty { words, read, write } in FAULTY {
        print_row(rt, texts, words, read, write)?;
    }
    Ok(())
}

fn main(rt: HostRuntime) -> io::Result<()> {
    for name in env::args(&rt)?.skip(1) {
        print_rows(&rt, name.as_str())?;
    }
    Ok(())
}
