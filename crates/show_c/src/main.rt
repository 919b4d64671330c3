//! Prints what is read of worked texts, as the grammar of the C profile has it: `show_c FILE..` reads each file, and then texts
//! of its own. What it has to print was worked out by hand.
#![tactic(auto)]

ghost use Rattle.std.specs.Prelude.{◌^◌, ◌<◌, length};

mod show;

use c_parse::{ParseEnd, parse_c};
use c_tree::CTree;
use io_edge::{RealFiles, read_all};
use show::show;
use src_text::Refusal;
use std::alloc::{AllocError, Global};
use std::{env, io};

/// The pairs of parentheses that are too deep.
const PAIRS: usize = 500_000;

const ROWS: [&str; 14] = [
    "",
    "int x = f(1) + 2;",
    "int 3;",
    "int main(void) { $ }",
    "int main(void) { assert(",
    "#define N 3\nint t[N];",
    "#define N (-3)\nint t[2 + N];",
    "#define N 3\n#define M N\nint t[M];",
    "int t[08];",
    "int t[5lL];",
    "int t[5LL];",
    "int main(void) { switch (1) { case 0: case 1: ; ; default: case 2: } }",
    "int main(void) { if (1) if (2) ; else ; }",
    "int x = 1 + 2 * 3 - 4;",
];

/// The tree of a text, or its refusal. A text of 2^30 bytes or more is none.
fn read(alloc: Global, text: &[u8]) -> Result<Option<Result<CTree, Refusal>>, AllocError> {
    if text.len() >= 1 << 30 {
        return Ok(None);
    }
    match parse_c(alloc, text) {
        Ok(tree) => Ok(Some(Ok(tree))),
        Err(ParseEnd::Refused(refusal)) => Ok(Some(Err(refusal))),
        Err(ParseEnd::Memory) => Err(AllocError),
    }
}

/// Prints what comes of a text, and gives its tree.
fn report<R: Print + AllocGlobal>(rt: &R, name: &str, text: &[u8]) -> io::Result<Option<CTree>> {
    match read(rt.alloc(), text)? {
        Some(Ok(tree)) => {
            println!(rt; "{name}: read")?;
            return Ok(Some(tree));
        }
        Some(Err(Refusal { place, kind, .. })) => {
            let why = kind.text();
            println!(rt; "{name}: {why} at {}:{}", place.line, place.column)?;
        }
        None => println!(rt; "{name}: too long")?,
    }
    Ok(None)
}

fn report_all<R: Print + AllocGlobal>(rt: &R, name: &str, text: &[u8]) -> io::Result<()> {
    match report(rt, name, text)? {
        Some(tree) => show(rt, &tree),
        None => Ok(()),
    }
}

/// With how many of its bytes a text is read, where only its first bytes are there.
fn report_prefixes<R: Print + AllocGlobal>(rt: &R, text: &[u8]) -> io::Result<()> {
    print!(rt; "  read with")?;
    for len in 0..=text.len() {
        if let Some(Ok(_)) = read(rt.alloc(), &text[..len])? {
            print!(rt; " {len}")?;
        }
    }
    println!(rt; " bytes")
}

/// `int x = `, opening parentheses, `1`, closing ones, and `;`.
fn nested(alloc: Global, opened: usize, closed: usize) -> Result<String, AllocError> {
    let mut text = String::from_str(alloc, "int x = ")?;
    for _ in 0..opened {
        text.push_str("(")?;
    }
    text.push_str("1")?;
    for _ in 0..closed {
        text.push_str(")")?;
    }
    text.push_str(";")?;
    Ok(text)
}

fn report_file(rt: &HostRuntime, name: &str) -> io::Result<()> {
    let mut files = RealFiles::new(rt.clone()?);
    let Ok(text) = read_all(rt.alloc(), &mut files, name) else {
        return println!(rt; "{name}: not there");
    };
    report_all(rt, name, &text)?;
    report_prefixes(rt, &text)
}

fn main(rt: HostRuntime) -> io::Result<()> {
    for name in env::args(&rt)?.skip(1) {
        report_file(&rt, name.as_str())?;
    }
    for row in ROWS {
        let name = format!(in rt.alloc(); "{row:?}")?;
        report_all(&rt, name.as_str(), row.as_bytes())?;
    }
    for (opened, closed) in [(252, 252), (253, 253), (PAIRS, PAIRS), (PAIRS, 0)] {
        let text = nested(rt.alloc(), opened, closed)?;
        let name = format!(in rt.alloc(); "{opened} open, {closed} closed")?;
        report(&rt, name.as_str(), text.as_bytes())?;
    }
    Ok(())
}
