//! Prints what typing gives for worked texts: `show_typed FILE..`. A file holds texts of C, each behind a line `//// NAME`,
//! without the end of its last line. Of a text whose name begins with `program` the whole typed program is printed; with
//! `mirror`, the links of its mirror to a module made by hand; with `run`, how its run beside a module that has nothing ends.
//! What has to be printed was worked out by hand from the rules, or is what gcc gives.
#![tactic(auto)]

ghost use Rattle.std.specs.Prelude.{◌^◌, ◌<◌, length};

mod expressions;
mod links;
mod program;
mod runs;
mod statements;

use io_edge::{RealFiles, read_all};
use links::print_mirror;
use program::print_program;
use runs::print_run;
use src_text::Refusal;
use std::{env, io, str};
use typed_texts::{TypedText, typed_text};

/// What comes before the name of a text.
const MARK: &str = "//// ";

fn print_text<R: Print + AllocGlobal>(rt: &R, name: &str, text: &str) -> io::Result<()> {
    println!(rt; "{name}")?;
    match typed_text(rt.alloc(), text.as_bytes())? {
        TypedText::Refused(Refusal { place, kind, .. }) => {
            println!(rt; "  {}:{} {}", place.line, place.column, kind.text())
        }
        TypedText::Typed(program) if name.starts_with("program") => print_program(rt, &program),
        TypedText::Typed(program) if name.starts_with("mirror") => print_mirror(rt, &program),
        TypedText::Typed(program) if name.starts_with("run") => print_run(rt, program),
        TypedText::Typed(_) => println!(rt; "  typed"),
        TypedText::TooLong => println!(rt; "  too long"),
    }
}

/// A name, the end of its line, a text, and the end of its last line.
fn print_row<R: Print + AllocGlobal>(rt: &R, row: &str) -> io::Result<()> {
    match row.split_once('\n') {
        None => Ok(()),
        Some((name, text)) => print_text(rt, name, text.trim_end()),
    }
}

fn print_rows<R: Print + AllocGlobal>(rt: &R, file: &str) -> io::Result<()> {
    let mut rest = file;
    for _ in 0..file.len() {
        let Some((row, behind)) = rest.split_once(MARK) else {
            break;
        };
        print_row(rt, row)?;
        rest = behind;
    }
    print_row(rt, rest)
}

fn print_file(rt: &HostRuntime, name: &str) -> io::Result<()> {
    let mut files = RealFiles::new(rt.clone()?);
    let Ok(bytes) = read_all(rt.alloc(), &mut files, name) else {
        return println!(rt; "{name}: not there");
    };
    match str::from_utf8(&bytes) {
        Ok(text) => print_rows(rt, text),
        Err(_) => println!(rt; "{name}: not UTF-8"),
    }
}

fn main(rt: HostRuntime) -> io::Result<()> {
    for name in env::args(&rt)?.skip(1) {
        print_file(&rt, name.as_str())?;
    }
    Ok(())
}
