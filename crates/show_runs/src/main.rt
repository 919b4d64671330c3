//! The lists of all runs of programs, walked on random assignments: `show_runs FILE..`. Each file is a C program without
//! mirror, which stands beside a module that has nothing. Of each walk the choices that it reads are run by `replay`: the run
//! has to break what the walk breaks, and to draw just so many choices. A line says how many walks do, and how their runs end.
#![tactic(auto)]

ghost use Rattle.std.specs.Prelude.{◌≡◌, None};
ghost use Rattle.joint_ir.specs.WellFormed.{FitsProgram};

mod ends;
mod pairs;
mod random;
mod walks;

use io_edge::{RealFiles, read_all};
use joint_ir::CProgram;
use pairs::print_pair;
use src_text::Refusal;
use std::{env, io};
use typed_texts::{TypedText, typed_text};

fn print_program<R: Print + AllocGlobal>(rt: &R, program: CProgram) -> io::Result<()>
    requires { FitsProgram program }
{
    if !unwound_forms::is_made(&program) {
        return println!(rt; "not unwound");
    }
    match &program.mirror {
        Some(_) => println!(rt; "has a mirror"),
        None => print_pair(rt, program),
    }
}

fn print_text<R: Print + AllocGlobal>(rt: &R, text: &[u8]) -> io::Result<()> {
    match typed_text(rt.alloc(), text)? {
        TypedText::Typed(program) => print_program(rt, program),
        TypedText::Refused(Refusal { place, kind, .. }) => {
            println!(rt; "{}:{} {}", place.line, place.column, kind.text())
        }
        TypedText::TooLong => println!(rt; "too long"),
    }
}

fn print_file(rt: &HostRuntime, name: &str) -> io::Result<()> {
    print!(rt; "{name}: ")?;
    let mut files = RealFiles::new(rt.clone()?);
    match read_all(rt.alloc(), &mut files, name) {
        Ok(text) => print_text(rt, &text),
        Err(_) => println!(rt; "not there"),
    }
}

fn main(rt: HostRuntime) -> io::Result<()> {
    for name in env::args(&rt)?.skip(1) {
        print_file(&rt, name.as_str())?;
    }
    Ok(())
}
