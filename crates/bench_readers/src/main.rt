//! Times the reading of made texts: `bench_readers BYTES` reads in each language a text of many parts, one of a single long sum,
//! and one of parentheses that are not closed, each of about BYTES bytes. It prints what comes of each, and with a second word
//! the milliseconds of processor time on standard error.
#![tactic(auto)]

ghost use Rattle.std.specs.Prelude.{◌^◌, ◌<◌, length};

use c_parse::{ParseEnd as CEnd, parse_c};
use src_text::Refusal;
use std::alloc::{AllocError, Global};
use std::time::CpuClock;
use std::{env, io};
use v_parse::{ParseEnd as VEnd, parse_v};

/// The size of a run that names none.
const BYTES: usize = 3000;

#[derive(Clone, Copy)]
enum Language {
    C,
    Verilog,
}

/// A text that is made of one part over and over, between others.
struct Made {
    language: Language,
    name: &'static str,
    first: &'static str,
    more: &'static str,
    last: &'static str,
}

const MADE: [Made; 6] = [
    Made {
        language: Language::C,
        name: "functions",
        first: "",
        more: "int f(unsigned a, int b) { for (int i = 0; i < 10; i++) { a += b * 0x1Fu; if (a > 7) return a - (b + i); } return 0; }\n",
        last: "",
    },
    Made {
        language: Language::C,
        name: "sum in C",
        first: "int x = 1",
        more: "+1",
        last: ";",
    },
    Made {
        language: Language::C,
        name: "parentheses in C",
        first: "int x = ",
        more: "(",
        last: "1;",
    },
    Made {
        language: Language::Verilog,
        name: "modules",
        first: "",
        more: "module m(input clk, input [7:0] a, output reg [7:0] y); always @(posedge clk) if (a > 3) y <= y + (a ^ 8'h1F); else y <= a - 1; endmodule\n",
        last: "",
    },
    Made {
        language: Language::Verilog,
        name: "sum in Verilog",
        first: "module m(output y); assign y = 1",
        more: "+1",
        last: "; endmodule",
    },
    Made {
        language: Language::Verilog,
        name: "parentheses in Verilog",
        first: "module m(output y); assign y = ",
        more: "(",
        last: "1; endmodule",
    },
];

impl Made {
    fn text(&self, alloc: Global, bytes: usize) -> Result<String, AllocError> {
        let mut text = String::from_str(alloc, self.first)?;
        for _ in 0..bytes / self.more.len().max(1) {
            text.push_str(self.more)?;
        }
        text.push_str(self.last)?;
        Ok(text)
    }
}

/// What comes of a text.
#[derive(Drop)]
enum Outcome {
    /// It has a tree, of so many external declarations or modules.
    Read(usize),
    Refused(Refusal),
}

fn outcome_of(alloc: Global, language: Language, text: &[u8]) -> Result<Outcome, AllocError>
    requires { length text.now < 2 ^ 30 }
{
    match language {
        Language::C => match parse_c(alloc, text) {
            Ok(tree) => Ok(Outcome::Read(tree.externals.len())),
            Err(CEnd::Refused(refusal)) => Ok(Outcome::Refused(refusal)),
            Err(CEnd::Memory) => Err(AllocError),
        },
        Language::Verilog => match parse_v(alloc, text) {
            Ok(tree) => Ok(Outcome::Read(tree.modules.len())),
            Err(VEnd::Refused(refusal)) => Ok(Outcome::Refused(refusal)),
            Err(VEnd::Memory) => Err(AllocError),
        },
    }
}

fn report<R: Print + Eprint + CpuClock + AllocGlobal>(
    rt: &R,
    made: &Made,
    bytes: usize,
    times: bool,
) -> io::Result<()> {
    let name = made.name;
    let text = made.text(rt.alloc(), bytes)?;
    if text.len() >= 1 << 30 {
        return Ok(());
    }
    let start = rt.process_cpu_time()?;
    let outcome = outcome_of(rt.alloc(), made.language, text.as_bytes())?;
    if times {
        let took = rt.process_cpu_time()?.saturating_sub(start).as_millis();
        eprintln!(rt; "{name}: {took} ms")?;
    }
    match outcome {
        Outcome::Read(parts) => println!(rt; "{name}: {parts} read"),
        Outcome::Refused(Refusal { place, kind, .. }) => {
            let why = kind.text();
            println!(rt; "{name}: {why} at {}:{}", place.line, place.column)
        }
    }
}

fn main(rt: HostRuntime) -> io::Result<()> {
    let mut words = env::args(&rt)?;
    let bytes = match words.nth(1) {
        Some(word) => word.as_str().parse::<usize>().unwrap_or(BYTES),
        None => BYTES,
    };
    let times = words.next().is_some();
    for made in &MADE {
        report(&rt, made, bytes, times)?;
    }
    Ok(())
}
