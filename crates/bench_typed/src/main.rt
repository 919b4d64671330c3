//! Times the typing of made texts of C: `bench_typed COUNT` types a function of COUNT statements, COUNT objects, COUNT
//! functions, and a mirror of COUNT members. It prints how large each program is, and with a second word the milliseconds of
//! processor time, without those of reading the text, on standard error.
#![tactic(auto)]

ghost use Rattle.std.specs.Prelude.{◌^◌, ◌<◌, length};

use c_parse::{ParseEnd, parse_c};
use c_tree::CTree;
use c_types::{TypeEnd, typed};
use joint_ir::CProgram;
use src_text::Refusal;
use std::alloc::{AllocError, Global};
use std::time::CpuClock;
use std::{env, io};

/// The size of a run that names none.
const COUNT: usize = 100;

/// What a text has many of.
#[derive(Clone, Copy)]
enum Many {
    Statements,
    Objects,
    Functions,
    Members,
}

const ALL: [Many; 4] = [
    Many::Statements,
    Many::Objects,
    Many::Functions,
    Many::Members,
];

fn name(many: Many) -> &'static str {
    match many {
        Many::Statements => "statements",
        Many::Objects => "objects",
        Many::Functions => "functions",
        Many::Members => "members",
    }
}

fn first(many: Many) -> &'static str {
    match many {
        Many::Statements => "int n; int main(void) {\n",
        Many::Objects | Many::Functions => "",
        Many::Members => "struct m {\n",
    }
}

fn last(many: Many) -> &'static str {
    match many {
        Many::Statements => "}\n",
        Many::Objects | Many::Functions => "int main(void) { }\n",
        Many::Members => "}; extern struct m top; int main(void) { }\n",
    }
}

fn push_part(text: &mut String, many: Many, i: usize) -> Result<(), AllocError> {
    match many {
        Many::Statements => text.push_str("n = n + 1;\n"),
        Many::Objects => write!(text, "int n{i} = 1;\n"),
        Many::Functions => write!(text, "int f{i}(int a) {{ return a + 1; }}\n"),
        Many::Members => write!(text, "int m{i};\n"),
    }
}

fn made(alloc: Global, many: Many, count: usize) -> Result<String, AllocError> {
    let mut text = String::from_str(alloc, first(many))?;
    for i in 0..count {
        push_part(&mut text, many, i)?;
    }
    text.push_str(last(many))?;
    Ok(text)
}

fn read(alloc: Global, text: &[u8]) -> Result<Result<CTree, Refusal>, AllocError>
    requires { length text.now < 2 ^ 30 }
{
    match parse_c(alloc, text) {
        Ok(tree) => Ok(Ok(tree)),
        Err(ParseEnd::Refused(refusal)) => Ok(Err(refusal)),
        Err(ParseEnd::Memory) => Err(AllocError),
    }
}

fn outcome_of(alloc: Global, tree: &CTree) -> Result<Result<CProgram, Refusal>, AllocError> {
    match typed(alloc, tree) {
        Ok(program) => Ok(Ok(program)),
        Err(TypeEnd::Refused(refusal)) => Ok(Err(refusal)),
        Err(TypeEnd::Memory) => Err(AllocError),
    }
}

fn members(program: &CProgram) -> usize {
    match &program.mirror {
        None => 0,
        Some(mirror) => mirror.members.len(),
    }
}

fn print_refusal<R: Print>(rt: &R, name: &str, refusal: Refusal) -> io::Result<()> {
    let Refusal { place, kind, .. } = refusal;
    let why = kind.text();
    println!(rt; "{name}: {why} at {}:{}", place.line, place.column)
}

fn print_program<R: Print>(rt: &R, name: &str, program: &CProgram) -> io::Result<()> {
    let functions = program.functions.len();
    let objects = program.globals.len();
    let properties = program.props.len();
    let members = members(program);
    println!(rt;
        "{name}: {functions} functions, {objects} objects, {members} members, {properties} properties"
    )
}

fn report_tree<R: Print + Eprint + CpuClock + AllocGlobal>(
    rt: &R,
    name: &str,
    tree: &CTree,
    times: bool,
) -> io::Result<()> {
    let start = rt.process_cpu_time()?;
    let outcome = outcome_of(rt.alloc(), tree)?;
    if times {
        let took = rt.process_cpu_time()?.saturating_sub(start).as_millis();
        eprintln!(rt; "{name}: {took} ms")?;
    }
    match outcome {
        Ok(program) => print_program(rt, name, &program),
        Err(refusal) => print_refusal(rt, name, refusal),
    }
}

fn report<R: Print + Eprint + CpuClock + AllocGlobal>(
    rt: &R,
    many: Many,
    count: usize,
    times: bool,
) -> io::Result<()> {
    let text = made(rt.alloc(), many, count)?;
    if text.len() >= 1 << 30 {
        return Ok(());
    }
    match read(rt.alloc(), text.as_bytes())? {
        Ok(tree) => report_tree(rt, name(many), &tree, times),
        Err(refusal) => print_refusal(rt, name(many), refusal),
    }
}

fn main(rt: HostRuntime) -> io::Result<()> {
    let mut words = env::args(&rt)?;
    let count = match words.nth(1) {
        Some(word) => word.as_str().parse::<usize>().unwrap_or(COUNT),
        None => COUNT,
    };
    let times = words.next().is_some();
    for many in ALL {
        report(&rt, many, count, times)?;
    }
    Ok(())
}
