//! Solves clauses in the DIMACS form, given on the standard input, and prints whether they have a
//! model. With a word behind its name it also prints how many clauses were derived, one for each
//! conflict, and how many literals clauses forced.
#![tactic(auto)]

mod reader;

use cdcl::{ActivityChooser, Chooser, Counts, Solved, has_vars_below, solve_counted};
use reader::{Problem, read};
use std::alloc::{AllocError, Global};
use std::env;
use std::io::{self, Print};

/// How many clauses are derived at most.
const BUDGET: u64 = 10_000_000;

/// How many clauses are solved at most.
const MOST_CLAUSES: u32 = 1_000_000_000;

/// Solves, and says how the answer is written.
fn answer(
    alloc: Global,
    problem: &mut Problem,
    chooser: &mut Box<dyn Chooser>,
    counts: &mut Counts,
) -> Result<&'static str, AllocError> {
    if problem.arena.count() > MOST_CLAUSES || !has_vars_below(&problem.arena, problem.vars) {
        return Ok("s UNKNOWN");
    }
    match solve_counted(
        alloc,
        &mut problem.arena,
        problem.vars,
        chooser,
        BUDGET,
        counts,
    )? {
        Solved::Model(_) => Ok("s SATISFIABLE"),
        Solved::Refuted(_) => Ok("s UNSATISFIABLE"),
        Solved::Spent(_) => Ok("s UNKNOWN"),
    }
}

/// Solves the clauses of a text, and prints the answer.
fn run<R: Print>(
    rt: &R,
    alloc: Global,
    text: &str,
    chooser: &mut Box<dyn Chooser>,
    shows_counts: bool,
) -> io::Result<()> {
    let mut problem = read(alloc, text)?;
    let before = problem.arena.count();
    let mut counts = Counts { propagations: 0 };
    let answer = answer(alloc, &mut problem, chooser, &mut counts)?;
    println!(rt; "{answer}")?;
    if !shows_counts {
        return Ok(());
    }
    let conflicts = problem.arena.count().saturating_sub(before);
    let propagations = counts.propagations;
    println!(rt; "c conflicts {conflicts}\nc propagations {propagations}")
}

fn main(rt: HostRuntime) -> io::Result<()> {
    let alloc = rt.alloc();
    let shows_counts = env::args(&rt)?.nth(1).is_some();
    let text = io::read_to_string(alloc, rt.reader())?;
    let mut chooser: Box<dyn Chooser> = Box::new(alloc, ActivityChooser::new(alloc))?;
    run(&rt, alloc, text.as_str(), &mut chooser, shows_counts)
}
