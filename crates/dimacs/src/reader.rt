//! Clauses in the DIMACS form (Satisfiability suggested format, 1993): comment lines that begin with
//! `c`, a line that begins with `p`, and clauses as numbers that end with a 0, a negative number
//! being the negation of a variable. Variables are counted from 1.

ghost use Rattle.std.specs.Prelude.{◌≡◌, ◌<◌, true, length, IfOk};
ghost use Rattle.clause_arena.specs.Clause.{has, IsEachOnce};
ghost use Rattle.clause_arena.specs.declared.Lit.{Lit};

use clause_arena::{ClauseArena, Lit, has_lit};
use std::alloc::{AllocError, Global};

/// The most variables that are read.
const MOST_VARS: u64 = 10_000_000;

/// The most clauses that are read.
const MOST_CLAUSES: u32 = 1_000_000_000;

/// The same set, with no literal twice.
pub fn each_once(alloc: Global, lits: &[Lit]) -> Result<Vec<Lit>, AllocError>
    ensures once { IfOk result (λ out. IsEachOnce out.items) }
{
    let mut out: Vec<Lit> = Vec::new(alloc);
    for l in lits {
        if has_lit(out.as_slice(), *l) {
            continue;
        }
        out.push(*l)?;
    }
    Ok(out)
}

/// What a file says.
#[derive(Drop)]
pub struct Problem {
    pub arena: ClauseArena,
    pub vars: u32,
}

/// Puts a clause into the arena, if there is room.
fn store(alloc: Global, arena: &mut ClauseArena, lits: &[Lit]) -> Result<bool, AllocError> {
    if arena.count() >= MOST_CLAUSES {
        return Ok(false);
    }
    let clause = each_once(alloc, lits)?;
    arena.push(clause.as_slice())?;
    Ok(true)
}

/// The literal of a number other than 0.
fn literal(number: i64) -> Option<Lit> {
    let magnitude = number.unsigned_abs();
    if magnitude == 0 || magnitude > MOST_VARS {
        return None;
    }
    Some(Lit {
        var: (magnitude - 1) as u32,
        negative: number < 0,
    })
}

/// Reads the numbers of one line. `false` if it has another word.
fn read_line(
    alloc: Global,
    problem: &mut Problem,
    clause: &mut Vec<Lit>,
    line: &str,
) -> Result<bool, AllocError> {
    for word in line.split_whitespace() {
        let Ok(number) = word.parse::<i64>() else {
            return Ok(false);
        };
        match literal(number) {
            Some(l) => {
                problem.vars = problem.vars.max(l.var.saturating_add(1));
                clause.push(l)?;
            }
            None => {
                if number != 0 || !store(alloc, &mut problem.arena, clause.as_slice())? {
                    return Ok(false);
                }
                clause.clear();
            }
        }
    }
    Ok(true)
}

/// The clauses of a text, up to a line with another word or too much.
pub fn read(alloc: Global, text: &str) -> Result<Problem, AllocError> {
    let mut problem = Problem {
        arena: ClauseArena::new(alloc),
        vars: 0,
    };
    let mut clause: Vec<Lit> = Vec::new(alloc);
    for line in text.lines() {
        if line.starts_with('c') || line.starts_with('p') {
            continue;
        }
        if !read_line(alloc, &mut problem, &mut clause, line)? {
            break;
        }
    }
    Ok(problem)
}
