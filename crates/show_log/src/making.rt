//! Logs of a few steps over clauses of three variables, put together one by one.

ghost use Rattle.std.specs.Prelude.{◌≡◌, ℕ, ◌≤◌, ◌+◌, length, List, IsTrue, OnOk};
ghost use Rattle.clause_arena.specs.Clause.{IsEachOnce};
ghost use Rattle.res_log.specs.Step.{Step};
ghost use Rattle.res_log.specs.Segments.{AreSoundBelow};

use clause_arena::{ClauseArena, ClauseId, Lit, has_lit};
use res_log::{ChainStep, Log};
use std::alloc::AllocError;

/// The first variable.
pub const A: Lit = Lit {
    var: 0,
    negative: false,
};

/// The second variable.
pub const B: Lit = Lit {
    var: 1,
    negative: false,
};

/// The third variable.
pub const C: Lit = Lit {
    var: 2,
    negative: false,
};

/// The first variable is 0.
pub const NOT_A: Lit = Lit {
    var: 0,
    negative: true,
};

/// The second variable is 0.
pub const NOT_B: Lit = Lit {
    var: 1,
    negative: true,
};

/// The third variable is 0.
pub const NOT_C: Lit = Lit {
    var: 2,
    negative: true,
};

fn is_each_once(lits: &[Lit]) -> bool
    ensures { IsTrue result → IsEachOnce lits.now }
{
    for i in 0..lits.len() {
        if has_lit(&lits[..i], lits[i]) {
            return false;
        }
    }
    true
}

/// Adds a clause. It refuses one that has a literal twice.
pub fn add(arena: &mut ClauseArena, lits: &[Lit]) -> Result<ClauseId, AllocError>
    ensures { (log : List Step) (n : ℕ) → n ≤ length log → AreSoundBelow arena.old.clauses log n → OnOk result (AreSoundBelow arena.new.clauses log n) }
{
    if arena.count() == u32::MAX || !is_each_once(lits) {
        return Err(AllocError);
    }
    let id = arena.push(lits)?;
    Ok(id)
}

/// Adds a clause, and the step that derives it from two. It refuses a clause that has a literal twice.
pub fn derive(
    arena: &mut ClauseArena,
    log: &mut Log,
    lits: &[Lit],
    first: u32,
    second: u32,
    pivot: u32,
) -> Result<ClauseId, AllocError>
    ensures sound { (n : ℕ) → n ≤ length log.old → AreSoundBelow arena.old.clauses log.old n → OnOk result (AreSoundBelow arena.new.clauses log.new n) }
    ensures steps { OnOk result (length log.new ≡ length log.old + 1) }
{
    if arena.count() == u32::MAX || !is_each_once(lits) {
        return Err(AllocError);
    }
    let derived = arena.push(lits)?;
    let link = ChainStep {
        clause: ClauseId(second),
        pivot,
    };
    log.append(derived, ClauseId(first), &[link])?;
    Ok(derived)
}

/// Deletes the clause that the first step derives.
pub fn delete_first(arena: &mut ClauseArena, log: &Log)
    ensures { (n : ℕ) → n ≤ length log.now → AreSoundBelow arena.old.clauses log.now n → AreSoundBelow arena.new.clauses log.now n }
{
    if log.is_empty() {
        return;
    }
    let id = log.derived(0);
    if id.0 >= arena.count() {
        return;
    }
    arena.set_dead(id);
    arena.compact();
}
