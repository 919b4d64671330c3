//! One turn of the search.

ghost use Rattle.std.specs.Prelude.{◌≡◌, ◌<◌, ◌≤◌, ◌+◌, ℕ, true, false, length, Some, MatchOption, IfOk};
ghost use Rattle.clause_arena.specs.Clause.{Clause, clause_at, has, lit, is_below};
ghost use Rattle.cdcl.specs.Pick.{AreKnown};
ghost use Rattle.res_log.specs.Partial.{is_free, is_open};
ghost use Rattle.cdcl.specs.Trail.{AllClauses};
ghost use Rattle.cdcl.specs.Held.{IsKept, vars_of};
ghost use Rattle.cdcl.specs.Work.{IsConflict};
ghost use Rattle.cdcl.specs.Answer.{Keeps, assignment};
ghost use Rattle.cdcl.specs.Turn.{IsTurn, IsOutcome, OnAgain};
ghost use Rattle.cdcl.specs.Watching.{IsWatching};
ghost use Rattle.clause_arena.specs.Arena.{MOST_CLAUSES};

use crate::chooser::Chooser;
use crate::counts::{Counts, propagate_counted};
use crate::learn::{learn, refute};
use crate::restart::{Pace, restart};
use crate::trail::Trail;
use crate::watch::Watches;
use clause_arena::{Bits, ClauseArena, ClauseId, Lit};
use res_log::Log;
use std::alloc::{AllocError, Global};

/// What a turn led to.
#[derive(Drop)]
pub enum Outcome {
    /// A literal was decided, or a clause learned, and the search goes on.
    Again,
    /// The values satisfy each clause.
    Satisfied(Bits),
    /// The empty clause was derived.
    Refuted,
    /// The clause that was learned is the last that the budget allows.
    Spent,
}

/// The values by variable.
pub fn model_of(alloc: Global, trail: &Trail) -> Result<Bits, AllocError>
    requires { vars_of trail.now < 4294967296 }
    ensures size { IfOk result (λ bits. length bits ≡ vars_of trail.now) }
    ensures values { IfOk result (λ bits. (v : ℕ) → v < vars_of trail.now → assignment bits v ≡ has trail.now.lits.items (lit false v)) }
{
    let mut bits: Bits = Bits::new(alloc);
    for var in 0..trail.vars() {
        bits.push(trail.holds(Lit {
            var,
            negative: false,
        }))?;
    }
    Ok(bits)
}

/// The lowest variable with no value.
pub fn lowest_free(trail: &Trail) -> Option<u32>
    requires { vars_of trail.now < 4294967296 }
    ensures { MatchOption result ((v : ℕ) → v < vars_of trail.now → is_free trail.now.lits.items (lit true v) ≡ false) (λ v. (v < vars_of trail.now) × (is_free trail.now.lits.items (lit true v) ≡ true)) }
{
    for var in 0..trail.vars() {
        if trail.is_free(var) {
            return Some(var);
        }
    }
    None
}

/// The variable to decide: the chooser's if that is free, or else the lowest that is.
pub fn next_decision(chooser: &mut Box<dyn Chooser>, trail: &Trail) -> Option<u32>
    requires vars { vars_of trail.now < 4294967296 }
    requires ready { ready_for chooser.old ≡ vars_of trail.now }
    requires known { AreKnown (knows chooser.old) trail.now.values.items }
    ensures free { MatchOption result ((v : ℕ) → v < vars_of trail.now → is_free trail.now.lits.items (lit true v) ≡ false) (λ v. (v < vars_of trail.now) × (is_free trail.now.lits.items (lit true v) ≡ true)) }
    ensures ready { ready_for chooser.new ≡ ready_for chooser.old }
    ensures known { AreKnown (knows chooser.new) trail.now.values.items }
{
    let pick = chooser.pick(trail.values.as_slice());
    if pick < trail.vars() && trail.is_free(pick) {
        return Some(pick);
    }
    lowest_free(trail)
}

/// Tells the chooser of a clause that was derived.
pub fn report(chooser: &mut Box<dyn Chooser>, lits: &[Lit])
    requires { is_below (ready_for chooser.old) lits.now ≡ true }
    ensures ready { ready_for chooser.new ≡ ready_for chooser.old }
    ensures known { (v : ℕ) → knows chooser.old v ≡ true → knows chooser.new v ≡ true }
    ensures heard { heard chooser.new ≡ hears chooser.old lits.now }
{
    chooser.learned(lits);
}

/// Derives a clause from a conflict.
pub fn end_conflict(
    alloc: Global,
    arena: &mut ClauseArena,
    log: &mut Log,
    trail: &mut Trail,
    watches: &mut Watches,
    chooser: &mut Box<dyn Chooser>,
    budget: u64,
    pace: &mut Pace,
    conflict: ClauseId,
) -> Result<Outcome, AllocError>
    requires room { length arena.old.clauses < MOST_CLAUSES }
    requires vars { vars_of trail.old < 4294967296 }
    requires below { AllClauses (is_below (vars_of trail.old)) arena.old.clauses }
    requires open { AllClauses is_open arena.old.clauses }
    requires kept { IsKept arena.old.clauses trail.old }
    requires watching { IsWatching arena.old.clauses trail.old watches.old }
    requires conflict { IsConflict arena.old.clauses trail.old.lits.items conflict }
    requires ready { ready_for chooser.old ≡ vars_of trail.old }
    requires known { AreKnown (knows chooser.old) trail.old.values.items }
    ensures outcome { IfOk result (IsOutcome arena.old.clauses log.old trail.old arena.new.clauses log.new trail.new budget) }
    ensures watching { IfOk result (OnAgain (IsWatching arena.new.clauses trail.new watches.new)) }
    ensures ready { ready_for chooser.new ≡ ready_for chooser.old }
    ensures known { IfOk result (OnAgain (AreKnown (knows chooser.new) trail.new.values.items)) }
    // The chooser heard of the clause that was derived.
    ensures told { IfOk result (OnAgain ((c : Clause) → clause_at arena.new.clauses (length arena.old.clauses) ≡ Some c → heard chooser.new ≡ hears chooser.old c)) }
    ensures clauses { Keeps arena.old.clauses arena.new.clauses }
    ensures bounded { length arena.new.clauses ≤ length arena.old.clauses + 1 }
{
    let start = match trail.last_decision() {
        Some(start) => start,
        None => {
            refute(alloc, arena, log, trail, conflict)?;
            return Ok(Outcome::Refuted);
        }
    };
    let id = learn(alloc, arena, log, trail, watches, chooser, conflict, start)?;
    if log.len() == budget {
        return Ok(Outcome::Spent);
    }
    report(chooser, arena.lits(id));
    restart(arena, trail, watches, chooser, pace);
    Ok(Outcome::Again)
}

/// Propagates, and then decides a literal or derives a clause.
pub fn turn(
    alloc: Global,
    arena: &mut ClauseArena,
    log: &mut Log,
    trail: &mut Trail,
    watches: &mut Watches,
    chooser: &mut Box<dyn Chooser>,
    budget: u64,
    pace: &mut Pace,
    counts: &mut Counts,
) -> Result<Outcome, AllocError>
    requires room { length arena.old.clauses < MOST_CLAUSES }
    requires vars { vars_of trail.old < 4294967296 }
    requires below { AllClauses (is_below (vars_of trail.old)) arena.old.clauses }
    requires open { AllClauses is_open arena.old.clauses }
    requires kept { IsKept arena.old.clauses trail.old }
    requires watching { IsWatching arena.old.clauses trail.old watches.old }
    requires ready { ready_for chooser.old ≡ vars_of trail.old }
    requires known { AreKnown (knows chooser.old) trail.old.values.items }
    ensures turned { IfOk result (IsTurn arena.old.clauses log.old trail.old arena.new.clauses log.new trail.new budget) }
    ensures watching { IfOk result (OnAgain (IsWatching arena.new.clauses trail.new watches.new)) }
    ensures ready { ready_for chooser.new ≡ ready_for chooser.old }
    ensures known { IfOk result (OnAgain (AreKnown (knows chooser.new) trail.new.values.items)) }
    // The chooser heard of the clause that was derived.
    ensures told { IfOk result (OnAgain ((c : Clause) → clause_at arena.new.clauses (length arena.old.clauses) ≡ Some c → heard chooser.new ≡ hears chooser.old c)) }
    ensures clauses { Keeps arena.old.clauses arena.new.clauses }
    ensures bounded { length arena.new.clauses ≤ length arena.old.clauses + 1 }
{
    match propagate_counted(arena, trail, watches, counts)? {
        Some(conflict) => {
            return end_conflict(
                alloc, arena, log, trail, watches, chooser, budget, pace, conflict,
            );
        }
        None => {}
    }
    match next_decision(chooser, trail) {
        Some(var) => {
            trail.push(
                Lit {
                    var,
                    negative: true,
                },
                None,
            )?;
            Ok(Outcome::Again)
        }
        None => Ok(Outcome::Satisfied(model_of(alloc, trail)?)),
    }
}
