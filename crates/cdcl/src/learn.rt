//! Derived clauses are stored and logged, and the trail goes back.

ghost use Rattle.std.specs.Prelude.{◌≡◌, ◌<◌, ◌≤◌, ◌+◌, ◌++◌, ◌∷◌, [], ℕ, true, false, length, take, slice_index_or, Option, Some, None, MatchOption, IfOk, OnOk};
ghost use Rattle.clause_arena.specs.Clause.{Clause, has, is_below, clause_at};
ghost use Rattle.cdcl.specs.Pick.{AreKnown};
ghost use Rattle.clause_arena.specs.declared.ClauseId.{ClauseId};
ghost use Rattle.clause_arena.specs.declared.Lit.{Lit as TrueLit};
ghost use Rattle.res_log.specs.Partial.{IsAsserting, is_false, is_free, is_forced, is_quiet, is_open};
ghost use Rattle.cdcl.specs.Trail.{AllClauses, AreForcedFrom, IsLastDecision};
ghost use Rattle.cdcl.specs.Held.{IsKept, vars_of, reasons_of};
ghost use Rattle.cdcl.specs.Work.{IsConflict};
ghost use Rattle.cdcl.specs.Grown.{IsLearned, IsRefuted};
ghost use Rattle.cdcl.specs.Answer.{Keeps};
ghost use Rattle.cdcl.specs.Watching.{IsWatching, HasNewest, IsBefore};
ghost use Rattle.clause_arena.specs.Arena.{MOST_CLAUSES};

use crate::analyze::{resolve_back, resolve_to_empty};
use crate::chooser::Chooser;
use crate::going_back::go_back;
use crate::shorten::shorten;
use crate::trail::{Trail, negated};
use crate::watch::{Pair, Watches};
use clause_arena::{ClauseArena, ClauseId, Lit};
use res_log::{ChainStep, Log};
use std::alloc::{AllocError, Global};

/// The place after the newest of the clause's literals before `start`, or 0.
pub fn after_others(trail: &Trail, learned: &[Lit], start: usize) -> usize
    requires falsified { is_false trail.now.lits.items learned.now ≡ true }
    requires asserting { IsAsserting (take start trail.now.lits.items) learned.now }
    requires place { start ≤ length trail.now.lits.items }
    ensures within { result ≤ start }
    ensures asserting { (k : ℕ) → result ≤ k → k ≤ start → IsAsserting (take k trail.now.lits.items) learned.now }
    ensures quiet { (k : ℕ) → k < result → is_quiet (take k trail.now.lits.items) learned.now ≡ true }
    // The literal at the last place before it is one that makes a literal of the clause false.
    ensures last { (m : TrueLit) → IsBefore trail.now.lits.items result m → has learned.now m ≡ true }
{
    let mut end = 0;
    for l in learned {
        let place = trail.places[l.var as usize];
        if start <= place {
            continue;
        }
        if place < end {
            continue;
        }
        end = place + 1;
    }
    end
}

/// Where a learned clause becomes asserting, and the newest of its literals that are false there.
#[derive(Clone, Copy)]
pub struct Level {
    pub end: usize,
    pub newest: Option<Lit>,
}

/// The literal that the one before a place made false.
pub fn falsified_before(trail: &Trail, from: usize) -> Option<Lit>
    requires { from ≤ length trail.now.lits.items }
    ensures { MatchOption result (from ≡ 0) (IsBefore trail.now.lits.items from) }
{
    if from == 0 {
        return None;
    }
    Some(negated(trail.lits[from - 1]))
}

/// Where the second greatest level of the learned clause ends, or level 0 if it has one literal.
/// `start` is where the greatest one begins.
pub fn level_end(trail: &Trail, learned: &[Lit], start: usize) -> Level
    requires falsified { is_false trail.now.lits.items learned.now ≡ true }
    requires asserting { IsAsserting (take start trail.now.lits.items) learned.now }
    requires place { start < length trail.now.lits.items }
    requires decided { (o : Option ClauseId) → slice_index_or (reasons_of trail.now) start o ≡ None }
    ensures within { result.end ≤ start }
    ensures decided { (o : Option ClauseId) → slice_index_or (reasons_of trail.now) result.end o ≡ None }
    ensures asserting { IsAsserting (take result.end trail.now.lits.items) learned.now }
    ensures quiet { (k : ℕ) (o : Option ClauseId) → k < result.end → slice_index_or (reasons_of trail.now) k o ≡ None → is_quiet (take k trail.now.lits.items) learned.now ≡ true }
    ensures newest { HasNewest trail.now.lits.items (reasons_of trail.now) learned.now result.end result.newest }
{
    let from = after_others(trail, learned, start);
    let newest = falsified_before(trail, from);
    for k in from..start {
        match trail.reason_at(k) {
            Some(_) => continue,
            None => return Level { end: k, newest },
        }
    }
    Level { end: start, newest }
}

/// The literal of an asserting clause that is free.
pub fn asserted(trail: &Trail, clause: &[Lit]) -> Lit
    requires below { is_below (vars_of trail.now) clause.now ≡ true }
    requires asserting { IsAsserting trail.now.lits.items clause.now }
    ensures free { is_free trail.now.lits.items result ≡ true }
    ensures forced { is_forced trail.now.lits.items result clause.now ≡ true }
{
    for l in clause {
        if trail.is_free(l.var) {
            return *l;
        }
    }
    unreachable!()
}

/// Learns a clause from a conflict above level 0, in room that was made for it, goes back, and makes
/// the clause's free literal true.
pub fn learn_reserved(
    alloc: Global,
    arena: &mut ClauseArena,
    log: &mut Log,
    trail: &mut Trail,
    watches: &mut Watches,
    chooser: &mut Box<dyn Chooser>,
    conflict: ClauseId,
    start: usize,
) -> Result<ClauseId, AllocError>
    requires room { length arena.old.clauses < MOST_CLAUSES }
    requires spare_clause { 0 < arena.old.spare_clauses }
    requires spare_lits { vars_of trail.old ≤ arena.old.spare_lits }
    requires below { AllClauses (is_below (vars_of trail.old)) arena.old.clauses }
    requires kept { IsKept arena.old.clauses trail.old }
    requires watching { IsWatching arena.old.clauses trail.old watches.old }
    requires last { IsLastDecision (reasons_of trail.old) start }
    requires conflict { IsConflict arena.old.clauses trail.old.lits.items conflict }
    requires ready { ready_for chooser.old ≡ vars_of trail.old }
    requires known { AreKnown (knows chooser.old) trail.old.values.items }
    ensures learned { OnOk result (IsLearned (vars_of trail.old) arena.old.clauses log.old arena.new.clauses log.new) }
    ensures next { IfOk result (λ id. id.0 ≡ length arena.old.clauses) }
    ensures kept { OnOk result (IsKept arena.new.clauses trail.new) }
    ensures watching { OnOk result (IsWatching arena.new.clauses trail.new watches.new) }
    ensures vars { OnOk result (vars_of trail.new ≡ vars_of trail.old) }
    ensures ready { ready_for chooser.new ≡ ready_for chooser.old }
    ensures known { OnOk result (AreKnown (knows chooser.new) trail.new.values.items) }
    ensures hears { (c : Clause) → hears chooser.new c ≡ hears chooser.old c }
    ensures clauses { Keeps arena.old.clauses arena.new.clauses }
    ensures bounded { length arena.new.clauses ≤ length arena.old.clauses + 1 }
{
    let mut steps: Vec<ChainStep> = Vec::new(alloc);
    let derived = resolve_back(alloc, arena, trail, start, conflict, &mut steps)?;
    let learned = shorten(alloc, arena, trail, start, conflict, derived, &mut steps)?;
    let level = level_end(trail, learned.as_slice(), start);
    go_back(trail, chooser, level.end);
    let id = arena.push_reserved(learned.as_slice());
    log.append(id, conflict, &steps)?;
    let first = asserted(trail, learned.as_slice());
    let second = level.newest.unwrap_or(first);
    trail.push(first, Some(id))?;
    watches.set_head(level.end);
    watches.watch(id, Pair { first, second })?;
    Ok(id)
}

/// Makes room and learns a clause, so that no clause that was derived is refused.
pub fn learn(
    alloc: Global,
    arena: &mut ClauseArena,
    log: &mut Log,
    trail: &mut Trail,
    watches: &mut Watches,
    chooser: &mut Box<dyn Chooser>,
    conflict: ClauseId,
    start: usize,
) -> Result<ClauseId, AllocError>
    requires room { length arena.old.clauses < MOST_CLAUSES }
    requires vars { vars_of trail.old < 4294967296 }
    requires below { AllClauses (is_below (vars_of trail.old)) arena.old.clauses }
    requires kept { IsKept arena.old.clauses trail.old }
    requires watching { IsWatching arena.old.clauses trail.old watches.old }
    requires last { IsLastDecision (reasons_of trail.old) start }
    requires conflict { IsConflict arena.old.clauses trail.old.lits.items conflict }
    requires ready { ready_for chooser.old ≡ vars_of trail.old }
    requires known { AreKnown (knows chooser.old) trail.old.values.items }
    ensures learned { OnOk result (IsLearned (vars_of trail.old) arena.old.clauses log.old arena.new.clauses log.new) }
    ensures next { IfOk result (λ id. id.0 ≡ length arena.old.clauses) }
    ensures kept { OnOk result (IsKept arena.new.clauses trail.new) }
    ensures watching { OnOk result (IsWatching arena.new.clauses trail.new watches.new) }
    ensures vars { OnOk result (vars_of trail.new ≡ vars_of trail.old) }
    ensures ready { ready_for chooser.new ≡ ready_for chooser.old }
    ensures known { OnOk result (AreKnown (knows chooser.new) trail.new.values.items) }
    ensures hears { (c : Clause) → hears chooser.new c ≡ hears chooser.old c }
    ensures clauses { Keeps arena.old.clauses arena.new.clauses }
    ensures bounded { length arena.new.clauses ≤ length arena.old.clauses + 1 }
{
    arena.reserve(1, trail.vars())?;
    learn_reserved(alloc, arena, log, trail, watches, chooser, conflict, start)
}

/// Logs the empty clause from a conflict at level 0.
pub fn refute(
    alloc: Global,
    arena: &mut ClauseArena,
    log: &mut Log,
    trail: &Trail,
    conflict: ClauseId,
) -> Result<(), AllocError>
    requires room { length arena.old.clauses < MOST_CLAUSES }
    requires below { AllClauses (is_below (vars_of trail.now)) arena.old.clauses }
    requires open { AllClauses is_open arena.old.clauses }
    requires kept { IsKept arena.old.clauses trail.now }
    requires forced { AreForcedFrom (reasons_of trail.now) 0 }
    requires conflict { IsConflict arena.old.clauses trail.now.lits.items conflict }
    ensures refuted { OnOk result (IsRefuted arena.old.clauses log.old arena.new.clauses log.new) }
    ensures clauses { Keeps arena.old.clauses arena.new.clauses }
    ensures bounded { length arena.new.clauses ≤ length arena.old.clauses + 1 }
{
    let mut steps: Vec<ChainStep> = Vec::new(alloc);
    resolve_to_empty(alloc, arena, trail, conflict, &mut steps)?;
    let empty = arena.push(&[])?;
    log.append(empty, conflict, &steps)?;
    Ok(())
}
