//! The check of a log in segments: what was derived and checked may be dead by the next one.
ghost use Rattle.std.specs.Prelude.{◌≡◌, ◌-◌, ◌<◌, ◌≤◌, ◌↔◌, length, slice_index_or, IfOk, IfErr, OnOk, OnErr, IsSome, IsTrue};
ghost use Rattle.clause_arena.specs.Clause.{clause_at};
ghost use Rattle.res_log.specs.Step.{Step};
ghost use Rattle.res_log.specs.Log.{IsSound, EndsEmpty};
ghost use Rattle.res_log.specs.CheckEnd.{IfBad};
ghost use Rattle.res_log.specs.Segments.{AreSoundBelow, AreLiveSteps, IsNextBadStep};

use crate::checks::{ends_empty, is_live_step};
use crate::marks::MarkedClause;
use crate::origins::{origins, pass_step};
use crate::replay::is_last_empty;
use crate::{CheckEnd, Checked, Log};
use clause_arena::ClauseArena;
use std::alloc::{AllocError, Global};
use std::marker::Model;

/// Checks the steps from step `from` on, those before it being sound.
fn check_from(alloc: Global, arena: &ClauseArena, log: &Log, from: u64) -> Result<(), CheckEnd>
    requires within { from ≤ length log.now }
    requires sound { AreSoundBelow arena.now.clauses log.now from }
    ensures sound { OnOk result (IsSound arena.now.clauses log.now) }
    ensures live { OnOk result (AreLiveSteps arena.now.clauses log.now from (length log.now)) }
    ensures bad { IfErr result (IfBad (IsNextBadStep arena.now.clauses log.now from)) }
{
    let Ok(mut table) = origins(alloc, arena, log, from) else {
        return Err(CheckEnd::Memory);
    };
    let mut marks = MarkedClause::new(alloc);
    for k in from..log.len() {
        match is_live_step(&mut marks, arena, &table, log, k) {
            Err(_) => return Err(CheckEnd::Memory),
            Ok(false) => return Err(CheckEnd::Bad(k)),
            Ok(true) => pass_step(&mut table, log, k),
        }
    }
    Ok(())
}

/// Whether the log has no step, or its last one derives a live id.
fn is_last_live(arena: &ClauseArena, log: &Log) -> bool
    ensures { IsTrue result ↔ ((d : Step) → 0 < length log.now → IsSome (clause_at arena.now.clauses (slice_index_or log.now (length log.now - 1) d).derived.0)) }
{
    log.is_empty() || arena.is_live(log.derived(log.len() - 1))
}

/// Whether a sound log ends with the empty clause, also where its last id is dead.
fn sound_ends_empty(alloc: Global, arena: &ClauseArena, log: &Log) -> Result<bool, AllocError>
    requires { IsSound arena.now.clauses log.now }
    ensures { IfOk result (λ empty. IsTrue empty ↔ EndsEmpty arena.now.clauses log.now) }
{
    if is_last_live(arena, log) {
        return Ok(ends_empty(arena, log));
    }
    is_last_empty(alloc, arena, log)
}

/// How many steps of a log were checked.
#[derive(Drop)]
pub struct Segments {
    alloc: Global,
    steps: u64,
}

impl Model for Segments {
    ghost use Rattle.std.specs.Prelude.{ℕ};

    ghost Value = { ℕ };

    ghost view = { λ a. a.steps };
}

impl Segments {
    /// No step was checked yet.
    pub fn new(alloc: Global) -> Segments
        ensures { result ≡ 0 }
    {
        Segments { alloc, steps: 0 }
    }

    /// How many steps were checked.
    pub fn steps(&self) -> u64
        ensures { result ≡ self.now }
    {
        self.steps
    }

    /// Checks the steps from the last checked one to the log's end. What they name has to be live;
    /// the clauses of steps that were checked before may be dead, and keep their effect. Equal
    /// results are not looked for.
    pub fn next(&mut self, arena: &ClauseArena, log: &Log) -> Result<Checked, CheckEnd>
        requires within { self.old ≤ length log.now }
        // The caller knows this from the last call: more clauses, dead derived ones and steps that
        // derive new ids keep it.
        requires sound { AreSoundBelow arena.now.clauses log.now self.old }

        ensures sound { OnOk result (IsSound arena.now.clauses log.now) }
        ensures live { OnOk result (AreLiveSteps arena.now.clauses log.now self.old (length log.now)) }
        ensures checked { OnOk result (self.new ≡ length log.now) }
        ensures steps { IfOk result (λ c. c.steps ≡ length log.now) }
        ensures empty { IfOk result (λ c. IsTrue c.ends_empty ↔ EndsEmpty arena.now.clauses log.now) }

        ensures bad { IfErr result (IfBad (IsNextBadStep arena.now.clauses log.now self.old)) }
        ensures unchanged { OnErr result (self.new ≡ self.old) }
    {
        if let Err(end) = check_from(self.alloc, arena, log, self.steps) {
            return Err(end);
        }
        let Ok(ends_empty) = sound_ends_empty(self.alloc, arena, log) else {
            return Err(CheckEnd::Memory);
        };
        self.steps = log.len();
        Ok(Checked {
            steps: self.steps,
            ends_empty,
        })
    }
}
