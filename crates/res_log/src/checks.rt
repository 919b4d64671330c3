//! The check of a log, one step after another.
ghost use Rattle.std.specs.Prelude.{◌≡◌, ℕ, ◌+◌, ◌<◌, ◌≤◌, ◌↔◌, true, [], None, Some, ◌-◌, take, length, slice_index_or, IfOk, IfErr, OnOk, IsSome, IsTrue};
ghost use Rattle.std.specs.Bool.{MatchBool, OnTrue};
ghost use Rattle.std.specs.List.{HoldsAt, list_all};
ghost use Rattle.std.specs.Option.{is_some, IsSomeAnd};
ghost use Rattle.clause_arena.specs.Clause.{clause_at};
ghost use Rattle.res_log.specs.Log.{chain, has_live_ids, IsSound, IsValid, AreLive, EndsEmpty, IsFirstBadStep};
ghost use Rattle.res_log.specs.Step.{Step};
ghost use Rattle.res_log.specs.CheckEnd.{IfBad};
ghost use Rattle.res_log.specs.Marks.{Marks, IsBlank};
ghost use Rattle.res_log.specs.Origins.{IsTable, book_of};
ghost use Rattle.res_log.specs.Keys.{Remembers};
ghost use Rattle.res_log.specs.Shelf.{live_test, step_test, lists};

use crate::marks::MarkedClause;
use crate::origins::{Origin, is_derived_before, is_there, origins, pass_step};
use crate::seen::Seen;
use crate::{ChainStep, CheckEnd, Checked, Log};
use clause_arena::{ClauseArena, ClauseId, Lit};
use std::alloc::{AllocError, Global};

fn are_links_live(arena: &ClauseArena, rest: &[ChainStep]) -> bool
    ensures { result ≡ list_all (λ x. is_some (clause_at arena.now.clauses x.clause.0)) rest.now }
{
    rest.iter().all(|x| arena.is_live(x.clause))
}

/// Whether each id that step `k` names is live.
fn are_ids_live(arena: &ClauseArena, log: &Log, k: u64) -> bool
    requires { k < length log.now }
    ensures { HoldsAt (λ s. result ≡ has_live_ids arena.now.clauses s) log.now k }
{
    arena.is_live(log.derived(k))
        && arena.is_live(log.first(k))
        && are_links_live(arena, log.rest(k))
}

/// Marks the result of a chain; false if it has none.
fn run_chain(
    marks: &mut MarkedClause,
    arena: &ClauseArena,
    table: &[Origin],
    first: &[Lit],
    rest: &[ChainStep],
) -> Result<bool, AllocError>
    requires blank { IsBlank marks.old }
    requires long { 0 < length rest.now }
    requires live { list_all (λ x. is_some (clause_at arena.now.clauses x.clause.0)) rest.now ≡ true }
    ensures { IfOk result (λ found. MatchBool found (IsSomeAnd (chain (book_of arena.now.clauses table.now) rest.now first.now) (Marks marks.new)) (chain (book_of arena.now.clauses table.now) rest.now first.now ≡ None)) }
{
    if !marks.add_all(first)? {
        return Ok(false);
    }
    for link in rest {
        if !is_there(table, link.clause) {
            return Ok(false);
        }
        if !marks.resolve_with(arena.lits(link.clause), link.pivot)? {
            return Ok(false);
        }
    }
    Ok(true)
}

/// Whether step `k` derives its id for the first time and the arena has the result of its chain
/// there, all its ids being live.
pub fn is_live_step(
    marks: &mut MarkedClause,
    arena: &ClauseArena,
    table: &[Origin],
    log: &Log,
    k: u64,
) -> Result<bool, AllocError>
    requires place { k < length log.now }
    requires blank { IsBlank marks.old }
    requires size { length table.now ≡ length arena.now.clauses }
    requires table { IsTable log.now k table.now }
    ensures test { IfOk result (λ right. HoldsAt (λ s. right ≡ live_test arena.now.clauses log.now k s) log.now k) }
    ensures blank { IfOk result (λ right. OnTrue right (IsBlank marks.new)) }
{
    let derived = log.derived(k);
    if !are_ids_live(arena, log, k) || is_derived_before(table, derived) {
        return Ok(false);
    }
    let first = log.first(k);
    let rest = log.rest(k);
    if rest.is_empty() || !is_there(table, first) {
        return Ok(false);
    }
    if !run_chain(marks, arena, table, arena.lits(first), rest)? {
        return Ok(false);
    }
    Ok(marks.take_if_same(arena.lits(derived)))
}

/// Whether step `k` breaks no rule, once those before it break none.
fn is_right_step(
    marks: &mut MarkedClause,
    seen: &mut Seen,
    arena: &ClauseArena,
    table: &[Origin],
    log: &Log,
    k: u64,
) -> Result<bool, AllocError>
    requires place { k < length log.now }
    requires blank { IsBlank marks.old }
    requires seen { Remembers seen.old (lists arena.now.clauses (take k log.now)) }
    requires size { length table.now ≡ length arena.now.clauses }
    requires table { IsTable log.now k table.now }
    ensures test { IfOk result (λ right. HoldsAt (λ s. right ≡ step_test arena.now.clauses log.now k s) log.now k) }
    ensures blank { IfOk result (λ right. OnTrue right (IsBlank marks.new)) }
    ensures seen { IfOk result (λ right. OnTrue right (Remembers seen.new (lists arena.now.clauses (take (k + 1) log.now)))) }
{
    if !is_live_step(marks, arena, table, log, k)? {
        return Ok(false);
    }
    let added = seen.add(arena.lits(log.derived(k)))?;
    Ok(added)
}

/// Whether a live id has the empty clause.
pub fn has_empty_clause(arena: &ClauseArena) -> bool
    ensures { IsTrue result ↔ ((id : ℕ) × (clause_at arena.now.clauses id ≡ Some [])) }
{
    for id in 0..arena.count() {
        let id = ClauseId(id);
        if arena.is_live(id) && arena.lits(id).is_empty() {
            return true;
        }
    }
    false
}

/// Whether a sound log ends with the empty clause, its last id being live.
pub fn ends_empty(arena: &ClauseArena, log: &Log) -> bool
    requires sound { IsSound arena.now.clauses log.now }
    requires live { (d : Step) → 0 < length log.now → IsSome (clause_at arena.now.clauses (slice_index_or log.now (length log.now - 1) d).derived.0) }
    ensures { IsTrue result ↔ EndsEmpty arena.now.clauses log.now }
{
    if log.is_empty() {
        return has_empty_clause(arena);
    }
    arena.lits(log.derived(log.len() - 1)).is_empty()
}

/// Checks a whole log. `Ok` comes just for a valid log all of whose ids are live, and `Bad` has the
/// number of the first step that breaks a rule.
pub fn check(alloc: Global, arena: &ClauseArena, log: &Log) -> Result<Checked, CheckEnd>
    ensures valid { OnOk result (IsValid arena.now.clauses log.now) }
    ensures live { OnOk result (AreLive arena.now.clauses log.now) }
    ensures steps { IfOk result (λ c. c.steps ≡ length log.now) }
    ensures empty { IfOk result (λ c. IsTrue c.ends_empty ↔ EndsEmpty arena.now.clauses log.now) }
    ensures bad { IfErr result (IfBad (IsFirstBadStep arena.now.clauses log.now)) }
{
    let Ok(mut table) = origins(alloc, arena, log, 0) else {
        return Err(CheckEnd::Memory);
    };
    let mut marks = MarkedClause::new(alloc);
    let mut seen = Seen::new(alloc);
    for k in 0..log.len() {
        match is_right_step(&mut marks, &mut seen, arena, &table, log, k) {
            Err(_) => return Err(CheckEnd::Memory),
            Ok(false) => return Err(CheckEnd::Bad(k)),
            Ok(true) => pass_step(&mut table, log, k),
        }
    }
    Ok(Checked {
        steps: log.len(),
        ends_empty: ends_empty(arena, log),
    })
}
