//! Which ids the steps of a log derive, as a table, so that an id is looked up at once.
ghost use Rattle.std.specs.Prelude.{◌≡◌, ℕ, ◌<◌, ◌≤◌, ◌+◌, take, length, slice_set, slice_index_or, if◌then◌else◌, IfOk, vec_len};
ghost use Rattle.std.specs.List.{HoldsAt};
ghost use Rattle.res_log.specs.Log.{derives};
ghost use Rattle.res_log.specs.Origins.{IsTable, is_reached, is_derived};
ghost use Rattle.res_log.specs.declared.origins.Origin.TheVariants.{Input};

use crate::Log;
use clause_arena::{ClauseArena, ClauseId};
use std::alloc::{AllocError, Global};

/// Where the clause of an id comes from, seen from one step.
#[derive(Clone, Copy)]
pub enum Origin {
    /// No step derives the id.
    Input,
    /// That step or a later one derives it.
    Later,
    /// An earlier step derives it.
    Derived,
}

fn origin_at(table: &[Origin], id: ClauseId) -> Origin
    ensures { result ≡ slice_index_or table.now id.0 Input }
{
    table.get(id.0 as usize).copied().unwrap_or(Origin::Input)
}

/// Whether the clause is there: an input, or derived by an earlier step.
pub fn is_there(table: &[Origin], id: ClauseId) -> bool
    ensures { result ≡ is_reached (slice_index_or table.now id.0 Input) }
{
    !matches!(origin_at(table, id), Origin::Later)
}

/// Whether an earlier step derives the id.
pub fn is_derived_before(table: &[Origin], id: ClauseId) -> bool
    ensures { result ≡ is_derived (slice_index_or table.now id.0 Input) }
{
    matches!(origin_at(table, id), Origin::Derived)
}

fn set_origin(table: &mut Vec<Origin>, id: ClauseId, origin: Origin)
    ensures { table.new.items ≡ slice_set table.old.items id.0 origin }
{
    if (id.0 as usize) < table.len() {
        table[id.0 as usize] = origin;
    }
}

/// Gives the ids that the first `n` steps derive this origin.
fn set_origins(table: &mut Vec<Origin>, log: &Log, n: u64, origin: Origin)
    requires { n ≤ length log.now }
    ensures len { length table.new.items ≡ length table.old.items }
    ensures set { (id : ℕ) → id < length table.old.items → slice_index_or table.new.items id Input ≡ (if derives (take n log.now) id then origin else slice_index_or table.old.items id Input) }
{
    for j in 0..n {
        set_origin(table, log.derived(j), origin);
    }
}

/// The origins of the arena's ids, seen from step `k`.
pub fn origins(
    alloc: Global,
    arena: &ClauseArena,
    log: &Log,
    k: u64,
) -> Result<Vec<Origin>, AllocError>
    requires { k ≤ length log.now }
    ensures len { IfOk result (λ table. length table.items ≡ length arena.now.clauses) }
    ensures table { IfOk result (λ table. IsTable log.now k table.items) }
{
    let mut table = vec![in alloc; Origin::Input; arena.count() as usize]?;
    set_origins(&mut table, log, log.len(), Origin::Later);
    set_origins(&mut table, log, k, Origin::Derived);
    Ok(table)
}

/// Goes on to the next step, from step `k`.
pub fn pass_step(table: &mut Vec<Origin>, log: &Log, k: u64)
    requires place { k < length log.now }
    requires table { IsTable log.now k table.old.items }
    ensures len { length table.new.items ≡ length table.old.items }
    ensures table { IsTable log.now (k + 1) table.new.items }
{
    set_origin(table, log.derived(k), Origin::Derived);
}
