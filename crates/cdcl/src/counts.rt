//! How much work a search does, for benchmarks.

ghost use Rattle.std.specs.Prelude.{◌≡◌, length, None, IfOk, OnOk};
ghost use Rattle.clause_arena.specs.Clause.{is_below};
ghost use Rattle.cdcl.specs.Trail.{AllClauses};
ghost use Rattle.cdcl.specs.Held.{IsKept, vars_of, Spreads};
ghost use Rattle.cdcl.specs.Work.{IsSettled};
ghost use Rattle.cdcl.specs.Watching.{IsWatching};

use crate::propagate::propagate;
use crate::trail::Trail;
use crate::watch::Watches;
use clause_arena::{ClauseArena, ClauseId};
use std::alloc::AllocError;

/// What a search counts as it goes. No clause speaks of the numbers.
#[derive(Clone, Copy, Debug, PartialEq, Eq)]
pub struct Counts {
    /// The literals that clauses forced; it stays at 2^64 - 1 once it is there.
    pub propagations: u64,
}

/// Propagates, and counts the literals that are forced.
pub fn propagate_counted(
    arena: &ClauseArena,
    trail: &mut Trail,
    watches: &mut Watches,
    counts: &mut Counts,
) -> Result<Option<ClauseId>, AllocError>
    requires below { AllClauses (is_below (vars_of trail.old)) arena.now.clauses }
    requires kept { IsKept arena.now.clauses trail.old }
    requires watching { IsWatching arena.now.clauses trail.old watches.old }
    ensures spread { OnOk result (Spreads arena.now.clauses trail.old trail.new) }
    ensures watching { OnOk result (IsWatching arena.now.clauses trail.new watches.new) }
    ensures seen { IfOk result (λ found. found ≡ None → watches.new.head ≡ length trail.new.lits.items) }
    ensures settled { IfOk result (IsSettled arena.now.clauses trail.new.lits.items) }
{
    let before = trail.lits.len();
    let found = propagate(arena, trail, watches)?;
    let forced = trail.lits.len().saturating_sub(before) as u64;
    counts.propagations = counts.propagations.saturating_add(forced);
    Ok(found)
}
