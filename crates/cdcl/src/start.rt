//! The start of a search: each clause gets its watches, and a clause of one literal makes it true.

ghost use Rattle.std.specs.Prelude.{◌≡◌, ◌<◌, ◌+◌, length, MatchOption, IfOk, OnOk};
ghost use Rattle.std.specs.Bool.{MatchBool};
ghost use Rattle.clause_arena.specs.Clause.{is_below};
ghost use Rattle.res_log.specs.Partial.{is_open};
ghost use Rattle.cdcl.specs.Trail.{AllClauses, AreForcedFrom};
ghost use Rattle.cdcl.specs.Held.{IsKept, vars_of, reasons_of, Spreads};
ghost use Rattle.cdcl.specs.Work.{IsConflict};
ghost use Rattle.cdcl.specs.Watching.{IsBegun, IsWatching};

use crate::trail::{Trail, negated};
use crate::watch::{Pair, Watches};
use clause_arena::{ClauseArena, ClauseId};
use std::alloc::AllocError;

/// Watches the clause of the next id; `false` if it is false.
pub fn watch_clause(
    arena: &ClauseArena,
    trail: &mut Trail,
    watches: &mut Watches,
    id: ClauseId,
) -> Result<bool, AllocError>
    requires below { AllClauses (is_below (vars_of trail.old)) arena.now.clauses }
    requires open { AllClauses is_open arena.now.clauses }
    requires kept { IsKept arena.now.clauses trail.old }
    requires id { id.0 < length arena.now.clauses }
    requires begun { IsBegun arena.now.clauses id.0 trail.old watches.old }
    ensures spread { OnOk result (Spreads arena.now.clauses trail.old trail.new) }
    ensures begun { IfOk result (λ watched. MatchBool watched (IsBegun arena.now.clauses (id.0 + 1) trail.new watches.new) (IsConflict arena.now.clauses trail.new.lits.items id)) }
    ensures forced { OnOk result (AreForcedFrom (reasons_of trail.new) 0) }
{
    if !arena.is_live(id) {
        watches.pass_over()?;
        return Ok(true);
    }
    let lits = arena.lits(id);
    let first = lits[0];
    if 1 < lits.len() {
        watches.watch(
            id,
            Pair {
                first,
                second: lits[1],
            },
        )?;
        return Ok(true);
    }
    let unit = Pair {
        first,
        second: first,
    };
    if trail.holds(first) {
        watches.watch(id, unit)?;
        return Ok(true);
    }
    if trail.holds(negated(first)) {
        return Ok(false);
    }
    trail.push(first, Some(id))?;
    watches.watch(id, unit)?;
    Ok(true)
}

/// Watches all clauses, or finds one that is false by clauses of one literal.
pub fn watch_all(
    arena: &ClauseArena,
    trail: &mut Trail,
    watches: &mut Watches,
) -> Result<Option<ClauseId>, AllocError>
    requires below { AllClauses (is_below (vars_of trail.old)) arena.now.clauses }
    requires open { AllClauses is_open arena.now.clauses }
    requires kept { IsKept arena.now.clauses trail.old }
    requires begun { IsBegun arena.now.clauses 0 trail.old watches.old }
    ensures spread { OnOk result (Spreads arena.now.clauses trail.old trail.new) }
    ensures watching { IfOk result (λ found. MatchOption found (IsWatching arena.now.clauses trail.new watches.new) (IsConflict arena.now.clauses trail.new.lits.items)) }
    ensures forced { OnOk result (AreForcedFrom (reasons_of trail.new) 0) }
{
    for i in 0..arena.count() {
        let id = ClauseId(i);
        if !watch_clause(arena, trail, watches, id)? {
            return Ok(Some(id));
        }
    }
    Ok(None)
}
