//! What is derived from a conflict: its clause resolved back along the trail.

ghost use Rattle.std.specs.Prelude.{◌≡◌, ◌<◌, ◌≤◌, ◌+◌, ◌++◌, ◌∷◌, [], ℕ, true, false, length, take, IfOk, OnOk};
ghost use Rattle.std.specs.Bool.{MatchBool};
ghost use Rattle.std.specs.Option.{ForSome, IsSomeAnd};
ghost use Rattle.clause_arena.specs.Clause.{has, opposite, is_below, clause_at, without, IsEachOnce};
ghost use Rattle.clause_arena.specs.declared.Lit.{Lit as TrueLit};
ghost use Rattle.clause_arena.specs.declared.ClauseId.{ClauseId};
ghost use Rattle.res_log.specs.Log.{chain};
ghost use Rattle.res_log.specs.Partial.{IsAsserting, is_false, is_open};
ghost use Rattle.cdcl.specs.Trail.{AllClauses, AreForcedFrom};
ghost use Rattle.cdcl.specs.Held.{IsKept, vars_of, reasons_of, IsChainOf};
ghost use Rattle.cdcl.specs.Work.{IsConflict};
ghost use Rattle.cdcl.specs.Marks.{is_seen, IsMarked, AreEarly, IsUnmarked, HasMarked};

use crate::trail::{Trail, negated};
use clause_arena::{ClauseArena, ClauseId, Lit};
use res_log::ChainStep;
use smallvec::SmallVec;
use std::alloc::{AllocError, Global};

/// A clause that is being derived.
pub type Derived = SmallVec<Lit, 16>;

/// Marks the variables of a clause, and collects those of its literals that are newly marked and
/// became false before a place.
pub fn mark(
    trail: &Trail,
    start: usize,
    clause: &[Lit],
    seen: &mut [bool],
    early: &mut Derived,
) -> Result<(), AllocError>
    requires sized { length seen.old ≡ vars_of trail.now }
    requires place { start ≤ length trail.now.lits.items }
    requires below { is_below (vars_of trail.now) clause.now ≡ true }
    requires falsified { (m : TrueLit) → has clause.now m ≡ true → is_seen seen.old m.var ≡ false → has trail.now.lits.items (opposite m) ≡ true }
    requires early { AreEarly trail.now.lits.items start seen.old early.old.items }
    requires once { IsEachOnce early.old.items }
    ensures sized { OnOk result (length seen.new ≡ vars_of trail.now) }
    ensures marked { OnOk result (IsMarked seen.old seen.new clause.now) }
    ensures early { OnOk result (AreEarly trail.now.lits.items start seen.new early.new.items) }
    ensures once { OnOk result (IsEachOnce early.new.items) }
{
    for l in clause {
        let at = l.var as usize;
        if seen[at] {
            continue;
        }
        seen[at] = true;
        if start <= trail.places[at] {
            continue;
        }
        early.push(*l)?;
    }
    Ok(())
}

/// Whether no literal of the trail from `start` up to a place has a marked variable.
pub fn is_unmarked(trail: &Trail, seen: &[bool], start: usize, end: usize) -> bool
    requires sized { length seen.now ≡ vars_of trail.now }
    requires place { end ≤ length trail.now.lits.items }
    ensures { MatchBool result (IsUnmarked trail.now.lits.items seen.now start end) (HasMarked trail.now.lits.items seen.now start end) }
{
    let mut i = end;
    'back: while start < i {
        i -= 1;
        if seen[trail.lits[i].var as usize] {
            return false;
        }
    }
    true
}

/// The conflict clause resolved back to one literal of the last level, which begins at `start`.
pub fn resolve_back(
    alloc: Global,
    arena: &ClauseArena,
    trail: &Trail,
    start: usize,
    conflict: ClauseId,
    steps: &mut Vec<ChainStep>,
) -> Result<Derived, AllocError>
    requires below { AllClauses (is_below (vars_of trail.now)) arena.now.clauses }
    requires kept { IsKept arena.now.clauses trail.now }
    requires place { start < length trail.now.lits.items }
    requires forced { AreForcedFrom (reasons_of trail.now) (start + 1) }
    requires conflict { IsConflict arena.now.clauses trail.now.lits.items conflict }
    requires two { ForSome (clause_at arena.now.clauses conflict.0) (λ c. (v : ℕ) → is_false (take start trail.now.lits.items) (without v c) ≡ false) }
    requires fresh { steps.old.items ≡ [] }
    ensures chained { IfOk result (λ learned. IsChainOf arena.now.clauses conflict steps.new.items learned.items) }
    ensures falsified { IfOk result (λ learned. is_false trail.now.lits.items learned.items ≡ true) }
    ensures asserting { IfOk result (λ learned. IsAsserting (take start trail.now.lits.items) learned.items) }
    ensures once { IfOk result (λ learned. IsEachOnce learned.items) }
{
    let mut seen = vec![in alloc; false; trail.values.len()]?;
    let mut early: Derived = SmallVec::new(alloc);
    mark(trail, start, arena.lits(conflict), &mut seen, &mut early)?;
    let mut i = trail.lits.len();
    'back: while start < i {
        i -= 1;
        let newest = trail.lits[i];
        if !seen[newest.var as usize] {
            continue;
        }
        if is_unmarked(trail, &seen, start, i) {
            early.push(negated(newest))?;
            return Ok(early);
        }
        let reason = match trail.reason_at(i) {
            Some(reason) => reason,
            None => unreachable!(),
        };
        steps.push(ChainStep {
            clause: reason,
            pivot: newest.var,
        })?;
        mark(trail, start, arena.lits(reason), &mut seen, &mut early)?;
    }
    unreachable!()
}

/// The conflict clause resolved back to the empty clause, where each literal of the trail was forced.
pub fn resolve_to_empty(
    alloc: Global,
    arena: &ClauseArena,
    trail: &Trail,
    conflict: ClauseId,
    steps: &mut Vec<ChainStep>,
) -> Result<(), AllocError>
    requires below { AllClauses (is_below (vars_of trail.now)) arena.now.clauses }
    requires kept { IsKept arena.now.clauses trail.now }
    requires forced { AreForcedFrom (reasons_of trail.now) 0 }
    requires conflict { IsConflict arena.now.clauses trail.now.lits.items conflict }
    requires open { AllClauses is_open arena.now.clauses }
    requires fresh { steps.old.items ≡ [] }
    ensures { OnOk result (IsChainOf arena.now.clauses conflict steps.new.items []) }
{
    let mut seen = vec![in alloc; false; trail.values.len()]?;
    let mut early: Derived = SmallVec::new(alloc);
    mark(trail, 0, arena.lits(conflict), &mut seen, &mut early)?;
    let mut i = trail.lits.len();
    'back: while 0 < i {
        i -= 1;
        let newest = trail.lits[i];
        if !seen[newest.var as usize] {
            continue;
        }
        let reason = match trail.reason_at(i) {
            Some(reason) => reason,
            None => unreachable!(),
        };
        steps.push(ChainStep {
            clause: reason,
            pivot: newest.var,
        })?;
        mark(trail, 0, arena.lits(reason), &mut seen, &mut early)?;
    }
    Ok(())
}
