//! A derived clause is made smaller: literals that others of it imply are resolved away.

ghost use Rattle.std.specs.Prelude.{◌≡◌, ◌<◌, ◌≤◌, true, false, length, take, replicate, IfOk, OnOk};
ghost use Rattle.clause_arena.specs.Clause.{has, is_below, IsEachOnce};
ghost use Rattle.clause_arena.specs.declared.Lit.{Lit as TrueLit};
ghost use Rattle.res_log.specs.Partial.{IsAsserting, is_false};
ghost use Rattle.cdcl.specs.Trail.{AllClauses};
ghost use Rattle.cdcl.specs.Held.{IsKept, vars_of, IsChainOf};
ghost use Rattle.cdcl.specs.Marks.{is_seen, left, IsShortening};

use crate::analyze::{Derived, mark};
use crate::spares::spare_places;
use crate::trail::Trail;
use clause_arena::{ClauseArena, ClauseId, Lit};
use res_log::ChainStep;
use smallvec::SmallVec;
use std::alloc::{AllocError, Global};

/// Whether no literal of the clause is of a variable that was taken out.
pub fn is_clear(clause: &[Lit], gone: &[bool]) -> bool
    requires { is_below (length gone.now) clause.now ≡ true }
    ensures { result ≡ true → (m : TrueLit) → has clause.now m ≡ true → is_seen gone.now m.var ≡ false }
{
    for l in clause {
        let at = l.var as usize;
        if gone[at] {
            return false;
        }
    }
    true
}

/// The literals of variables that were not taken out.
pub fn left_of(alloc: Global, lits: &[Lit], gone: &[bool]) -> Result<Derived, AllocError>
    requires { is_below (length gone.now) lits.now ≡ true }
    ensures { IfOk result (λ d. d.items ≡ left gone.now lits.now) }
{
    let mut kept: Derived = SmallVec::new(alloc);
    for l in lits {
        let at = l.var as usize;
        if gone[at] {
            continue;
        }
        kept.push(*l)?;
    }
    Ok(kept)
}

/// Resolves literals at the places away, the newest first, where that can be done.
pub fn take_out(
    arena: &ClauseArena,
    trail: &Trail,
    start: usize,
    conflict: ClauseId,
    places: &[usize],
    seen: &mut [bool],
    gone: &mut [bool],
    lits: &mut Derived,
    steps: &mut Vec<ChainStep>,
) -> Result<(), AllocError>
    requires below { AllClauses (is_below (vars_of trail.now)) arena.now.clauses }
    requires kept { IsKept arena.now.clauses trail.now }
    requires place { start ≤ length trail.now.lits.items }
    requires begun { IsShortening arena.now.clauses trail.now start conflict steps.old.items seen.old gone.old lits.old.items }
    ensures { OnOk result (IsShortening arena.now.clauses trail.now start conflict steps.new.items seen.new gone.new lits.new.items) }
{
    let end = trail.lits.len();
    for i in 0..places.len() {
        let place = places[places.len() - 1 - i];
        if start <= place {
            continue;
        }
        let l = trail.lits[place];
        let at = l.var as usize;
        if !seen[at] {
            continue;
        }
        let reason = match trail.reason_at(place) {
            None => continue,
            Some(reason) => reason,
        };
        if !is_clear(arena.lits(reason), gone) {
            continue;
        }
        steps.push(ChainStep {
            clause: reason,
            pivot: l.var,
        })?;
        mark(trail, end, arena.lits(reason), seen, lits)?;
        gone[at] = true;
    }
    Ok(())
}

/// What is left of the derived clause once literals at the places were resolved away. No variable is
/// seen or taken out yet.
pub fn shorten_by(
    alloc: Global,
    arena: &ClauseArena,
    trail: &Trail,
    start: usize,
    conflict: ClauseId,
    derived: &[Lit],
    places: &[usize],
    seen: &mut [bool],
    gone: &mut [bool],
    steps: &mut Vec<ChainStep>,
) -> Result<Derived, AllocError>
    requires below { AllClauses (is_below (vars_of trail.now)) arena.now.clauses }
    requires kept { IsKept arena.now.clauses trail.now }
    requires place { start ≤ length trail.now.lits.items }
    requires chained { IsChainOf arena.now.clauses conflict steps.old.items derived.now }
    requires falsified { is_false trail.now.lits.items derived.now ≡ true }
    requires asserting { IsAsserting (take start trail.now.lits.items) derived.now }
    requires none_seen { seen.old ≡ replicate (length seen.old) false }
    requires none_gone { gone.old ≡ replicate (length gone.old) false }
    requires sized_seen { length seen.old ≡ vars_of trail.now }
    requires sized_gone { length gone.old ≡ vars_of trail.now }
    ensures chained { IfOk result (λ learned. IsChainOf arena.now.clauses conflict steps.new.items learned.items) }
    ensures falsified { IfOk result (λ learned. is_false trail.now.lits.items learned.items ≡ true) }
    ensures asserting { IfOk result (λ learned. IsAsserting (take start trail.now.lits.items) learned.items) }
    ensures once { IfOk result (λ learned. IsEachOnce learned.items) }
{
    let end = trail.lits.len();
    let mut lits: Derived = SmallVec::new(alloc);
    mark(trail, end, derived, seen, &mut lits)?;
    take_out(
        arena, trail, start, conflict, places, seen, gone, &mut lits, steps,
    )?;
    let learned = left_of(alloc, lits.as_slice(), gone)?;
    Ok(learned)
}

/// The derived clause, without literals that others of it imply. `start` is where the last level
/// begins.
pub fn shorten(
    alloc: Global,
    arena: &ClauseArena,
    trail: &Trail,
    start: usize,
    conflict: ClauseId,
    derived: Derived,
    steps: &mut Vec<ChainStep>,
) -> Result<Derived, AllocError>
    requires below { AllClauses (is_below (vars_of trail.now)) arena.now.clauses }
    requires kept { IsKept arena.now.clauses trail.now }
    requires place { start ≤ length trail.now.lits.items }
    requires chained { IsChainOf arena.now.clauses conflict steps.old.items derived.items }
    requires falsified { is_false trail.now.lits.items derived.items ≡ true }
    requires asserting { IsAsserting (take start trail.now.lits.items) derived.items }
    requires once { IsEachOnce derived.items }
    ensures chained { IfOk result (λ learned. IsChainOf arena.now.clauses conflict steps.new.items learned.items) }
    ensures falsified { IfOk result (λ learned. is_false trail.now.lits.items learned.items ≡ true) }
    ensures asserting { IfOk result (λ learned. IsAsserting (take start trail.now.lits.items) learned.items) }
    ensures once { IfOk result (λ learned. IsEachOnce learned.items) }
{
    let places = spare_places(alloc, arena, trail, start, derived.as_slice())?;
    if places.is_empty() {
        return Ok(derived);
    }
    let mut seen = vec![in alloc; false; trail.values.len()]?;
    let mut gone = vec![in alloc; false; trail.values.len()]?;
    shorten_by(
        alloc,
        arena,
        trail,
        start,
        conflict,
        derived.as_slice(),
        &places,
        &mut seen,
        &mut gone,
        steps,
    )
}
