//! Unit propagation: a clause is looked at where a literal that it watches became false. The others
//! take from it that each clause is quiet, or that one is false.

ghost use Rattle.std.specs.Prelude.{◌≡◌, ◌<◌, ◌≤◌, ◌+◌, true, false, length, slice_index_or, MatchOption, None, IfOk, OnOk};
ghost use Rattle.clause_arena.specs.Clause.{has, opposite, is_below};
ghost use Rattle.clause_arena.specs.declared.Lit.{Lit as TrueLit};
ghost use Rattle.cdcl.specs.Trail.{AllClauses, AreForcedFrom};
ghost use Rattle.cdcl.specs.Held.{vars_of, IsKept, reasons_of, Spreads};
ghost use Rattle.cdcl.specs.Work.{IsConflict, IsSettled};
ghost use Rattle.cdcl.specs.Watched.{Finds, AreFalseBut, IsOpenPlace, slot_of, listed, IsWatched, IsSized, AreVisited};
ghost use Rattle.cdcl.specs.Watching.{IsWatching};

use crate::trail::{Trail, is_same_lit, negated};
use crate::watch::{Pair, Watches};
use clause_arena::{ClauseArena, ClauseId, Lit};
use std::alloc::AllocError;

/// What a visit of a clause finds.
#[derive(Clone, Copy)]
pub enum Visit {
    /// A literal is true.
    Stays,
    /// This literal isn't false, and isn't the other one that is watched.
    Moves(Lit),
    /// The other one is free, and all else is false.
    Forces(Lit),
    /// Each literal is false.
    Falsified,
}

/// Looks in a part of a clause for a literal that isn't false and isn't the other one.
pub fn open_place(
    trail: &Trail,
    clause: &[Lit],
    other: Lit,
    from: usize,
    end: usize,
) -> Option<usize>
    requires below { is_below (vars_of trail.now) clause.now ≡ true }
    requires end { end ≤ length clause.now }
    ensures { MatchOption result (AreFalseBut trail.now.lits.items clause.now other from end) (IsOpenPlace trail.now.lits.items clause.now other) }
{
    for place in from..end {
        let l = clause[place];
        if !is_same_lit(l, other) && !trail.holds(negated(l)) {
            return Some(place);
        }
    }
    None
}

/// Looks for a literal to watch in place of one that became false, from the spot on where the search
/// before ended, and then in what stands before it.
pub fn find_watch(trail: &Trail, clause: &[Lit], other: Lit, spot: &mut usize) -> Visit
    requires below { is_below (vars_of trail.now) clause.now ≡ true }
    requires other { has clause.now other ≡ true }
    requires small { other.var < vars_of trail.now }
    ensures { Finds trail.now.lits.items clause.now other result }
{
    if trail.holds(other) {
        return Visit::Stays;
    }
    let from = (*spot).min(clause.len());
    match open_place(trail, clause, other, from, clause.len()) {
        Some(place) => {
            *spot = place;
            return Visit::Moves(clause[place]);
        }
        None => {}
    }
    match open_place(trail, clause, other, 0, from) {
        Some(place) => {
            *spot = place;
            return Visit::Moves(clause[place]);
        }
        None => {}
    }
    if trail.holds(negated(other)) {
        return Visit::Falsified;
    }
    Visit::Forces(other)
}

/// Looks at each clause that watches the literal, which became false: some move to another literal, some force one.
pub fn pass(
    arena: &ClauseArena,
    trail: &mut Trail,
    watches: &mut Watches,
    head: usize,
    gone: Lit,
) -> Result<Option<ClauseId>, AllocError>
    requires below { AllClauses (is_below (vars_of trail.old)) arena.now.clauses }
    requires kept { IsKept arena.now.clauses trail.old }
    requires sized { IsSized arena.now.clauses (vars_of trail.old) watches.old.lists watches.old.pairs }
    requires head { head < length trail.old.lits.items }
    requires here { (d : TrueLit) → slice_index_or trail.old.lits.items head d ≡ opposite gone }
    requires forced { AreForcedFrom (reasons_of trail.old) (head + 1) }
    requires small { gone.var < vars_of trail.old }
    requires watched { IsWatched arena.now.clauses trail.old.lits.items (reasons_of trail.old) head watches.old.lists watches.old.pairs }
    ensures spread { OnOk result (Spreads arena.now.clauses trail.old trail.new) }
    ensures sized { OnOk result (IsSized arena.now.clauses (vars_of trail.new) watches.new.lists watches.new.pairs) }
    ensures watched { OnOk result (IsWatched arena.now.clauses trail.new.lits.items (reasons_of trail.new) head watches.new.lists watches.new.pairs) }
    ensures here { OnOk result ((d : TrueLit) → slice_index_or trail.new.lits.items head d ≡ opposite gone) }
    ensures forced { OnOk result (AreForcedFrom (reasons_of trail.new) (head + 1)) }
    ensures passed { IfOk result (λ found. MatchOption found (AreVisited arena.now.clauses trail.new.lits.items watches.new.lists watches.new.pairs gone (length (listed watches.new.lists gone))) (IsConflict arena.now.clauses trail.new.lits.items)) }
{
    let mut i = 0;
    'list: while i < watches.len_under(gone) {
        let id = watches.id_under(gone, i);
        if !arena.is_live(id) {
            i += 1;
            continue;
        }
        let other = match watches.other_of(id, gone) {
            None => {
                i += 1;
                continue;
            }
            Some(other) => other,
        };
        let mut spot = watches.spot_of(id);
        match find_watch(trail, arena.lits(id), other, &mut spot) {
            Visit::Stays => {
                i += 1;
                continue;
            }
            Visit::Falsified => return Ok(Some(id)),
            Visit::Forces(l) => {
                trail.push(l, Some(id))?;
                i += 1;
                continue;
            }
            Visit::Moves(z) => {
                watches.add_under(z, id)?;
                watches.take_under(gone, i);
                watches.set_pair(
                    id,
                    Pair {
                        first: z,
                        second: other,
                    },
                    spot,
                );
                continue;
            }
        }
    }
    Ok(None)
}

/// How far the trail was looked at, and the clause that is false, if one is.
#[derive(Clone, Copy)]
pub struct Reached {
    pub head: usize,
    pub found: Option<ClauseId>,
}

/// Looks at the literals of the trail from a place on.
pub fn propagate_from(
    arena: &ClauseArena,
    trail: &mut Trail,
    watches: &mut Watches,
    head: usize,
) -> Result<Reached, AllocError>
    requires below { AllClauses (is_below (vars_of trail.old)) arena.now.clauses }
    requires kept { IsKept arena.now.clauses trail.old }
    requires sized { IsSized arena.now.clauses (vars_of trail.old) watches.old.lists watches.old.pairs }
    requires head { head ≤ length trail.old.lits.items }
    requires forced { AreForcedFrom (reasons_of trail.old) (head + 1) }
    requires watched { IsWatched arena.now.clauses trail.old.lits.items (reasons_of trail.old) head watches.old.lists watches.old.pairs }
    ensures spread { OnOk result (Spreads arena.now.clauses trail.old trail.new) }
    ensures sized { OnOk result (IsSized arena.now.clauses (vars_of trail.new) watches.new.lists watches.new.pairs) }
    ensures watched { IfOk result (λ r. IsWatched arena.now.clauses trail.new.lits.items (reasons_of trail.new) r.head watches.new.lists watches.new.pairs) }
    ensures to { IfOk result (λ r. r.head ≤ length trail.new.lits.items) }
    ensures forced { IfOk result (λ r. AreForcedFrom (reasons_of trail.new) (r.head + 1)) }
    ensures seen { IfOk result (λ r. r.found ≡ None → r.head ≡ length trail.new.lits.items) }
    ensures settled { IfOk result (λ r. IsSettled arena.now.clauses trail.new.lits.items r.found) }
{
    let mut at = head;
    'spread: while at < trail.lits.len() {
        let gone = negated(trail.lits[at]);
        match pass(arena, trail, watches, at, gone)? {
            Some(id) => {
                return Ok(Reached {
                    head: at,
                    found: Some(id),
                });
            }
            None => {}
        }
        at += 1;
    }
    Ok(Reached {
        head: at,
        found: None,
    })
}

/// Makes literals true until no clause forces one, or a clause is false.
pub fn propagate(
    arena: &ClauseArena,
    trail: &mut Trail,
    watches: &mut Watches,
) -> Result<Option<ClauseId>, AllocError>
    requires below { AllClauses (is_below (vars_of trail.old)) arena.now.clauses }
    requires kept { IsKept arena.now.clauses trail.old }
    requires watching { IsWatching arena.now.clauses trail.old watches.old }
    ensures spread { OnOk result (Spreads arena.now.clauses trail.old trail.new) }
    ensures watching { OnOk result (IsWatching arena.now.clauses trail.new watches.new) }
    ensures seen { IfOk result (λ found. found ≡ None → watches.new.head ≡ length trail.new.lits.items) }
    ensures settled { IfOk result (IsSettled arena.now.clauses trail.new.lits.items) }
{
    let head = watches.head();
    let reached = propagate_from(arena, trail, watches, head)?;
    watches.set_head(reached.head);
    Ok(reached.found)
}
