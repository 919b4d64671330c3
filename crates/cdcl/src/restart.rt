//! From time to time the search goes back to the first decision, with the clauses that it derived.

ghost use Rattle.std.specs.Prelude.{◌≡◌, ◌<◌, length, slice_index_or, Option, None, MatchOption};
ghost use Rattle.clause_arena.specs.declared.ClauseId.{ClauseId as TrueId};
ghost use Rattle.cdcl.specs.Held.{IsKept, vars_of, reasons_of};
ghost use Rattle.cdcl.specs.Watching.{IsWatching};
ghost use Rattle.cdcl.specs.Pick.{AreKnown};

use crate::chooser::Chooser;
use crate::going_back::go_back;
use crate::trail::Trail;
use crate::watch::Watches;
use clause_arena::ClauseArena;

/// How many conflicts the shortest stretch between two restarts has.
const UNIT: u64 = 500;

/// How many conflicts are left before the next restart: the stretches are as the sequence of Luby,
/// Sinclair and Zuckerman (1993), 1, 1, 2, 1, 1, 2, 4, .., by Knuth's two numbers. No contract speaks
/// of it.
#[derive(Drop)]
pub struct Pace {
    left: u64,
    turn: u64,
    length: u64,
}

impl Pace {
    /// The pace before any conflict.
    pub fn new() -> Pace {
        Pace {
            left: UNIT,
            turn: 1,
            length: 1,
        }
    }

    /// Counts a conflict, and says whether the stretch is over.
    pub fn is_over(&mut self) -> bool {
        self.left = self.left.saturating_sub(1);
        if 0 < self.left {
            return false;
        }
        if self.turn & self.turn.wrapping_neg() == self.length {
            self.turn = self.turn.wrapping_add(1);
            self.length = 1;
        } else {
            self.length = self.length.saturating_mul(2);
        }
        self.left = self.length.saturating_mul(UNIT);
        true
    }
}

/// The place of the first literal that nothing forced.
pub fn first_decision(trail: &Trail) -> Option<usize>
    ensures { MatchOption result (Unit {0}) (λ k. (k < length trail.now.lits.items) × ((o : Option TrueId) → slice_index_or (reasons_of trail.now) k o ≡ None)) }
{
    for place in 0..trail.lits.len() {
        match trail.reason_at(place) {
            Some(_) => continue,
            None => return Some(place),
        }
    }
    None
}

/// Takes back what was decided, and what followed, where a stretch is over.
pub fn restart(
    arena: &ClauseArena,
    trail: &mut Trail,
    watches: &mut Watches,
    chooser: &mut Box<dyn Chooser>,
    pace: &mut Pace,
)
    requires kept { IsKept arena.now.clauses trail.old }
    requires watching { IsWatching arena.now.clauses trail.old watches.old }
    requires ready { ready_for chooser.old ≡ vars_of trail.old }
    requires known { AreKnown (knows chooser.old) trail.old.values.items }
    ensures kept { IsKept arena.now.clauses trail.new }
    ensures watching { IsWatching arena.now.clauses trail.new watches.new }
    ensures vars { vars_of trail.new ≡ vars_of trail.old }
    ensures ready { ready_for chooser.new ≡ ready_for chooser.old }
    ensures known { AreKnown (knows chooser.new) trail.new.values.items }
    ensures heard { heard chooser.new ≡ heard chooser.old }
{
    if !pace.is_over() {
        return;
    }
    match first_decision(trail) {
        None => {}
        Some(end) => {
            go_back(trail, chooser, end);
            watches.set_head(end);
        }
    }
}
