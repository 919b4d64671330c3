//! A solver that learns from conflicts and logs each clause that it derives. A model satisfies the
//! clauses, a refutation has a log that shows it, and a spent budget has a log of as many clauses.
#![tactic(auto)]

ghost use Rattle.std.specs.Prelude.{◌<◌, ◌≤◌, ◌+◌, ◌^◌, length, IfOk};
ghost use Rattle.clause_arena.specs.Clause.{is_below};
ghost use Rattle.cdcl.specs.Trail.{AllClauses};
ghost use Rattle.cdcl.specs.Answer.{IsAnswer, IsDecided, Keeps};
ghost use Rattle.clause_arena.specs.Arena.{MOST_CLAUSES};

mod activity;
mod chooser;
mod order;

// What the clauses have to keep to.
mod below;

// What is true, and since when.
mod trail;

// Which clauses are looked at where a literal becomes false.
mod watch;

// Each clause is watched from here on.
mod start;

// Each clause is quiet from here on, or one is false.
mod propagate;

// The same, with a count for benchmarks.
mod counts;

// A false clause becomes a new one.
mod analyze;

// Which literals of it are worth taking out, and how they are.
mod shorten;
mod spares;

// The new clause is stored and logged, and the trail goes back.
mod learn;

// The trail goes back, and the chooser hears of it.
mod going_back;

// The search begins anew from time to time.
mod restart;

// One turn of the search: propagation, and then a decision or what a conflict leads to.
mod turn;

pub use activity::ActivityChooser;
pub use below::has_vars_below;
pub use chooser::{Chooser, Choosers};
use clause_arena::{Bits, ClauseArena};
pub use counts::Counts;
use learn::refute;
pub use order::OrderChooser;
use res_log::{Log, has_empty_clause};
use restart::Pace;
use start::watch_all;
use std::alloc::{AllocError, Global};
use trail::Trail;
use turn::{Outcome, turn};
use watch::Watches;

/// What the solver found.
#[derive(Drop)]
pub enum Solved {
    /// A value for each variable, under which each clause has a true literal.
    Model(Bits),
    /// A log that ends with the empty clause.
    Refuted(Log),
    /// A log of as many clauses as the budget allows, none of them empty.
    Spent(Log),
}

/// Looks for values of the variables `0` to `vars - 1` that satisfy the clauses, and derives at most
/// `budget` clauses. The clauses that are there stay live under their ids. Whether their variables are
/// below `vars`, [`has_vars_below`] tells.
pub fn solve(
    alloc: Global,
    arena: &mut ClauseArena,
    vars: u32,
    chooser: &mut Box<dyn Chooser>,
    budget: u64,
) -> Result<Solved, AllocError>
    requires below { AllClauses (is_below vars) arena.old.clauses }
    requires some { 0 < budget }
    requires room { length arena.old.clauses + budget ≤ MOST_CLAUSES }
    ensures answer { IfOk result (IsAnswer arena.old.clauses arena.new.clauses vars budget) }
    // A budget that holds all clauses over the variables is never spent.
    ensures earned { 3 ^ vars ≤ budget → IfOk result IsDecided }
    ensures kept { Keeps arena.old.clauses arena.new.clauses }
    ensures bounded { length arena.new.clauses ≤ length arena.old.clauses + budget }
{
    let mut counts = Counts { propagations: 0 };
    solve_counted(alloc, arena, vars, chooser, budget, &mut counts)
}

/// The same as `solve`, which also adds to the counts what the search does.
pub fn solve_counted(
    alloc: Global,
    arena: &mut ClauseArena,
    vars: u32,
    chooser: &mut Box<dyn Chooser>,
    budget: u64,
    counts: &mut Counts,
) -> Result<Solved, AllocError>
    requires below { AllClauses (is_below vars) arena.old.clauses }
    requires some { 0 < budget }
    requires room { length arena.old.clauses + budget ≤ MOST_CLAUSES }
    ensures answer { IfOk result (IsAnswer arena.old.clauses arena.new.clauses vars budget) }
    // A budget that holds all clauses over the variables is never spent.
    ensures earned { 3 ^ vars ≤ budget → IfOk result IsDecided }
    ensures kept { Keeps arena.old.clauses arena.new.clauses }
    ensures bounded { length arena.new.clauses ≤ length arena.old.clauses + budget }
{
    let mut log = Log::new(alloc);
    if has_empty_clause(arena) {
        return Ok(Solved::Refuted(log));
    }
    chooser.ready(vars)?;
    let mut trail = Trail::new(alloc, vars)?;
    let mut watches = Watches::new(alloc, vars)?;
    match watch_all(arena, &mut trail, &mut watches)? {
        Some(conflict) => {
            refute(alloc, arena, &mut log, &trail, conflict)?;
            return Ok(Solved::Refuted(log));
        }
        None => {}
    }
    let mut pace = Pace::new();
    'search: loop {
        match turn(
            alloc,
            arena,
            &mut log,
            &mut trail,
            &mut watches,
            chooser,
            budget,
            &mut pace,
            counts,
        )? {
            Outcome::Again => continue,
            Outcome::Satisfied(bits) => return Ok(Solved::Model(bits)),
            Outcome::Refuted => return Ok(Solved::Refuted(log)),
            Outcome::Spent => return Ok(Solved::Spent(log)),
        }
    }
}
