//! The test of what `solve` needs of its clauses.

ghost use Rattle.std.specs.Prelude.{◌≡◌};
ghost use Rattle.std.specs.Bool.{MatchBool};
ghost use Rattle.clause_arena.specs.Clause.{is_below};
ghost use Rattle.cdcl.specs.Trail.{AllClauses};

use clause_arena::{ClauseArena, ClauseId, Lit};

fn are_below(lits: &[Lit], vars: u32) -> bool
    ensures { result ≡ is_below vars lits.now }
{
    lits.iter().all(|l| l.var < vars)
}

/// Whether each variable of the live clauses is below the number, as [`solve`](crate::solve) needs it.
pub fn has_vars_below(arena: &ClauseArena, vars: u32) -> bool
    ensures { MatchBool result (AllClauses (is_below vars) arena.now.clauses) (¬ (AllClauses (is_below vars) arena.now.clauses)) }
{
    for i in 0..arena.count() {
        let id = ClauseId(i);
        if !arena.is_live(id) {
            continue;
        }
        if !are_below(arena.lits(id), vars) {
            return false;
        }
    }
    true
}
