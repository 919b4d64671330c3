//! Clauses that were met, each by a list of numbers that is the same for the same set, so that an
//! equal one is found by hashing.
ghost use Rattle.std.specs.Prelude.{◌≡◌, ◌++◌, ◌∷◌, [], List, map, not, IfOk};
ghost use Rattle.std.specs.List.{list_any};
ghost use Rattle.clause_arena.specs.Clause.{Clause, is_same};
ghost use Rattle.res_log.specs.Keys.{code_of, IsKey, Remembers};

use clause_arena::Lit;
use std::alloc::{AllocError, Global};
use std::collections::HashSet;
use std::marker::Model;

fn code(lit: Lit) -> u64
    ensures { result ≡ code_of lit }
{
    2 * u64::from(lit.var) + u64::from(lit.negative)
}

fn codes(alloc: Global, clause: &[Lit]) -> Result<Vec<u64>, AllocError>
    ensures { IfOk result (λ v. v.items ≡ map code_of clause.now) }
{
    clause.iter().map(|l| code(*l)).collect(alloc)
}

/// The numbers of the clause's literals, each once, in rising order.
fn key(alloc: Global, clause: &[Lit]) -> Result<Vec<u64>, AllocError>
    ensures { IfOk result (λ v. IsKey clause.now v.items) }
{
    let mut numbers = codes(alloc, clause)?;
    numbers.sort_unstable();
    numbers.dedup();
    Ok(numbers)
}

/// Clauses that were met, as sets of literals.
#[derive(Drop)]
pub struct Seen {
    alloc: Global,
    keys: HashSet<Vec<u64>>,
}

impl Model for Seen {
    ghost use Rattle.std.specs.Prelude.{List, ℕ, map};

    ghost Value = { List (List ℕ) };

    ghost view = { λ a. map (λ v. v.items) a.keys.keys };
}

impl Seen {
    /// No clause seen yet.
    pub fn new(alloc: Global) -> Seen
        ensures { result ≡ [] }
    {
        Seen {
            alloc,
            keys: HashSet::new(alloc),
        }
    }

    /// Adds a clause; whether none that was there is the same set.
    pub fn add(&mut self, clause: &[Lit]) -> Result<bool, AllocError>
        ensures { (cs : List Clause) → Remembers self.old cs → IfOk result (λ added. (added ≡ not (list_any (is_same clause.now) cs)) × Remembers self.new (cs ++ clause.now ∷ [])) }
    {
        let added = self.keys.insert(key(self.alloc, clause)?)?;
        Ok(added)
    }
}
