//! Literals, clauses as sets of literals, and the arena that gives each clause a number for good.
//!
//! A clause is handed about as a slice and read as the set of its literals. What the crates above
//! say of resolution, of models and of logs is said of these lists.
#![tactic(auto)]

ghost use Rattle.std.specs.Prelude.{◌≡◌, ◌++◌, ◌↔◌, IfOk, OnOk, IsTrue};
ghost use Rattle.std.specs.Option.{option_map};
ghost use Rattle.clause_arena.specs.Clause.{IsEachOnce, has, is_subset, is_tautology, has_only, clash, without, resolve};

use sqlite_items::Items;
use std::alloc::{AllocError, Global};

mod arena;

pub use arena::ClauseArena;

/// Values of the variables from 0 on, as a model gives them. Contracts see it as a list of booleans.
pub type Bits = Items<bool>;

/// A variable, or its negation.
#[derive(Clone, Copy, PartialEq, Eq, Debug, Default)]
pub struct Lit {
    /// The number of the variable, from 0 upwards.
    pub var: u32,
    /// Whether the literal holds where the variable is 0.
    pub negative: bool,
}

/// The number of a clause in its arena. It never changes.
#[derive(Clone, Copy, PartialEq, Eq, Debug)]
pub struct ClauseId(pub u32);

/// Whether the literal is in the clause.
pub fn has_lit(clause: &[Lit], lit: Lit) -> bool
    ensures { result ≡ has clause.now lit }
{
    clause.iter().any(|l| *l == lit)
}

/// Whether each literal of `some` is in `all`.
pub fn is_subset_of(some: &[Lit], all: &[Lit]) -> bool
    ensures { result ≡ is_subset some.now all.now }
{
    some.iter().all(|l| has_lit(all, *l))
}

/// Whether no literal stands twice in the list, as the arena asks of what it stores.
pub fn is_each_once(clause: &[Lit]) -> bool
    ensures { IsTrue result ↔ IsEachOnce clause.now }
{
    for (i, lit) in clause.iter().enumerate() {
        if has_lit(&clause[i + 1..], *lit) {
            return false;
        }
    }
    true
}

/// Whether a variable and its negation are both in the clause.
pub fn has_opposites(clause: &[Lit]) -> bool
    ensures { result ≡ is_tautology clause.now }
{
    clause.iter().any(|l| has_lit(
        clause,
        Lit {
            var: l.var,
            negative: !l.negative,
        },
    ))
}

/// Whether the variable stands in the clause with this sign alone.
pub fn stands_alone(negative: bool, clause: &[Lit], var: u32) -> bool
    ensures { result ≡ has_only negative clause.now var }
{
    has_lit(clause, Lit { var, negative })
        && !has_lit(
            clause,
            Lit {
                var,
                negative: !negative,
            },
        )
}

/// Whether the two clauses can be resolved on the variable: it stands in each with one sign alone,
/// and the signs are opposite.
pub fn is_clash(left: &[Lit], right: &[Lit], var: u32) -> bool
    ensures { result ≡ clash left.now right.now var }
{
    stands_alone(false, left, var) && stands_alone(true, right, var)
        || stands_alone(true, left, var) && stands_alone(false, right, var)
}

/// Puts the literals of all other variables after those of `out`.
pub fn push_without(out: &mut Vec<Lit>, clause: &[Lit], var: u32) -> Result<(), AllocError>
    ensures { OnOk result (out.new.items ≡ out.old.items ++ without var clause.now) }
{
    for l in clause {
        if l.var != var {
            out.push(*l)?;
        }
    }
    Ok(())
}

/// The resolvent of two clauses on a variable, if there is one.
pub fn resolvent(
    alloc: Global,
    left: &[Lit],
    right: &[Lit],
    var: u32,
) -> Result<Option<Vec<Lit>>, AllocError>
    ensures { IfOk result (λ found. option_map (λ v. v.items) found ≡ resolve left.now right.now var) }
{
    if !is_clash(left, right, var) {
        return Ok(None);
    }
    let mut out: Vec<Lit> = Vec::new(alloc);
    push_without(&mut out, left, var)?;
    push_without(&mut out, right, var)?;
    if has_opposites(&out) {
        return Ok(None);
    }
    Ok(Some(out))
}
