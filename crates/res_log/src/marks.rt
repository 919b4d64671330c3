//! A clause as one mark for each variable: a chain is resolved in time linear in its clauses.
ghost use Rattle.std.specs.Prelude.{◌≡◌, ℕ, ◌<◌, ◌++◌, ◌↔◌, true, not, None, Some, length, slice_set, slice_index_or, vec_len, IsTrue, IfOk, OnOk, OnErr};
ghost use Rattle.std.specs.List.{list_all};
ghost use Rattle.std.specs.Bool.{MatchBool, OnTrue};
ghost use Rattle.std.specs.Option.{IsSomeAnd};
ghost use Rattle.clause_arena.specs.Clause.{Clause, opposite, is_same, is_tautology, has_only, without, resolve};
ghost use Rattle.res_log.specs.Marks.{sign_at, is_marked, Marks, IsBlank, Sets, Adds};

use clause_arena::{Lit, stands_alone};
use std::alloc::{AllocError, Global};
use std::marker::Model;

/// Whether the variable stands in the clause with the opposite sign alone.
fn has_opposite(clause: &[Lit], var: u32, negative: bool) -> bool
    ensures { result ≡ has_only (not negative) clause.now var }
{
    stands_alone(!negative, clause, var)
}

/// A clause that holds no literal and its negation.
#[derive(Drop)]
pub struct MarkedClause {
    /// For each variable that stands in it, whether its literal is negative.
    signs: Vec<Option<bool>>,
    /// How many variables stand in it.
    count: usize,
}

impl Model for MarkedClause {
    ghost use Rattle.std.specs.Prelude.{◌≡◌, List, Option, Bool, is_some};
    ghost use Rattle.std.specs.List.{count_by};

    ghost Value = { List (Option Bool) };

    ghost view = { λ a. a.signs.items };

    ghost invariant = { λ a. count_by is_some a.signs.items ≡ a.count };
}

impl MarkedClause {
    /// An empty clause, with no mark set.
    pub fn new(alloc: Global) -> MarkedClause
        ensures { IsBlank result }
    {
        MarkedClause {
            signs: Vec::new(alloc),
            count: 0,
        }
    }

    /// Whether the variable's literal is negative, if it stands in the clause.
    fn sign_of(&self, var: u32) -> Option<bool>
        ensures { result ≡ sign_at self.now var }
    {
        self.signs.get(var as usize).copied().flatten()
    }

    fn has(&self, lit: Lit) -> bool
        ensures { result ≡ is_marked self.now lit }
    {
        match self.sign_of(lit.var) {
            Some(negative) => negative == lit.negative,
            None => false,
        }
    }

    fn has_all(&self, clause: &[Lit]) -> bool
        ensures { result ≡ list_all (is_marked self.now) clause.now }
    {
        clause.iter().all(|l| self.has(*l))
    }

    fn is_empty(&self) -> bool
        ensures { IsTrue result ↔ IsBlank self.now }
    {
        self.count == 0
    }

    fn set_sign(&mut self, var: u32, sign: Option<bool>)
        requires { var < length self.old }
        ensures { self.new ≡ slice_set self.old var sign }
    {
        let had = self.signs[var as usize].is_some() as usize;
        self.count = self.count + sign.is_some() as usize - had;
        self.signs[var as usize] = sign;
    }

    /// Makes room for the variable's mark.
    fn reach(&mut self, var: u32) -> Result<(), AllocError>
        ensures room { OnOk result (var < length self.new) }
        ensures same { (v : ℕ) → sign_at self.new v ≡ sign_at self.old v }
    {
        let needed = var as usize + 1;
        if self.signs.len() < needed {
            self.signs.resize(needed, None)?;
        }
        Ok(())
    }

    fn remove(&mut self, var: u32)
        ensures { Sets self.old self.new var None }
    {
        if (var as usize) < self.signs.len() {
            self.set_sign(var, None);
        }
    }

    /// Adds a literal; false if its negation stands in the clause.
    fn add(&mut self, lit: Lit) -> Result<bool, AllocError>
        ensures { IfOk result (λ added. MatchBool added (Adds self.old self.new lit) (is_marked self.old (opposite lit) ≡ true)) }
    {
        match self.sign_of(lit.var) {
            Some(negative) => Ok(negative == lit.negative),
            None => {
                self.reach(lit.var)?;
                self.set_sign(lit.var, Some(lit.negative));
                Ok(true)
            }
        }
    }

    /// Adds the literals of a clause; false if a literal and its negation come together.
    pub fn add_all(&mut self, clause: &[Lit]) -> Result<bool, AllocError>
        ensures { (c : Clause) → Marks self.old c → IfOk result (λ added. MatchBool added (Marks self.new (c ++ clause.now)) (is_tautology (c ++ clause.now) ≡ true)) }
    {
        for lit in clause {
            if !self.add(*lit)? {
                return Ok(false);
            }
        }
        Ok(true)
    }

    /// Adds the literals of other variables; false if a literal and its negation come together.
    fn add_without(&mut self, clause: &[Lit], var: u32) -> Result<bool, AllocError>
        ensures { (c : Clause) → Marks self.old c → IfOk result (λ added. MatchBool added (Marks self.new (c ++ without var clause.now)) (is_tautology (c ++ without var clause.now) ≡ true)) }
    {
        for lit in clause {
            if lit.var == var {
                continue;
            }
            if !self.add(*lit)? {
                return Ok(false);
            }
        }
        Ok(true)
    }

    /// Resolves it with a clause on the pivot; false if they have no resolvent.
    pub fn resolve_with(&mut self, clause: &[Lit], pivot: u32) -> Result<bool, AllocError>
        ensures { (c : Clause) → Marks self.old c → IfOk result (λ resolved. MatchBool resolved (IsSomeAnd (resolve c clause.now pivot) (Marks self.new)) (resolve c clause.now pivot ≡ None)) }
    {
        let Some(negative) = self.sign_of(pivot) else {
            return Ok(false);
        };
        if !has_opposite(clause, pivot, negative) {
            return Ok(false);
        }
        self.remove(pivot);
        self.add_without(clause, pivot)
    }

    /// Whether it is the same set as the clause. If so, no literal is left in it.
    pub fn take_if_same(&mut self, clause: &[Lit]) -> bool
        ensures same { (c : Clause) → Marks self.old c → result ≡ is_same c clause.now }
        ensures taken { OnTrue result (IsBlank self.new) }
    {
        if !self.has_all(clause) {
            return false;
        }
        for lit in clause {
            self.remove(lit.var);
        }
        self.is_empty()
    }
}
