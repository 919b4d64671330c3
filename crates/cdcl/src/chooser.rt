//! What picks the variable that is decided next. The solver trusts no answer.

ghost use Rattle.std.specs.Prelude.{◌≡◌, ◌<◌, ℕ, Bool, true, length, OnOk};
ghost use Rattle.clause_arena.specs.Clause.{Clause, has, is_below};
ghost use Rattle.clause_arena.specs.declared.Lit.{Lit as TrueLit};
ghost use Rattle.cdcl.specs.Numbers.{Numbers};
ghost use Rattle.cdcl.specs.Pick.{IsFreeIn};

use clause_arena::Lit;
use std::alloc::AllocError;

/// Picks variables to decide. It is made ready for a number of variables, and knows some of them: each
/// that is free is known to it, as `freed` keeps it.
pub trait Chooser: Drop {
    ghost ready_for: { Self → ℕ };

    ghost knows: { Self → ℕ → Bool };
    // What it has kept of the clauses that it heard of, and what one clause more makes of that.
    ghost heard: { Self → Numbers };

    ghost hears: { Self → Clause → Numbers };

    /// Begins anew for variables `0` to `vars - 1`, all of them free. Memory is the only error.
    fn ready(&mut self, vars: u32) -> Result<(), AllocError>
        ensures ready { OnOk result (ready_for self.new ≡ vars) }
        ensures known { OnOk result ((v : ℕ) → v < vars → knows self.new v ≡ true) };

    /// Hears of a clause that was derived.
    fn learned(&mut self, lits: &[Lit])
        requires { is_below (ready_for self.old) lits.now ≡ true }
        ensures ready { ready_for self.new ≡ ready_for self.old }
        ensures known { (v : ℕ) → knows self.old v ≡ true → knows self.new v ≡ true }
        ensures heard { heard self.new ≡ hears self.old lits.now };

    /// Hears of literals that are taken back: their variables become free.
    fn freed(&mut self, lits: &[Lit])
        requires { is_below (ready_for self.old) lits.now ≡ true }
        ensures ready { ready_for self.new ≡ ready_for self.old }
        ensures known { (v : ℕ) → knows self.old v ≡ true → knows self.new v ≡ true }
        ensures freed { (l : TrueLit) → has lits.now l ≡ true → knows self.new l.var ≡ true }
        ensures heard { heard self.new ≡ heard self.old }
        ensures hears { (c : Clause) → hears self.new c ≡ hears self.old c };

    /// Picks a variable, given for each whether it is free (0), true (1) or false (2). A pick that
    /// is out of range or has a value means the lowest free variable.
    fn pick(&mut self, values: &[u8]) -> u32
        requires length { length values.now ≡ ready_for self.old }
        requires known { (v : ℕ) → IsFreeIn values.now v → knows self.old v ≡ true }
        ensures ready { ready_for self.new ≡ ready_for self.old }
        ensures known { (v : ℕ) → IsFreeIn values.now v → knows self.new v ≡ true }
        ensures heard { heard self.new ≡ heard self.old }
        ensures hears { (c : Clause) → hears self.new c ≡ hears self.old c };
}

/// The choosers that a user may name.
#[derive(Drop)]
pub struct Choosers {
    pub order: Box<dyn Chooser>,
    pub activity: Box<dyn Chooser>,
}
