//! The variables by how often they stood in clauses that were derived lately.

ghost use Rattle.std.specs.Prelude.{◌≡◌, ◌≤◌, ◌<◌, ◌^◌, ℕ, true, false, length, slice_index, slice_index_or};
ghost use Rattle.clause_arena.specs.Clause.{Clause, has, is_below};
ghost use Rattle.clause_arena.specs.declared.Lit.{Lit as TrueLit};
ghost use Rattle.variable_ranks.specs.Best.{IsIn, IsBetter};
ghost use Rattle.cdcl.specs.Numbers.{numbers, shrunk, shrunk_step, gained, grown, after_clause};
ghost use Rattle.cdcl.specs.Pick.{IsFreeIn, IsPick};

use crate::chooser::Chooser;
use crate::trail::FREE;
use clause_arena::Lit;
use std::alloc::{AllocError, Global};
use variable_ranks::Ranks;

/// The most that an activity or the step may be before all are made smaller.
const LIMIT: u64 = 1 << 60;

/// By what they are divided then.
const SHRINK: u64 = 1 << 40;

/// Picks the free variable with the greatest activity, the lowest at a tie.
#[derive(Drop)]
pub struct ActivityChooser {
    alloc: Global,
    /// For each variable the sum of the steps at which it was learned; each free variable is in the set.
    ranks: Ranks,
    /// What the next clause adds to its variables.
    step: u64,
    ghost step_positive: { 1 ≤ step },
    ghost step_small: { step ≤ 2 ^ 60 },
    ghost small: { (v : ℕ) → v < length ranks.numbers.items → slice_index ranks.numbers.items v ≤ 2 ^ 60 },
}

impl ActivityChooser {
    /// A chooser that has heard of no variable yet.
    pub fn new(alloc: Global) -> ActivityChooser {
        ActivityChooser {
            alloc,
            ranks: Ranks::new(alloc),
            step: 1,
        }
    }

    fn shrink(&mut self)
        ensures each { self.new.ranks.numbers.items ≡ shrunk self.old.ranks.numbers.items }
        ensures step { self.new.step ≡ shrunk_step self.old.step }
        ensures same { self.new.ranks.present.items ≡ self.old.ranks.present.items }
    {
        self.ranks.divide(SHRINK);
        let step = self.step / SHRINK;
        self.step = if step < 1 { 1 } else { step };
    }

    /// Adds the step to one variable.
    fn bump(&mut self, var: u32)
        requires { var < length self.old.ranks.numbers.items }
        ensures len { length self.new.ranks.numbers.items ≡ length self.old.ranks.numbers.items }
        ensures gained { numbers self.new.ranks.numbers.items self.new.step ≡ gained (numbers self.old.ranks.numbers.items self.old.step) var }
        ensures same { self.new.ranks.present.items ≡ self.old.ranks.present.items }
    {
        let sum = self.ranks.numbers[var as usize] + self.step;
        if sum <= LIMIT {
            self.ranks.set_number(var, sum);
            return;
        }
        self.shrink();
        self.ranks.set_number(var, sum / SHRINK);
    }

    /// Makes the step greater by a sixteenth of itself and 1.
    fn grow(&mut self)
        ensures len { length self.new.ranks.numbers.items ≡ length self.old.ranks.numbers.items }
        ensures grown { numbers self.new.ranks.numbers.items self.new.step ≡ grown (numbers self.old.ranks.numbers.items self.old.step) }
        ensures same { self.new.ranks.present.items ≡ self.old.ranks.present.items }
    {
        let next = self.step + self.step / 16 + 1;
        if next <= LIMIT {
            self.step = next;
            return;
        }
        self.shrink();
        self.step = next / SHRINK;
    }
}

impl Chooser for ActivityChooser {
    ghost ready_for = { λ c. length c.ranks.numbers.items };

    ghost knows = { λ c v. slice_index_or c.ranks.present.items v false };

    ghost heard = { λ c. numbers c.ranks.numbers.items c.step };

    ghost hears = { λ c x. after_clause (numbers c.ranks.numbers.items c.step) x };

    fn ready(&mut self, vars: u32) -> Result<(), AllocError> {
        self.ranks = Ranks::all(self.alloc, vars)?;
        self.step = 1;
        Ok(())
    }

    fn learned(&mut self, lits: &[Lit]) {
        for l in lits {
            self.bump(l.var);
        }
        self.grow();
    }

    fn freed(&mut self, lits: &[Lit]) {
        for l in lits {
            self.ranks.put(l.var);
        }
    }

    fn pick(&mut self, values: &[u8]) -> u32
        requires length { length values.now ≡ length self.old.ranks.numbers.items }
        requires known { (v : ℕ) → IsFreeIn values.now v → IsIn self.old.ranks.present.items v }
        ensures known { (v : ℕ) → IsFreeIn values.now v → IsIn self.new.ranks.present.items v }
        // The free variable with the greatest number, the lowest at a tie, or 0 where none is free.
        ensures best { IsPick (IsBetter self.old.ranks.numbers.items) values.now result }
        ensures same { self.new.ranks.numbers.items ≡ self.old.ranks.numbers.items }
        ensures step { self.new.step ≡ self.old.step }
    {
        'taken: loop {
            let var = match self.ranks.best() {
                None => return 0,
                Some(var) => var,
            };
            if values[var as usize] == FREE {
                return var;
            }
            self.ranks.take(var);
        }
    }
}
