//! The variables in their order.

ghost use Rattle.std.specs.Prelude.{◌≡◌, ◌<◌, ℕ, nat_le, true, [], length, OnOk};
ghost use Rattle.cdcl.specs.Numbers.{numbers};
ghost use Rattle.cdcl.specs.Pick.{IsFreeIn, IsPick};
ghost use Rattle.clause_arena.specs.Clause.{Clause, has, is_below};
ghost use Rattle.clause_arena.specs.declared.Lit.{Lit as TrueLit};

use crate::chooser::Chooser;
use crate::trail::FREE;
use clause_arena::Lit;
use std::alloc::{AllocError, Global};

/// Picks the lowest free variable.
#[derive(Drop)]
pub struct OrderChooser {
    vars: u32,
    /// No variable below this one is free.
    next: u32,
}

impl OrderChooser {
    /// A chooser that begins with the first variable.
    pub fn new(_alloc: Global) -> OrderChooser {
        OrderChooser { vars: 0, next: 0 }
    }
}

impl Chooser for OrderChooser {
    ghost ready_for = { λ c. c.vars };

    ghost knows = { λ c v. nat_le c.next v };

    ghost heard = { λ c. numbers [] 0 };

    ghost hears = { λ c x. numbers [] 0 };

    fn ready(&mut self, vars: u32) -> Result<(), AllocError> {
        self.vars = vars;
        self.next = 0;
        Ok(())
    }

    fn learned(&mut self, _lits: &[Lit]) {}

    fn freed(&mut self, lits: &[Lit]) {
        for l in lits {
            self.next = self.next.min(l.var);
        }
    }

    fn pick(&mut self, values: &[u8]) -> u32
        requires length { length values.now ≡ self.old.vars }
        requires known { (v : ℕ) → IsFreeIn values.now v → nat_le self.old.next v ≡ true }
        ensures ready { self.new.vars ≡ self.old.vars }
        ensures known { (v : ℕ) → IsFreeIn values.now v → nat_le self.new.next v ≡ true }
        // The lowest free variable, or 0 where none is free.
        ensures lowest { IsPick (λ v w. v < w) values.now result }
    {
        for var in self.next..self.vars {
            if values[var as usize] == FREE {
                self.next = var;
                return var;
            }
        }
        0
    }
}
