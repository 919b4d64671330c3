//! Choosers that pick without a look at the values.

ghost use Rattle.std.specs.Prelude.{◌≡◌, ◌<◌, ℕ, true, [], length, OnOk};
ghost use Rattle.clause_arena.specs.Clause.{Clause, has, is_below};
ghost use Rattle.clause_arena.specs.declared.Lit.{Lit as TrueLit};
ghost use Rattle.cdcl.specs.Numbers.{numbers};
ghost use Rattle.cdcl.specs.Pick.{IsFreeIn};

use cdcl::Chooser;
use clause_arena::Lit;
use std::alloc::AllocError;

/// Picks one number always.
#[derive(Drop)]
pub struct Always {
    vars: u32,
    pick: u32,
}

impl Always {
    /// A chooser that always answers this number.
    pub fn new(pick: u32) -> Always {
        Always { vars: 0, pick }
    }
}

impl Chooser for Always {
    ghost ready_for = { λ c. c.vars };

    ghost knows = { λ c v. true };

    ghost heard = { λ c. numbers [] 0 };

    ghost hears = { λ c x. numbers [] 0 };

    fn ready(&mut self, vars: u32) -> Result<(), AllocError> {
        self.vars = vars;
        Ok(())
    }

    fn learned(&mut self, _lits: &[Lit]) {}

    fn freed(&mut self, _lits: &[Lit]) {}

    fn pick(&mut self, _values: &[u8]) -> u32 {
        self.pick
    }
}

/// Counts downwards from the greatest number.
#[derive(Drop)]
pub struct Downwards {
    vars: u32,
    next: u32,
}

impl Downwards {
    /// A chooser that begins with the greatest number.
    pub fn new() -> Downwards {
        Downwards {
            vars: 0,
            next: u32::MAX,
        }
    }
}

impl Chooser for Downwards {
    ghost ready_for = { λ c. c.vars };

    ghost knows = { λ c v. true };

    ghost heard = { λ c. numbers [] 0 };

    ghost hears = { λ c x. numbers [] 0 };

    fn ready(&mut self, vars: u32) -> Result<(), AllocError> {
        self.vars = vars;
        Ok(())
    }

    fn learned(&mut self, _lits: &[Lit]) {}

    fn freed(&mut self, _lits: &[Lit]) {}

    fn pick(&mut self, _values: &[u8]) -> u32 {
        let pick = self.next;
        self.next = pick.wrapping_sub(1);
        pick
    }
}

/// Counts how often it is asked, and picks 0. Asked for no values, it answers the count.
#[derive(Drop)]
pub struct Recording {
    vars: u32,
    asked: u32,
}

impl Recording {
    /// A recorder of what was asked.
    pub fn new() -> Recording {
        Recording { vars: 0, asked: 0 }
    }
}

impl Chooser for Recording {
    ghost ready_for = { λ c. c.vars };

    ghost knows = { λ c v. true };

    ghost heard = { λ c. numbers [] 0 };

    ghost hears = { λ c x. numbers [] 0 };

    fn ready(&mut self, vars: u32) -> Result<(), AllocError> {
        self.vars = vars;
        Ok(())
    }

    fn learned(&mut self, _lits: &[Lit]) {}

    fn freed(&mut self, _lits: &[Lit]) {}

    fn pick(&mut self, values: &[u8]) -> u32 {
        if values.is_empty() {
            return self.asked;
        }
        self.asked = self.asked.saturating_add(1);
        0
    }
}
