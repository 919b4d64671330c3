//! The literals that are true, in the order in which they became so, and arrays by variable for the
//! questions that are asked of them.

ghost use Rattle.std.specs.Prelude.{◌≡◌, ◌<◌, ◌≤◌, ◌-◌, ◌++◌, ◌∷◌, [], ℕ, true, false, length, take, slice_index_or, Option, MatchOption, IfOk, OnOk, OnErr};
ghost use Rattle.clause_arena.specs.Clause.{has, lit, lit_eq, opposite, is_below, without};
ghost use Rattle.clause_arena.specs.declared.ClauseId.{ClauseId};
ghost use Rattle.res_log.specs.Partial.{is_free, is_false};
ghost use Rattle.cdcl.specs.Trail.{IsConsistent, IsLastDecision, AreForcedFrom};
ghost use Rattle.cdcl.specs.Arrays.{code_of, AreValues, ArePlaces, reasons_along};

use clause_arena::{ClauseId, Lit};
use std::alloc::{AllocError, Global};

/// The values of a variable.
pub const FREE: u8 = 0;

/// The value of a variable that is 1.
pub const TRUE: u8 = 1;

/// The value of a variable that is 0.
pub const FALSE: u8 = 2;

/// The other literal of the same variable.
pub fn negated(l: Lit) -> Lit
    ensures { result ≡ opposite l }
{
    Lit {
        var: l.var,
        negative: !l.negative,
    }
}

/// Whether two literals are one.
pub fn is_same_lit(left: Lit, right: Lit) -> bool
    ensures { result ≡ lit_eq left right }
{
    left == right
}

/// The value of its variable under which a literal is true.
pub fn value_of(l: Lit) -> u8
    ensures { result ≡ code_of l }
{
    if l.negative { FALSE } else { TRUE }
}

/// The literals that are true, in the order in which they became so, and why.
#[derive(Drop)]
pub struct Trail {
    /// The literals that are true, the oldest first.
    pub lits: Vec<Lit>,
    /// The value of each variable.
    pub values: Vec<u8>,
    /// For each variable that has a value the place of its literal.
    pub places: Vec<usize>,
    /// For each variable that has a value the clause that forced it; `None` if it was decided.
    pub reasons: Vec<Option<ClauseId>>,
    ghost one_place_each: { length places.items ≡ length values.items },
    ghost one_reason_each: { length reasons.items ≡ length values.items },
    ghost below: { is_below (length values.items) lits.items ≡ true },
    ghost consistent: { IsConsistent lits.items },
    ghost valued: { AreValues lits.items values.items },
    ghost placed: { ArePlaces lits.items places.items },
}

impl Trail {
    /// No literal is true.
    pub fn new(alloc: Global, vars: u32) -> Result<Trail, AllocError>
        ensures empty { IfOk result (λ t. t.lits.items ≡ []) }
        ensures vars { IfOk result (λ t. length t.values.items ≡ vars) }
    {
        let values = vec![in alloc; FREE; vars as usize]?;
        let places = vec![in alloc; 0usize; vars as usize]?;
        let mut reasons: Vec<Option<ClauseId>> = Vec::new(alloc);
        for filled in 0..vars {
            reasons.push(None)?;
        }
        Ok(Trail {
            lits: Vec::new(alloc),
            values,
            places,
            reasons,
        })
    }

    /// How many variables there are.
    pub fn vars(&self) -> u32
        requires { length self.now.values.items < 4294967296 }
        ensures { result ≡ length self.now.values.items }
    {
        self.values.len() as u32
    }

    /// Whether the literal is true.
    pub fn holds(&self, l: Lit) -> bool
        requires { l.var < length self.now.values.items }
        ensures { result ≡ has self.now.lits.items l }
    {
        self.values[l.var as usize] == value_of(l)
    }

    /// Whether the variable has no value.
    pub fn is_free(&self, var: u32) -> bool
        requires { var < length self.now.values.items }
        ensures { result ≡ is_free self.now.lits.items (lit true var) }
    {
        self.values[var as usize] == FREE
    }

    /// The clause that forced the literal at a place.
    pub fn reason_at(&self, place: usize) -> Option<ClauseId>
        requires { place < length self.now.lits.items }
        ensures { (o : Option ClauseId) → slice_index_or (reasons_along self.now.reasons.items self.now.lits.items) place o ≡ result }
    {
        self.reasons[self.lits[place].var as usize]
    }

    /// Makes a free literal true.
    pub fn push(&mut self, l: Lit, reason: Option<ClauseId>) -> Result<(), AllocError>
        requires below { l.var < length self.old.values.items }
        requires free { is_free self.old.lits.items l ≡ true }
        ensures pushed { OnOk result (self.new.lits.items ≡ self.old.lits.items ++ l ∷ []) }
        ensures reasoned { OnOk result (reasons_along self.new.reasons.items self.new.lits.items ≡ reasons_along self.old.reasons.items self.old.lits.items ++ reason ∷ []) }
        ensures vars { length self.new.values.items ≡ length self.old.values.items }
    {
        let place = self.lits.len();
        self.lits.push(l)?;
        let at = l.var as usize;
        self.values[at] = value_of(l);
        self.places[at] = place;
        self.reasons[at] = reason;
        Ok(())
    }

    /// Takes the newest literal back.
    pub fn pop(&mut self)
        requires { 0 < length self.old.lits.items }
        ensures popped { self.new.lits.items ≡ take (length self.old.lits.items - 1) self.old.lits.items }
        ensures reasoned { self.new.reasons.items ≡ self.old.reasons.items }
        ensures vars { length self.new.values.items ≡ length self.old.values.items }
    {
        match self.lits.pop() {
            None => {}
            Some(l) => self.values[l.var as usize] = FREE,
        }
    }

    /// Takes all literals from a place on back.
    pub fn back_to(&mut self, end: usize)
        requires { end ≤ length self.old.lits.items }
        ensures back { self.new.lits.items ≡ take end self.old.lits.items }
        ensures reasoned { self.new.reasons.items ≡ self.old.reasons.items }
        ensures vars { length self.new.values.items ≡ length self.old.values.items }
    {
        'back: while end < self.lits.len() {
            self.pop();
        }
    }

    /// The place of the last literal that nothing forced.
    pub fn last_decision(&self) -> Option<usize>
        ensures { MatchOption result (AreForcedFrom (reasons_along self.now.reasons.items self.now.lits.items) 0) (IsLastDecision (reasons_along self.now.reasons.items self.now.lits.items)) }
    {
        let mut i = self.lits.len();
        'back: while 0 < i {
            i -= 1;
            match self.reason_at(i) {
                Some(_) => continue,
                None => return Some(i),
            }
        }
        None
    }

    /// Whether the literals of other variables in a false clause became false before a place.
    pub fn are_others_before(&self, start: usize, clause: &[Lit], var: u32) -> bool
        requires below { is_below (length self.now.values.items) clause.now ≡ true }
        requires falsified { is_false self.now.lits.items clause.now ≡ true }
        requires place { start ≤ length self.now.lits.items }
        ensures { result ≡ is_false (take start self.now.lits.items) (without var clause.now) }
    {
        for l in clause {
            if l.var == var {
                continue;
            }
            if start <= self.places[l.var as usize] {
                return false;
            }
        }
        true
    }
}
