//! One vector of literals, with a table of where each clause stands in it.
//!
//! Clauses stand in the order of their ids. A dead one leaves a gap, until `compact` moves the
//! later ones down.

ghost use Rattle.std.specs.Prelude.{◌≡◌, ◌<◌, ◌≤◌, ◌+◌, slice_range, [], ◌∷◌, ◌++◌, length, slice_set, Some, None, IfOk, OnOk, OnErr, IsSome, IsSomeAnd, is_none, is_some, vec_len, vec_capacity, take, drop, ◌-◌, swap};
ghost use Rattle.std.specs.Option.{ForSome};
ghost use Rattle.clause_arena.specs.Arena.{HasNoLessRoom, MOST_CLAUSES};
ghost use Rattle.clause_arena.specs.Clause.{clause_at, IsEachOnce};
ghost use Rattle.clause_arena.specs.Spans.{parts, AreInOrder};

use crate::{ClauseId, Lit};
use std::alloc::{AllocError, Global};
use std::marker::Model;

/// Where a clause stands in the vector of literals: from the first place up to the second.
#[derive(Clone, Copy)]
pub struct Span {
    from: usize,
    to: usize,
}

fn part_of(lits: &[Lit], span: Span) -> &[Lit]
    requires start { span.from ≤ span.to }
    requires end { span.to ≤ length lits.now }
    ensures { result.now ≡ slice_range lits.now span.from span.to }
{
    &lits[span.from..span.to]
}

/// Puts more literals at the end, in room that is there.
fn append_reserved(lits: &mut Vec<Lit>, more: &[Lit])
    requires { vec_len lits.old + length more.now ≤ vec_capacity lits.old }
    ensures items { lits.new.items ≡ lits.old.items ++ more.now }
    ensures capacity { vec_capacity lits.new ≡ vec_capacity lits.old }
{
    for lit in more {
        lits.push_reserved(*lit);
    }
}

/// Moves a clause down to start at `end`, and says where it stands then. What comes before `end`
/// and after the clause stays.
fn move_down(lits: &mut Vec<Lit>, span: Span, end: usize) -> Span
    requires start { span.from ≤ span.to }
    requires room { span.to ≤ length lits.old.items }
    requires down { end ≤ span.from }
    ensures from { result.from ≡ end }
    ensures to { result.to ≡ end + (span.to - span.from) }
    ensures moved { slice_range lits.new.items result.from result.to ≡ slice_range lits.old.items span.from span.to }
    ensures below { take end lits.new.items ≡ take end lits.old.items }
    ensures above { drop span.to lits.new.items ≡ drop span.to lits.old.items }
    ensures len { length lits.new.items ≡ length lits.old.items }
    ensures capacity { vec_capacity lits.new ≡ vec_capacity lits.old }
{
    lits.copy_within(span.from..span.to, end);
    Span {
        from: end,
        to: end + (span.to - span.from),
    }
}

/// Moves each live clause down to where the one before it ends, and says where the last one ends.
fn close_gaps(lits: &mut Vec<Lit>, spans: &mut [Option<Span>]) -> usize
    requires { AreInOrder 0 (length lits.old.items) spans.old }
    ensures same { parts lits.new.items spans.new ≡ parts lits.old.items spans.old }
    ensures order { AreInOrder 0 result spans.new }
    ensures within { result ≤ length lits.new.items }
    ensures len { length lits.new.items ≡ length lits.old.items }
    ensures capacity { vec_capacity lits.new ≡ vec_capacity lits.old }
{
    let mut end = 0;
    for i in 0..spans.len() {
        if let Some(span) = spans[i] {
            let moved = move_down(lits, span, end);
            spans[i] = Some(moved);
            end = moved.to;
        }
    }
    end
}

/// The clauses that were given an id, from 0 upwards. An id stays for good: a clause that is set
/// dead keeps its id, and no other clause gets it.
#[derive(Drop)]
pub struct ClauseArena {
    lits: Vec<Lit>,
    /// By id. `None` where the clause was set dead.
    spans: Vec<Option<Span>>,
}

impl Model for ClauseArena {
    ghost use Rattle.std.specs.Prelude.{◌-◌, vec_len, vec_capacity};
    ghost use Rattle.clause_arena.specs.Arena.{Arena};

    ghost Value = { Arena };

    ghost use Rattle.clause_arena.specs.Spans.{parts, IsTable};

    ghost view = { λ a. record { clauses = parts a.lits.items a.spans.items; spare_clauses = vec_capacity a.spans - vec_len a.spans; spare_lits = vec_capacity a.lits - vec_len a.lits } };

    ghost invariant = { λ a. IsTable a.lits.items a.spans.items };
}

impl ClauseArena {
    /// An arena without clauses.
    pub fn new(alloc: Global) -> ClauseArena
        ensures { result.clauses ≡ [] }
    {
        ClauseArena {
            lits: Vec::new(alloc),
            spans: Vec::new(alloc),
        }
    }

    /// How many ids were given, those of dead clauses counted.
    pub fn count(&self) -> u32
        ensures { result ≡ length self.now.clauses }
    {
        self.spans.len() as u32
    }

    /// Makes room, so that as many clauses can be stored with as many literals in all without
    /// asking for memory.
    pub fn reserve(&mut self, clauses: u32, lits: u32) -> Result<(), AllocError>
        ensures same { self.new.clauses ≡ self.old.clauses }
        ensures clauses { OnOk result (clauses ≤ self.new.spare_clauses) }
        ensures lits { OnOk result (lits ≤ self.new.spare_lits) }
        ensures kept { HasNoLessRoom self.old self.new }
    {
        self.reserve_room(clauses as usize, lits as usize)
    }

    fn reserve_room(&mut self, clauses: usize, lits: usize) -> Result<(), AllocError>
        ensures same { self.new.clauses ≡ self.old.clauses }
        ensures clauses { OnOk result (clauses ≤ self.new.spare_clauses) }
        ensures lits { OnOk result (lits ≤ self.new.spare_lits) }
        ensures kept { HasNoLessRoom self.old self.new }
    {
        self.spans.reserve(clauses)?;
        self.lits.reserve(lits)
    }

    /// Gives the next id to a clause. It stores the list as it was handed in. Where memory is
    /// refused, the arena is as before.
    pub fn push(&mut self, lits: &[Lit]) -> Result<ClauseId, AllocError>
        requires room { length self.old.clauses < MOST_CLAUSES }
        requires distinct { IsEachOnce lits.now }
        ensures stored { OnOk result (self.new.clauses ≡ self.old.clauses ++ Some lits.now ∷ []) }
        ensures next { IfOk result (λ id. id.0 ≡ length self.old.clauses) }
        ensures unchanged { OnErr result (self.new.clauses ≡ self.old.clauses) }
        ensures kept { OnErr result (HasNoLessRoom self.old self.new) }
    {
        self.reserve_room(1, lits.len())?;
        Ok(self.push_reserved(lits))
    }

    /// As `push`, in room that `reserve` made: it asks for no memory, and so cannot fail.
    pub fn push_reserved(&mut self, lits: &[Lit]) -> ClauseId
        requires room { length self.old.clauses < MOST_CLAUSES }
        requires distinct { IsEachOnce lits.now }
        requires spare_clause { 0 < self.old.spare_clauses }
        requires spare_lits { length lits.now ≤ self.old.spare_lits }
        ensures stored { self.new.clauses ≡ self.old.clauses ++ Some lits.now ∷ [] }
        ensures next { result.0 ≡ length self.old.clauses }
        ensures clauses_left { self.old.spare_clauses ≤ self.new.spare_clauses + 1 }
        ensures lits_left { self.old.spare_lits ≤ self.new.spare_lits + length lits.now }
    {
        let id = self.spans.len() as u32;
        let from = self.lits.len();
        append_reserved(&mut self.lits, lits);
        let to = self.lits.len();
        self.spans.push_reserved(Some(Span { from, to }));
        ClauseId(id)
    }

    /// The list of a live clause.
    pub fn lits(&self, id: ClauseId) -> &[Lit]
        requires { IsSome (clause_at self.now.clauses id.0) }
        ensures list { clause_at self.now.clauses id.0 ≡ Some result.now }
        ensures distinct { IsEachOnce result.now }
    {
        match self.spans[id.0 as usize] {
            Some(span) => part_of(&self.lits, span),
            None => &[],
        }
    }

    /// Takes a clause out. Its id stays given, and no other clause changes.
    pub fn set_dead(&mut self, id: ClauseId)
        requires { id.0 < length self.old.clauses }
        ensures dead { self.new.clauses ≡ slice_set self.old.clauses id.0 None }
        ensures kept { HasNoLessRoom self.old self.new }
    {
        self.spans[id.0 as usize] = None;
    }

    /// Whether the id was set dead.
    pub fn is_dead(&self, id: ClauseId) -> bool
        requires { id.0 < length self.now.clauses }
        ensures { result ≡ is_none (clause_at self.now.clauses id.0) }
    {
        self.spans[id.0 as usize].is_none()
    }

    /// Whether the id was given and not set dead.
    pub fn is_live(&self, id: ClauseId) -> bool
        ensures { result ≡ is_some (clause_at self.now.clauses id.0) }
    {
        match self.spans.get(id.0 as usize) {
            Some(span) => span.is_some(),
            None => false,
        }
    }

    /// Exchanges two places in the list of a live clause. No other list changes.
    pub fn swap(&mut self, id: ClauseId, i: u32, j: u32)
        requires { IsSomeAnd (clause_at self.old.clauses id.0) (λ c. (i < length c) × (j < length c)) }
        ensures swapped { ForSome (clause_at self.old.clauses id.0) (λ c. self.new.clauses ≡ slice_set self.old.clauses id.0 (Some (swap c i j))) }
        ensures kept { HasNoLessRoom self.old self.new }
    {
        if let Some(span) = self.spans[id.0 as usize] {
            self.lits
                .swap(span.from + i as usize, span.from + j as usize);
        }
    }

    /// Closes the gaps that dead clauses leave, and so makes room. Each id keeps its clause.
    pub fn compact(&mut self)
        ensures same { self.new.clauses ≡ self.old.clauses }
        ensures kept { HasNoLessRoom self.old self.new }
    {
        let end = close_gaps(&mut self.lits, self.spans.as_mut_slice());
        self.lits.truncate(end);
    }
}
