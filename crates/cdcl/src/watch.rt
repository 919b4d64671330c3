//! Which clauses are looked at where a literal becomes false: each clause with two literals or more
//! watches two of them, and is listed under both.

ghost use Rattle.std.specs.Prelude.{◌≡◌, ◌<◌, ◌+◌, ◌*◌, ◌++◌, ◌∷◌, ◌⊎◌, [], ℕ, length, slice_set, slice_index_or, MatchOption, IfOk, OnOk};
ghost use Rattle.std.specs.List.{swap_remove, Contains};
ghost use Rattle.clause_arena.specs.declared.ClauseId.{ClauseId};
ghost use Rattle.cdcl.specs.Watching.{IsAdded};
ghost use Rattle.cdcl.specs.Watched.{slot_of, listed, no_pair, IsOther};

use clause_arena::{ClauseId, Lit};
use std::alloc::{AllocError, Global};
use std::marker::Model;

/// The two literals of a clause that are watched.
#[derive(Clone, Copy)]
pub struct Pair {
    pub first: Lit,
    pub second: Lit,
}

/// The place of a literal's list.
fn slot(l: Lit) -> usize
    ensures { result ≡ slot_of l }
{
    2 * l.var as usize + if l.negative { 1 } else { 0 }
}

/// Which clauses are looked at where a literal becomes false.
#[derive(Drop)]
pub struct Watches {
    /// For each literal the clauses that watch it.
    lists: Vec<Vec<ClauseId>>,
    /// For each id the two literals that its clause watches.
    pairs: Vec<Pair>,
    /// For each id where the search for another literal ended last; no contract speaks of it.
    spots: Vec<usize>,
    /// How many literals of the trail were looked at.
    head: usize,
}

impl Model for Watches {
    ghost use Rattle.std.specs.Prelude.{map};
    ghost use Rattle.cdcl.specs.Table.{Table};

    ghost Value = { Table };

    ghost view = { λ a. record { lists = map (λ v. v.items) a.lists.items; pairs = a.pairs.items; head = a.head } };
}

impl Watches {
    /// No clause is watched.
    pub fn new(alloc: Global, vars: u32) -> Result<Watches, AllocError>
        ensures lists { IfOk result (λ w. length w.lists ≡ 2 * vars) }
        ensures pairs { IfOk result (λ w. w.pairs ≡ []) }
        ensures head { IfOk result (λ w. w.head ≡ 0) }
    {
        let mut lists: Vec<Vec<ClauseId>> = Vec::new(alloc);
        for filled in 0..2 * vars as usize {
            lists.push(Vec::new(alloc))?;
        }
        Ok(Watches {
            lists,
            pairs: Vec::new(alloc),
            spots: Vec::new(alloc),
            head: 0,
        })
    }

    /// How many literals of the trail were looked at.
    pub fn head(&self) -> usize
        ensures { result ≡ self.now.head }
    {
        self.head
    }

    /// Notes that the literals before this place of the trail are propagated.
    pub fn set_head(&mut self, head: usize)
        ensures head { self.new.head ≡ head }
        ensures lists { self.new.lists ≡ self.old.lists }
        ensures pairs { self.new.pairs ≡ self.old.pairs }
    {
        self.head = head;
    }

    /// Watches two literals of the clause of the next id.
    pub fn watch(&mut self, id: ClauseId, two: Pair) -> Result<(), AllocError>
        requires next { id.0 ≡ length self.old.pairs }
        requires first { slot_of two.first < length self.old.lists }
        requires second { slot_of two.second < length self.old.lists }
        ensures { OnOk result (IsAdded self.old self.new id two) }
    {
        self.pairs.push(two)?;
        self.spots.push(0)?;
        self.add_under(two.first, id)?;
        self.add_under(two.second, id)?;
        Ok(())
    }

    /// The next id is dead.
    pub fn pass_over(&mut self) -> Result<(), AllocError>
        ensures pairs { OnOk result (self.new.pairs ≡ self.old.pairs ++ no_pair ∷ []) }
        ensures lists { self.new.lists ≡ self.old.lists }
        ensures head { self.new.head ≡ self.old.head }
    {
        let none = Lit {
            var: 0,
            negative: false,
        };
        self.pairs.push(Pair {
            first: none,
            second: none,
        })?;
        self.spots.push(0)?;
        Ok(())
    }

    /// How many ids stand under a literal.
    pub fn len_under(&self, l: Lit) -> usize
        requires { slot_of l < length self.now.lists }
        ensures { result ≡ length (listed self.now.lists l) }
    {
        self.lists[slot(l)].len()
    }

    /// The id at a place under a literal.
    pub fn id_under(&self, l: Lit, i: usize) -> ClauseId
        requires slot { slot_of l < length self.now.lists }
        requires place { i < length (listed self.now.lists l) }
        ensures { (d : ClauseId) → slice_index_or (listed self.now.lists l) i d ≡ result }
    {
        self.lists[slot(l)][i]
    }

    /// The other literal of a clause that watches this one.
    pub fn other_of(&self, id: ClauseId, l: Lit) -> Option<Lit>
        requires { id.0 < length self.now.pairs }
        ensures { MatchOption result (¬ (((slice_index_or self.now.pairs id.0 no_pair).first ≡ l) ⊎ ((slice_index_or self.now.pairs id.0 no_pair).second ≡ l))) (IsOther (slice_index_or self.now.pairs id.0 no_pair) l) }
    {
        let two = self.pairs[id.0 as usize];
        if two.first == l {
            return Some(two.second);
        }
        if two.second == l {
            return Some(two.first);
        }
        None
    }

    /// Puts an id under a literal.
    pub fn add_under(&mut self, l: Lit, id: ClauseId) -> Result<(), AllocError>
        requires { slot_of l < length self.old.lists }
        ensures lists { OnOk result (self.new.lists ≡ slice_set self.old.lists (slot_of l) (listed self.old.lists l ++ id ∷ [])) }
        ensures pairs { self.new.pairs ≡ self.old.pairs }
        ensures head { self.new.head ≡ self.old.head }
    {
        self.lists[slot(l)].push(id)?;
        Ok(())
    }

    /// Takes the id at a place under a literal away.
    pub fn take_under(&mut self, l: Lit, i: usize)
        requires slot { slot_of l < length self.old.lists }
        requires place { i < length (listed self.old.lists l) }
        ensures lists { (d : ClauseId) → slice_index_or (listed self.old.lists l) i d ≡ d → self.new.lists ≡ slice_set self.old.lists (slot_of l) (swap_remove (listed self.old.lists l) i d) }
        ensures pairs { self.new.pairs ≡ self.old.pairs }
    {
        self.lists[slot(l)].swap_remove(i);
    }

    /// Where the search for another literal of the clause ended last.
    pub fn spot_of(&self, id: ClauseId) -> usize {
        let at = id.0 as usize;
        if at < self.spots.len() {
            self.spots[at]
        } else {
            0
        }
    }

    /// Gives a clause a pair, and keeps where the search for its first literal ended.
    pub fn set_pair(&mut self, id: ClauseId, two: Pair, spot: usize)
        requires { id.0 < length self.old.pairs }
        ensures pairs { self.new.pairs ≡ slice_set self.old.pairs id.0 two }
        ensures lists { self.new.lists ≡ self.old.lists }
    {
        let at = id.0 as usize;
        self.pairs[at] = two;
        if at < self.spots.len() {
            self.spots[at] = spot;
        }
    }
}
