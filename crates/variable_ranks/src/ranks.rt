//! Variables by their numbers.

ghost use Rattle.std.specs.Prelude.{◌≡◌, ◌<◌, ◌/◌, ◌^◌, ℕ, true, false, length, map, slice_index, slice_index_or, slice_set, List, [], MatchOption, IfOk};
ghost use Rattle.variable_ranks.specs.Games.{ArePlayed};
ghost use Rattle.variable_ranks.specs.Best.{IsIn, IsBest};

use crate::games::{divide_each, play_all, player_at, replay};
use std::alloc::{AllocError, Global};

/// A number for each of the variables `0` to `n - 1`, and a set of them of which the best is known.
#[derive(Drop)]
pub struct Ranks {
    /// The number of each variable.
    pub numbers: Vec<u64>,
    /// For each variable whether it is in the set.
    pub present: Vec<bool>,
    /// Who won each game; there is none with the number 0.
    winners: Vec<Option<u32>>,
    ghost few: { length numbers.items < 2 ^ 32 },
    ghost one_flag_each: { length present.items ≡ length numbers.items },
    ghost one_winner_each: { length winners.items ≡ length numbers.items },
    ghost played: { ArePlayed numbers.items present.items winners.items },
}

impl Ranks {
    /// No variable.
    pub fn new(alloc: Global) -> Ranks
        ensures { result.numbers.items ≡ [] }
    {
        Ranks {
            numbers: Vec::new(alloc),
            present: Vec::new(alloc),
            winners: Vec::new(alloc),
        }
    }

    /// All of `count` variables are in the set, each with the number 0. Memory is the only error.
    pub fn all(alloc: Global, count: u32) -> Result<Ranks, AllocError>
        ensures count { IfOk result (λ r. length r.numbers.items ≡ count) }
        ensures zero { IfOk result (λ r. (v : ℕ) → slice_index r.numbers.items v ≡ 0) }
        ensures full { IfOk result (λ r. (v : ℕ) → v < count → IsIn r.present.items v) }
    {
        let numbers = vec![in alloc; 0u64; count as usize]?;
        let present = vec![in alloc; true; count as usize]?;
        let mut winners: Vec<Option<u32>> = Vec::new(alloc);
        for filled in 0..count {
            winners.push(None)?;
        }
        play_all(numbers.as_slice(), present.as_slice(), &mut winners);
        Ok(Ranks {
            numbers,
            present,
            winners,
        })
    }

    /// The variable of the set with the greatest number, the lowest at a tie.
    pub fn best(&self) -> Option<u32>
        ensures { IsBest self.now.numbers.items self.now.present.items result }
    {
        player_at(self.present.as_slice(), self.winners.as_slice(), 1)
    }

    /// Puts a variable into the set, or takes it out.
    fn mark(&mut self, var: u32, is_in: bool)
        requires { var < length self.old.numbers.items }
        ensures numbers { self.new.numbers.items ≡ self.old.numbers.items }
        ensures marked { self.new.present.items ≡ slice_set self.old.present.items var is_in }
    {
        let place = self.winners.len() + var as usize;
        self.present[var as usize] = is_in;
        replay(
            self.numbers.as_slice(),
            self.present.as_slice(),
            &mut self.winners,
            place / 2,
        );
    }

    /// Puts a variable into the set.
    pub fn put(&mut self, var: u32)
        requires { var < length self.old.numbers.items }
        ensures numbers { self.new.numbers.items ≡ self.old.numbers.items }
        ensures put { self.new.present.items ≡ slice_set self.old.present.items var true }
    {
        self.mark(var, true);
    }

    /// Takes a variable out of the set.
    pub fn take(&mut self, var: u32)
        requires { var < length self.old.numbers.items }
        ensures numbers { self.new.numbers.items ≡ self.old.numbers.items }
        ensures taken { self.new.present.items ≡ slice_set self.old.present.items var false }
    {
        self.mark(var, false);
    }

    /// Gives a variable another number.
    pub fn set_number(&mut self, var: u32, number: u64)
        requires { var < length self.old.numbers.items }
        ensures number { self.new.numbers.items ≡ slice_set self.old.numbers.items var number }
        ensures same { self.new.present.items ≡ self.old.present.items }
    {
        let at = var as usize;
        if !self.present[at] {
            self.numbers[at] = number;
            return;
        }
        self.take(var);
        self.numbers[at] = number;
        self.put(var);
    }

    /// Divides all numbers, each quotient rounded down.
    pub fn divide(&mut self, by: u64)
        requires { 0 < by }
        ensures numbers { self.new.numbers.items ≡ map (λ x. x / by) self.old.numbers.items }
        ensures same { self.new.present.items ≡ self.old.present.items }
    {
        divide_each(&mut self.numbers, by);
        play_all(
            self.numbers.as_slice(),
            self.present.as_slice(),
            &mut self.winners,
        );
    }
}
