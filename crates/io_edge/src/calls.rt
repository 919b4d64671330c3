//! The calls of an object in memory, of which some are told to fail.

ghost use Rattle.std.specs.Prelude.{◌≡◌, ℕ, ◌+◌, ◌^◌, ◌-◌, ◌==◌, ◌++◌, ◌∷◌, [], min, OnOk, OnErr};
ghost use Rattle.std.specs.List.{list_any};

use std::alloc::{AllocError, Global};

/// Calls are numbered from 1; the count stops at the end of 64 bits.
#[derive(Debug, Drop)]
pub struct Calls {
    /// How many there were.
    pub made: u64,
    /// The numbers of those that fail.
    pub failing: Vec<u64>,
}

impl Calls {
    /// No call noted yet.
    pub fn new(alloc: Global) -> Calls
        ensures made { result.made ≡ 0 }
        ensures none { result.failing.items ≡ [] }
    {
        Calls {
            made: 0,
            failing: Vec::new(alloc),
        }
    }

    /// Lets the call of that number fail.
    pub fn fail_at(&mut self, call: u64) -> Result<(), AllocError>
        ensures made { self.new.made ≡ self.old.made }
        ensures ok { OnOk result (self.new.failing.items ≡ self.old.failing.items ++ call ∷ []) }
        ensures err { OnErr result (self.new.failing.items ≡ self.old.failing.items) }
    {
        self.failing.push(call)?;
        Ok(())
    }

    /// Counts a call, and tells whether it is one that fails.
    pub fn is_failing(&mut self) -> bool
        ensures made { self.new.made ≡ min (self.old.made + 1) (2 ^ 64 - 1) }
        ensures failing { self.new.failing ≡ self.old.failing }
        ensures listed { result ≡ list_any (λ call. call == self.new.made) self.old.failing.items }
    {
        self.made = self.made.saturating_add(1);
        self.failing.contains(&self.made)
    }
}
