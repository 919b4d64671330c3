//! A log of resolution derivations, and checkers for it, so that a refutation can be believed without
//! believing the solver that found it.
#![tactic(auto)]

ghost use Rattle.std.specs.Prelude.{◌≡◌, ◌<◌, ◌≤◌, ◌↔◌, [], ◌∷◌, ◌++◌, length, IsTrue, OnOk, OnErr, slice_index_or, slice_range};
ghost use Rattle.std.specs.List.{All, HoldsAt};
ghost use Rattle.res_log.specs.Log.{RefutationLaw, LengthLaw, ExactLaw};

mod checks;
mod marks;
mod origins;
mod replay;
mod seen;
mod segments;

pub use checks::{check, has_empty_clause};
use clause_arena::ClauseId;
pub use segments::Segments;
use std::alloc::{AllocError, Global};
use std::marker::Model;

/// A clause that a chain resolves with, and on which variable.
#[derive(Clone, Copy, PartialEq, Eq, Debug)]
pub struct ChainStep {
    pub clause: ClauseId,
    /// The variable that the resolvent has no longer.
    pub pivot: u32,
}

#[derive(Clone, Copy)]
struct Entry {
    derived: ClauseId,
    first: ClauseId,
    from: usize,
    to: usize,
}

fn part_of(links: &[ChainStep], entry: Entry) -> &[ChainStep]
    requires start { entry.from ≤ entry.to }
    requires end { entry.to ≤ length links.now }
    ensures { result.now ≡ slice_range links.now entry.from entry.to }
{
    &links[entry.from..entry.to]
}

/// Steps that each derive a clause from a chain of earlier ones.
#[derive(Drop)]
pub struct Log {
    entries: Vec<Entry>,
    /// The chains of the entries, one after another.
    links: Vec<ChainStep>,
}

impl Model for Log {
    ghost use Rattle.std.specs.Prelude.{List, length};
    ghost use Rattle.res_log.specs.Step.{Step};
    ghost use Rattle.res_log.specs.Flat.{steps_of, AreWithin};

    ghost Value = { List Step };

    ghost view = { λ a. steps_of a.links.items a.entries.items };

    ghost invariant = { λ a. AreWithin (length a.links.items) a.entries.items };
}

impl Log {
    /// A log of no step. It takes no memory.
    pub fn new(alloc: Global) -> Log
        ensures { result ≡ [] }
    {
        Log {
            entries: Vec::new(alloc),
            links: Vec::new(alloc),
        }
    }

    /// How many steps it has.
    pub fn len(&self) -> u64
        ensures { result ≡ length self.now }
    {
        self.entries.len() as u64
    }

    /// Whether the log has no step.
    pub fn is_empty(&self) -> bool
        ensures { IsTrue result ↔ (self.now ≡ []) }
    {
        self.entries.is_empty()
    }

    /// Puts a step at the end: the clause of `derived` is what `first`, resolved with the clauses of `rest` in turn, gives.
    pub fn append(
        &mut self,
        derived: ClauseId,
        first: ClauseId,
        rest: &[ChainStep],
    ) -> Result<(), AllocError>
        ensures stored { OnOk result (self.new ≡ self.old ++ record { derived = derived; first = first; rest = rest.now } ∷ []) }
        ensures unchanged { OnErr result (self.new ≡ self.old) }
    {
        let from = self.links.len();
        self.links.extend_from_slice(rest)?;
        let to = self.links.len();
        self.entries.push(Entry {
            derived,
            first,
            from,
            to,
        })?;
        Ok(())
    }

    /// The id that step `at` derives.
    pub fn derived(&self, at: u64) -> ClauseId
        requires { at < length self.now }
        ensures { HoldsAt (λ s. result ≡ s.derived) self.now at }
    {
        self.entries[at as usize].derived
    }

    /// The first clause of the chain of step `at`.
    pub fn first(&self, at: u64) -> ClauseId
        requires { at < length self.now }
        ensures { HoldsAt (λ s. result ≡ s.first) self.now at }
    {
        self.entries[at as usize].first
    }

    /// The clauses that the first one is resolved with at step `at`, and the pivots.
    pub fn rest(&self, at: u64) -> &[ChainStep]
        requires { at < length self.now }
        ensures { HoldsAt (λ s. result.now ≡ s.rest) self.now at }
    {
        let entry = self.entries[at as usize];
        part_of(&self.links, entry)
    }
}

/// What the check of a log found.
#[derive(Clone, Copy, PartialEq, Eq, Debug)]
pub struct Checked {
    /// How many steps the log has.
    pub steps: u64,
    /// Whether the last result is the empty clause, or there is no step and an input is empty.
    pub ends_empty: bool,
}

/// Why a check has no answer.
#[derive(Clone, Copy, PartialEq, Eq, Debug)]
pub enum CheckEnd {
    /// The first step that breaks a rule, counted from 0.
    Bad(u64),
    /// There was no memory for the check.
    Memory,
}

/// Inputs with a sound log that ends empty have no model.
pub fn refutation_law()
    ensures { RefutationLaw }
{}

/// A valid log over `n` variables has at most `3 ^ n` steps, and at most `3 ^ n - 1` results that aren't empty.
pub fn length_law()
    ensures { LengthLaw }
{}

/// The steps of a valid log whose ids are live break no rule, so a log that ends in `Bad` is no such log.
pub fn exact_law()
    ensures { ExactLaw }
{}
