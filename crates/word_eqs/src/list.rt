// Lists of steps under guards.

ghost use Rattle.std.specs.Prelude.{◌≡◌, [], ◌∷◌, ◌++◌, ◌^◌, ◌<◌, Some, length, slice_get, OnOk, OnErr};
ghost use Rattle.word_eqs.specs.Graph.{MOST_TERMS};

use crate::term::{TermId, VarId};
use std::alloc::{AllocError, Global};
use std::marker::Model;

/// What a step does.
#[derive(Clone, Copy, Debug, PartialEq, Eq)]
pub enum Act {
    /// The variable has any word: a choice, read where the guard is 1.
    Free(VarId),
    /// The variable has the word of the term, whatever the guard.
    Set(VarId, TermId),
    /// Where the guard is 1 and the term 0, the list ends here.
    Cut(TermId),
    /// Where the guard is 1 and the term 0, the list ends here and breaks this property.
    Prop(u32, TermId),
}

/// A step under a guard, which is a term of one bit.
#[derive(Clone, Copy, Debug, PartialEq, Eq)]
pub struct Step {
    pub guard: TermId,
    pub act: Act,
}

/// Steps, walked in order.
#[derive(Drop)]
pub struct GuardedList {
    steps: Vec<Step>,
}

impl Model for GuardedList {
    ghost use Rattle.std.specs.Prelude.{List, length, ◌≤◌};
    ghost use Rattle.word_eqs.specs.Graph.{MOST_TERMS};
    ghost use Rattle.word_eqs.specs.declared.list.Step.{Step as Stepped};

    ghost Value = { List Stepped };

    ghost view = { λ l. l.steps.items };

    ghost invariant = { λ l. length l.steps.items ≤ MOST_TERMS };
}

impl GuardedList {
    /// A list without steps.
    pub fn new(alloc: Global) -> GuardedList
        ensures { result ≡ [] }
    {
        GuardedList {
            steps: Vec::new(alloc),
        }
    }

    /// Puts a step at the end. After want of memory the list is as before.
    pub fn push(&mut self, step: Step) -> Result<(), AllocError>
        requires { length self.old < MOST_TERMS }
        ensures ok { OnOk result (self.new ≡ self.old ++ step ∷ []) }
        ensures err { OnErr result (self.new ≡ self.old) }
    {
        self.steps.push(step)?;
        Ok(())
    }

    /// The number of steps.
    pub fn len(&self) -> u32
        ensures { result ≡ length self.now }
    {
        self.steps.len() as u32
    }

    /// The step at a place, from 0.
    pub fn get(&self, at: u32) -> Step
        requires { at < length self.now }
        ensures { slice_get self.now at ≡ Some result }
    {
        self.steps[at as usize]
    }
}
