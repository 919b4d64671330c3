//! What a run holds at one moment, and the smallest things that it does.

ghost use Rattle.std.specs.Prelude.{◌≡◌, ℕ, List, ◌∷◌, ◌++◌, [], ◌<◌, ◌≤◌, ◌^◌, length, drop, IfOk, IfErr, OnOk, MatchResult, Ok, Err};
ghost use Rattle.joint_ir.specs.States.{rows_of, JointState};
ghost use Rattle.joint_ir.specs.Steps.{store_at, slot_type as type_of};
ghost use Rattle.joint_ir.specs.Effects.{draw as drawn, Effect, Onward};
ghost use Rattle.joint_ir.specs.Values.{value_of, Answer};
ghost use Rattle.joint_ir.specs.Types.{InRange, IsType};
ghost use Rattle.joint_ir.specs.WellFormed.{FitsExpr, IsWellFormed};
ghost use Rattle.joint_value.specs.Answers.{answer_of};
ghost use Rattle.joint_view.specs.Conditions.{IsNarrow};
ghost use Rattle.joint_machine.specs.Moments.{state_of, left_of, Does, Passes, Finds, IsKept, IsReady, Halts, Stands, from_here};

use crate::setting::Activation;
use joint_ir::{Choices, Event, Outcome, Pair, PropId, Slot, TExpr};
use joint_value::Store;
use joint_view::{Halt, View, choices};
use std::alloc::AllocError;

/// What a run holds at one moment.
#[derive(Drop)]
pub struct Machine {
    pub store: Store,
    pub view: View,
    /// The clock edges so far.
    pub edges: u32,
    /// What the last `return` gave.
    pub returned: i128,
    pub choices: Choices,
    /// The number of choices that are used up.
    pub at: usize,
    /// What was seen so far.
    pub events: Vec<Event>,
    /// The functions whose activations stand.
    pub standing: Vec<u32>,
}

/// One more event.
pub fn push(events: &mut Vec<Event>, event: Event) -> Result<(), AllocError>
    ensures { OnOk result (events.new.items ≡ events.old.items ++ event ∷ []) }
{
    match events.push(event) {
        Ok(()) => Ok(()),
        Err(e) => Err(AllocError::from(e)),
    }
}

/// A property that breaks ends the run.
pub fn or_break(answer: Result<i128, PropId>) -> Result<i128, Halt>
    ensures number { IfOk result (λ n. answer ≡ Ok n) }
    ensures breaks { IfErr result (λ h. (p : PropId) × (answer ≡ Err p) × (h ≡ Halt.Stop (Outcome.Broken p))) }
{
    match answer {
        Ok(n) => Ok(n),
        Err(p) => Err(Halt::Stop(Outcome::Broken(p))),
    }
}

impl Machine {
    /// Sets an object or an element of an array, which is seen with the line of the store.
    pub fn put(
        &mut self,
        line: u32,
        slot: Slot,
        index: Option<u32>,
        number: i128,
    ) -> Result<(), Halt>
        ensures does { Passes result self.old self.new (store_at line slot index number) }
        ensures kept { IsKept self.old self.new }
        ensures ready { IfOk result (λ _. (pair : Pair) → IsReady pair self.old → InRange (type_of pair.program slot) number → IsReady pair self.new) }
    {
        let element = match index {
            None => 0,
            Some(i) => i as usize,
        };
        push(&mut self.events, Event::Stored(line, slot, index, number))?;
        self.store.put(slot, element, number);
        Ok(())
    }

    /// A number of so many bits, from the choices.
    pub fn draw(&mut self, bits: u8) -> Result<u64, Halt>
        requires bits { IsNarrow bits }
        ensures finds { Finds result self.old self.new (λ go s c. drawn bits c (λ n rest. go n s rest)) }
        ensures below { IfOk result (λ n. n < 2 ^ bits) }
        ensures kept { IsKept self.old self.new }
        ensures same { state_of self.new ≡ state_of self.old }
    {
        let n = choices::draw(bits, self.choices.as_slice(), self.at)?;
        self.at += 1;
        Ok(n)
    }

    /// The value of an expression, or the end of the run by a property that breaks.
    pub fn value(&self, at: &Activation, e: &TExpr) -> Result<i128, Halt>
        requires well { IsWellFormed at.now.pair.now }
        requires ready { IsReady at.now.pair.now self.now }
        requires fits { Stands at.now.pair.now at.now.here (λ c. FitsExpr c e.now) }
        ensures value { MatchResult result (λ n. value_of (rows_of at.now.bounds.now.frames self.now.store) e.now ≡ Answer.Value n) (λ h. (p : PropId) × (h ≡ Halt.Stop (Outcome.Broken p)) × (value_of (rows_of at.now.bounds.now.frames self.now.store) e.now ≡ Answer.Fault p)) }
        ensures range { IfOk result (InRange e.now.ty) }
    {
        or_break(joint_value::value(at.bounds.frames, &self.store, e))
    }
}
