//! The two calls that reach the module.

ghost use Rattle.std.specs.Prelude.{◌≡◌, ◌+◌, ◌<◌, ◌++◌, ◌∷◌, [], drop, IfOk, IfErr};
ghost use Rattle.joint_ir.specs.Steps.{set_inputs as inputs_set, next_frame as frame_taken};
ghost use Rattle.joint_ir.specs.WellFormed.{IsWellFormed};
ghost use Rattle.joint_view.specs.Moves.{moved_to, row_items};
ghost use Rattle.joint_machine.specs.Moments.{Passes, IsKept, IsReady, setting_of, state_of, left_of};

use crate::machine::{Machine, push};
use crate::setting::Activation;
use joint_ir::PropId;
use joint_value::Rows;
use joint_view::{Halt, Moved, steps};
use std::alloc::Global;

/// The number of edges after one more, where there are fewer than the frames of a run.
fn one_more(edges: u32, frames: u32) -> u32
    requires { edges < frames }
    ensures { result ≡ edges + 1 }
{
    edges + 1
}

impl Machine {
    /// `set_inputs()`: the mirror drives the inputs, the wires settle, and the mirror is filled again.
    pub fn set_inputs(&mut self, alloc: Global, at: &Activation) -> Result<(), Halt>
        requires well { IsWellFormed at.now.pair.now }
        requires ready { IsReady at.now.pair.now self.old }
        ensures does { Passes result self.old self.new (inputs_set (setting_of at.now)) }
        ensures kept { IsKept self.old self.new }
        ensures ready { IfOk result (λ _. IsReady at.now.pair.now self.new) }
    {
        let moved = steps::set_inputs(
            alloc,
            at.pair,
            &self.view,
            self.store.members().as_slice(),
            self.choices.as_slice(),
            self.at,
        )?;
        let edges = self.edges;
        self.move_to(edges, moved)
    }

    /// `next_timeframe()`, with the `frame` property of the call: a clock edge, or past the last one the end of the run.
    pub fn next_frame(&mut self, alloc: Global, at: &Activation, prop: PropId) -> Result<(), Halt>
        requires well { IsWellFormed at.now.pair.now }
        requires ready { IsReady at.now.pair.now self.old }
        ensures does { Passes result self.old self.new (frame_taken (setting_of at.now) prop) }
        ensures kept { IsKept self.old self.new }
        ensures ready { IfOk result (λ _. IsReady at.now.pair.now self.new) }
    {
        let moved = steps::next_frame(
            alloc,
            at.pair,
            at.bounds,
            self.edges,
            prop,
            &self.view,
            self.choices.as_slice(),
            self.at,
        )?;
        let edges = one_more(self.edges, at.bounds.frames);
        self.move_to(edges, moved)
    }

    /// The view, the mirror, the edges and the place in the choices after a call, whose event is seen.
    fn move_to(&mut self, edges: u32, moved: Moved) -> Result<(), Halt>
        ensures state { IfOk result (λ _. state_of self.new ≡ moved_to (state_of self.old) edges moved.view (row_items moved.members.items)) }
        ensures left { IfOk result (λ _. left_of self.new ≡ drop moved.at self.old.choices) }
        ensures events { IfOk result (λ _. self.new.events.items ≡ self.old.events.items ++ moved.event ∷ []) }
        ensures memory { IfErr result (λ h. h ≡ Halt.Memory) }
        ensures kept { IsKept self.old self.new }
    {
        push(&mut self.events, moved.event)?;
        self.store.replace_members(Rows::from_vec(moved.members));
        self.view = moved.view;
        self.edges = edges;
        self.at = moved.at;
        Ok(())
    }
}
