//! The verdict on a pair within bounds, from the contracts of the layers below alone: all runs as a guarded list, the list as
//! a net, the net as clauses, and what the solver says of those. A failure is carried out as a run again, so what is shown of
//! it are the run's own events.
#![tactic(auto)]

ghost use Rattle.std.specs.Prelude.{◌≡◌, ◌<◌, ◌≤◌, length, true, IfOk};
ghost use Rattle.joint_ir.specs.WellFormed.{IsWellFormed};
ghost use Rattle.joint_ir.specs.Weights.{weight_of};
ghost use Rattle.gate_net.specs.Edge.{edge_value};
ghost use Rattle.gate_net.specs.Net.{IsValuation};
ghost use Rattle.bitblast.specs.Blasted.{StandsFor};
ghost use Rattle.lifting.specs.Lift.{values_in};
ghost use Rattle.unwound.specs.Covers.{CoversRuns};
ghost use Rattle.judge.specs.Verdict.{IsVerdict, IsBreak};

use bitblast::{Blasted, blast};
use cdcl::{Chooser, Solved, solve};
use clause_arena::{Bits, ClauseArena};
use gate_net::to_clauses;
use joint_ir::{Bounds, Choices, Pair};
use joint_step::{ReplayEnd, Replayed, replay};
use lifting::lift;
use pair_proof::Proof;
use std::alloc::{AllocError, Global};
use unwound::Unwound;

/// What makes the list of all runs of a pair.
pub trait Unwinder {
    /// The list of all runs of a pair within bounds. Want of memory is the only error.
    fn unwind(&self, alloc: Global, pair: &Pair, bounds: &Bounds) -> Result<Unwound, AllocError>
        requires well { IsWellFormed pair.now }
        requires light { weight_of pair.now bounds.now ≤ 16777216 }
        ensures { IfOk result (λ made. CoversRuns pair.now bounds.now made.terms made.list) };
}

/// The verdict on a pair.
#[derive(Drop)]
pub enum Verdict {
    /// No run breaks a property, nor does anything fail without the limits on turns and activations.
    Successful(Proof),
    /// The run on these choices breaks a property.
    Failed(Choices, Replayed),
    /// The budget is spent.
    Spent(Proof),
}

/// The run that values of the net show, which breaks a property.
fn broken_run(
    alloc: Global,
    pair: &Pair,
    bounds: &Bounds,
    unwound: &Unwound,
    blasted: &Blasted,
    model: &Bits,
) -> Result<Verdict, AllocError>
    requires well { IsWellFormed pair.now }
    requires covers { CoversRuns pair.now bounds.now unwound.now.terms unwound.now.list }
    requires stands { StandsFor unwound.now.terms unwound.now.list blasted.now.net blasted.now.root blasted.now.wires }
    requires size { length model.now ≡ length blasted.now.net }
    requires values { IsValuation blasted.now.net (values_in model.now) }
    requires root { edge_value (values_in model.now) blasted.now.root ≡ true }
    ensures { IfOk result (IsBreak pair.now bounds.now) }
{
    let choices = lift(alloc, unwound, blasted, model)?;
    match replay(alloc, pair, bounds, &choices) {
        Ok(replayed) => Ok(Verdict::Failed(choices, replayed)),
        Err(ReplayEnd::Memory) => Err(AllocError),
        Err(ReplayEnd::TooFew) => unreachable!(),
    }
}

/// The verdict on a pair within bounds, after at most `budget` derived clauses, from 1 to 2,000,000,000. Whatever the chooser
/// picks, the verdict is true. Want of memory is the only error.
pub fn judge<U: Unwinder>(
    alloc: Global,
    unwinder: &U,
    pair: &Pair,
    bounds: &Bounds,
    chooser: &mut Box<dyn Chooser>,
    budget: u64,
) -> Result<Verdict, AllocError>
    requires well { IsWellFormed pair.now }
    requires light { weight_of pair.now bounds.now ≤ 16777216 }
    requires some { 0 < budget }
    requires few { budget ≤ 2000000000 }
    ensures { IfOk result (IsVerdict pair.now bounds.now budget) }
{
    let unwound = unwinder.unwind(alloc, pair, bounds)?;
    // The terms are a graph.
    let _ = unwound.terms.len();
    let blasted = blast(alloc, &unwound.terms, &unwound.list)?;
    let mut arena = ClauseArena::new(alloc);
    to_clauses(&blasted.net, blasted.root, &mut arena)?;
    let nodes = blasted.net.count();
    match solve(alloc, &mut arena, nodes, chooser, budget)? {
        Solved::Model(model) => broken_run(alloc, pair, bounds, &unwound, &blasted, &model),
        Solved::Refuted(log) => {
            let proof = Proof {
                unwound,
                blasted,
                arena,
                log,
            };
            Ok(Verdict::Successful(proof))
        }
        Solved::Spent(log) => {
            let proof = Proof {
                unwound,
                blasted,
                arena,
                log,
            };
            Ok(Verdict::Spent(proof))
        }
    }
}
