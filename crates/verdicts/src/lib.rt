//! What is told of a pair within bounds: that it weighs too much, that it is safe, the trace of a run that breaks a property,
//! or that the budget is spent. From the contracts of the layers below alone.
#![tactic(auto)]

ghost use Rattle.std.specs.Prelude.{◌<◌, ◌≤◌, IfOk};
ghost use Rattle.joint_ir.specs.WellFormed.{IsWellFormed};
ghost use Rattle.verdicts.specs.Told.{IsTold};

use cdcl::Chooser;
use joint_ir::weighing::HEAVIEST;
use joint_ir::{Bounds, Pair, weight};
use judge::{Unwinder, Verdict, judge};
use pair_proof::Proof;
use std::alloc::{AllocError, Global};
use trace_text::trace;

/// What is told of a pair within bounds.
#[derive(Drop)]
pub enum Told {
    /// It weighs more than is judged.
    TooHeavy,
    /// No run breaks a property, nor does anything fail without the limits on turns and activations.
    Successful(Proof),
    /// The trace of a run that breaks a property.
    Failed(String),
    /// The budget is spent.
    Spent(Proof),
}

/// What is told of a pair within bounds, after at most `budget` derived clauses, from 1 to 2,000,000,000. Whatever the chooser
/// picks, it is true. Want of memory is the only error.
pub fn tell<U: Unwinder>(
    alloc: Global,
    unwinder: &U,
    pair: &Pair,
    bounds: &Bounds,
    chooser: &mut Box<dyn Chooser>,
    budget: u64,
) -> Result<Told, AllocError>
    requires well { IsWellFormed pair.now }
    requires some { 0 < budget }
    requires few { budget ≤ 2000000000 }
    ensures { IfOk result (IsTold pair.now bounds.now budget) }
{
    if weight(pair, bounds) > HEAVIEST {
        return Ok(Told::TooHeavy);
    }
    match judge(alloc, unwinder, pair, bounds, chooser, budget)? {
        Verdict::Successful(proof) => Ok(Told::Successful(proof)),
        Verdict::Failed(_choices, replayed) => {
            let text = trace(alloc, pair, &replayed.events)?;
            Ok(Told::Failed(text))
        }
        Verdict::Spent(proof) => Ok(Told::Spent(proof)),
    }
}
