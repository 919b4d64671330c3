// The arguments of a call.

ghost use Rattle.std.specs.Prelude.{All, IfOk};
ghost use Rattle.joint_ir.specs.WellFormed.{Scope, FitsExpr};
ghost use Rattle.unwind_simple.specs.Simple.{MayRun};
ghost use Rattle.unwind_calls.specs.Arguments.{AreArguments};

use joint_ir::TExpr;
use sized_terms::SizedTerm;
use std::alloc::{AllocError, Global};
use unrolled::Unrolled;
use unwind_simple::{Activation, value};
use unwind_state::{Guard, State};

/// The terms of a call's arguments, with their checks as steps, from left to right (C99 6.5.2.2).
pub fn arguments(
    alloc: Global,
    net: &mut Unrolled,
    at: &Activation,
    state: &State,
    es: &[TExpr],
    guard: Guard,
) -> Result<Vec<SizedTerm>, AllocError>
    requires { MayRun at.now net.old state.now guard (λ c. All (FitsExpr c) es.now) }
    ensures { IfOk result (λ ts. AreArguments at.now net.old net.new state.now es.now guard ts.items) }
{
    // The terms are a graph.
    let _ = net.terms.len();
    let mut terms = Vec::new(alloc);
    for e in es {
        let t = value(net, at, state, e, guard)?;
        terms.push(t)?;
    }
    Ok(terms)
}
