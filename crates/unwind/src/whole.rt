// The whole list.

ghost use Rattle.std.specs.Prelude.{◌≡◌, ℕ, ◌<◌, ◌≤◌, ◌^◌, IsTrue, Some, length, slice_get, IfOk, OnOk};
ghost use Rattle.word_eqs.specs.declared.list.Step.{Step as Stepped};
ghost use Rattle.word_eqs.specs.Guarded.{FitsStep};
ghost use Rattle.joint_ir.specs.Weights.{weight_of};
ghost use Rattle.joint_ir.specs.WellFormed.{IsWellFormed};
ghost use Rattle.unwound.specs.Covers.{CoversRuns};
ghost use Rattle.unwind_module.specs.Starting.{Begins};
ghost use Rattle.unwind.specs.Whole.{IsMainUnwound, IsSmall, IsWithin};

use crate::beginning::begin;
use joint_ir::{ACTIVATIONS, Bounds, Pair, weight};
use std::alloc::{AllocError, Global};
use unrolled::Unrolled;
use unwind_blocks::stmt;
use unwind_simple::Activation;
use unwind_state::{Guard, State};
use unwound::Unwound;
use word_eqs::{GuardedList, Terms};

/// The body of `main`, whose activation is the first.
fn main_body(
    alloc: Global,
    net: &mut Unrolled,
    pair: &Pair,
    bounds: &Bounds,
    state: &mut State,
) -> Result<(), AllocError>
    requires well { IsWellFormed pair.now }
    requires begins { Begins pair.now net.old state.old }
    ensures { OnOk result (IsMainUnwound pair.now bounds.now net.old net.new state.old state.new) }
{
    let main = pair.program.main;
    match pair.program.functions.get(main as usize) {
        None => Err(AllocError),
        Some(function) => match &function.body {
            None => Err(AllocError),
            Some(body) => {
                let at = Activation {
                    pair,
                    bounds,
                    here: main,
                    left: ACTIVATIONS as u32 - 1,
                    standing: &[main],
                };
                let _ways = stmt(alloc, net, &at, state, body, Guard::Always)?;
                Ok(())
            }
        },
    }
}

/// Whether the choices of a list are narrow, and its gates within a pair's weight.
fn is_small(net: &Unrolled, pair: &Pair, bounds: &Bounds) -> bool
    requires props { length pair.now.program.props < 2 ^ 32 }
    requires fit { (k : ℕ) (s : Stepped) → slice_get net.now.list k ≡ Some s → FitsStep net.now.terms s }
    ensures { IsTrue result → IsSmall net.now.terms net.now.list (weight_of pair.now bounds.now) }
{
    if !list_checks::are_narrow(&net.terms, &net.list) {
        return false;
    }
    let gates = list_checks::gates(&net.terms, &net.list);
    1 + gates <= 8 * weight(pair, bounds)
}

/// Whether a list is in order, its choices are narrow, and its gates are within a pair's weight. No proof gives these for each
/// list that is made, so they are tested.
fn is_within(
    alloc: Global,
    net: &Unrolled,
    pair: &Pair,
    bounds: &Bounds,
) -> Result<bool, AllocError>
    requires { length pair.now.program.props < 2 ^ 32 }
    ensures { IfOk result (λ yes. IsTrue yes → IsWithin net.now.terms net.now.list (weight_of pair.now bounds.now)) }
{
    let ordered = bitblast::is_ordered(alloc, &net.terms, &net.list)?;
    if !ordered {
        return Ok(false);
    }
    Ok(is_small(net, pair, bounds))
}

/// The list of all runs of a pair within bounds.
///
/// Statements that `unwind_blocks` doesn't make aren't unwound yet; these end as want of memory does. So does a list that fails
/// one of the tests behind it.
pub fn unwind(alloc: Global, pair: &Pair, bounds: &Bounds) -> Result<Unwound, AllocError>
    requires well { IsWellFormed pair.now }
    requires light { weight_of pair.now bounds.now ≤ 16777216 }
    ensures { IfOk result (λ made. CoversRuns pair.now bounds.now made.terms made.list) }
{
    let mut net = Unrolled {
        terms: Terms::new(alloc),
        list: GuardedList::new(alloc),
    };
    let mut state = begin(alloc, &mut net, pair)?;
    main_body(alloc, &mut net, pair, bounds, &mut state)?;
    let within = is_within(alloc, &net, pair, bounds)?;
    if !within {
        return Err(AllocError);
    }
    let Unrolled { terms, list } = net;
    Ok(Unwound { terms, list })
}
