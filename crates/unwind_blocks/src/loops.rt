// The tests and the end of a loop.

ghost use Rattle.std.specs.Prelude.{◌≡◌, IfOk};
ghost use Rattle.joint_ir.specs.declared.stmt.TLoop.{out-TLoop};
ghost use Rattle.joint_ir.specs.Statements.{tested as tested_as};
ghost use Rattle.joint_ir.specs.WellFormed.{Scope, FitsOption};
ghost use Rattle.unwind_simple.specs.Simple.{MayRun, is_in};
ghost use Rattle.unwind_state.specs.Guards.{HasFlow};
ghost use Rattle.unwind_blocks.specs.Loops.{IsPart, IsEnded, test_in, first_part};

use crate::tests_of::tested;
use joint_ir::program::PropId;
use joint_ir::{TExpr, TLoop, Way};
use sqlite_items::Boxed;
use std::alloc::AllocError;
use unrolled::{Unrolled, room};
use unwind_simple::Activation;
use unwind_state::{Flow, Guard, State, gathered, prop};

/// A test of a loop: where it holds the loop goes on, and else it is left. A `for` without a condition goes on.
pub fn test(
    net: &mut Unrolled,
    at: &Activation,
    state: &State,
    cond: &Option<Boxed<TExpr>>,
    guard: Guard,
) -> Result<Flow, AllocError>
    requires { MayRun at.now net.old state.now guard (λ c. FitsOption c cond.now) }
    ensures { IfOk result (λ f. (c : Scope) → is_in at.now c → FitsOption c cond.now → IsPart at.now net.old net.new state.now state.now guard f c.locals (λ go. tested_as (test_in at.now cond.now) go)) }
{
    // The terms are a graph.
    let _ = net.terms.len();
    match cond {
        None => Ok(Flow::only(Way::Next, guard)),
        Some(e) => {
            let sides = tested(net, at, state, e.get(), guard)?;
            Ok(Flow {
                next: sides.taken,
                breaking: sides.other,
                continuing: Guard::Never,
                returning: Guard::Never,
            })
        }
    }
}

/// The beginning of a loop, which `do` makes without a test.
pub fn begun(
    net: &mut Unrolled,
    at: &Activation,
    state: &State,
    one: &TLoop,
    guard: Guard,
) -> Result<Flow, AllocError>
    requires { MayRun at.now net.old state.now guard (λ c. FitsOption c (out-TLoop one.now).cond) }
    ensures { IfOk result (λ f. (c : Scope) → is_in at.now c → FitsOption c (out-TLoop one.now).cond → IsPart at.now net.old net.new state.now state.now guard f c.locals (first_part (out-TLoop one.now).tests_first (test_in at.now (out-TLoop one.now).cond))) }
{
    let _ = net.terms.len();
    if one.tests_first {
        let f = test(net, at, state, &one.cond, guard)?;
        Ok(f)
    } else {
        Ok(Flow::only(Way::Next, guard))
    }
}

/// The end of a loop: a turn more than the last one breaks its property, and what left it goes on behind it.
pub fn ended(net: &mut Unrolled, ways: Flow, unwind: PropId) -> Result<Flow, AllocError>
    requires { HasFlow net.old.terms ways }
    ensures { IfOk result (λ f. IsEnded net.old net.new ways f unwind) }
{
    room(net, 1)?;
    let unset = sized_terms::constant(&mut net.terms, 1, 0)?;
    prop(net, ways.next, unwind, unset)?;
    let left = Flow {
        next: Guard::Never,
        breaking: ways.breaking,
        continuing: ways.continuing,
        returning: ways.returning,
    };
    let f = gathered(net, left)?;
    Ok(f)
}
