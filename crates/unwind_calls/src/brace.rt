// What stands at a function's closing brace.

ghost use Rattle.std.specs.Prelude.{◌≡◌, IfOk, IfSome};
ghost use Rattle.joint_ir.specs.Types.{IsType};
ghost use Rattle.unwind_state.specs.Guards.{HasGuard, HasFlow};
ghost use Rattle.unwind_state.specs.Writing.{HasResult};
ghost use Rattle.unwind_calls.specs.Calls.{IsClosing, IsEnd};

use checked_terms::literal;
use joint_ir::{INT, IntType};
use sized_terms::SizedTerm;
use std::alloc::AllocError;
use unrolled::{Unrolled, room};
use unwind_state::{Flow, Guard, chosen, draw, gathered};

/// What a function with a result gives at its closing brace: any number, but 0 for `main` (C99 5.1.2.2.3, 6.9.1 paragraph 12).
fn end_value(
    net: &mut Unrolled,
    is_main: bool,
    ty: IntType,
    guard: Guard,
) -> Result<SizedTerm, AllocError>
    requires guard { HasGuard net.old.terms guard }
    requires ty { IsType ty }
    ensures { IfOk result (λ t. IsEnd net.old net.new is_main ty guard t) }
{
    let _ = net.terms.len();
    if is_main {
        room(net, 1)?;
        let t = literal(&mut net.terms, ty, 0)?;
        Ok(t)
    } else {
        let t = draw(net, guard, ty.bits)?;
        Ok(t)
    }
}

/// The term of what a call hands on: what was returned, or what the function gives where its body goes on to the closing brace.
pub fn close(
    net: &mut Unrolled,
    is_main: bool,
    ty: Option<IntType>,
    ways: Flow,
    returned: SizedTerm,
) -> Result<SizedTerm, AllocError>
    requires ways { HasFlow net.old.terms ways }
    requires returned { HasResult ty net.old.terms returned }
    requires typed { IfSome ty IsType }
    ensures { IfOk result (λ t. IsClosing net.old net.new is_main ty ways returned t) }
{
    // The terms are a graph.
    let _ = net.terms.len();
    match ty {
        None => {
            room(net, 1)?;
            let t = literal(&mut net.terms, INT, 0)?;
            Ok(t)
        }
        Some(ty) => {
            let all = gathered(net, ways)?;
            let end = end_value(net, is_main, ty, all.next)?;
            let t = chosen(net, all.next, end, returned)?;
            Ok(t)
        }
    }
}
