// The guards of the ways on among the groups of a `switch`.

ghost use Rattle.std.specs.Prelude.{IfOk};
ghost use Rattle.unwind_state.specs.Guards.{HasFlow, HasGuard, IsFlow, bit_at, bits_of};
ghost use Rattle.switch_guards.specs.Ways.{entered_of, switched_of};

use std::alloc::AllocError;
use unrolled::Unrolled;
use unwind_state::{Flow, Guard, or};

/// The guards before a group, where control enters it under a guard of its own.
pub fn entered(net: &mut Unrolled, ways: Flow, entry: Guard) -> Result<Flow, AllocError>
    requires ways { HasFlow net.old.terms ways }
    requires entry { HasGuard net.old.terms entry }
    ensures { IfOk result (λ f. IsFlow net.old net.new f (λ v. entered_of (bit_at v entry) (bits_of v ways))) }
{
    let next = or(net, ways.next, entry)?;
    Ok(Flow {
        next,
        breaking: ways.breaking,
        continuing: ways.continuing,
        returning: ways.returning,
    })
}

/// The guards behind a `switch`, which `break` leaves.
pub fn switched(net: &mut Unrolled, ways: Flow) -> Result<Flow, AllocError>
    requires { HasFlow net.old.terms ways }
    ensures { IfOk result (λ f. IsFlow net.old net.new f (λ v. switched_of (bits_of v ways))) }
{
    let next = or(net, ways.next, ways.breaking)?;
    Ok(Flow {
        next,
        breaking: Guard::Never,
        continuing: ways.continuing,
        returning: ways.returning,
    })
}
