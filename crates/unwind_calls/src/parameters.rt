// Parameters take the arguments of a call.

ghost use Rattle.std.specs.Prelude.{◌≡◌, ◌+◌, ◌≤◌, ◌<◌, ◌^◌, All, length, OnOk};
ghost use Rattle.sized_terms.specs.Sized.{Has};
ghost use Rattle.unwind_state.specs.Guards.{HasGuard};
ghost use Rattle.unwind_state.specs.Writing.{HasObjects};
ghost use Rattle.unwind_calls.specs.Arguments.{AreSet, FitParams};

use joint_ir::{Pair, Slot};
use sized_terms::SizedTerm;
use std::alloc::AllocError;
use unrolled::{Objects, Unrolled};
use unwind_state::{Guard, put};

/// The parameters of a function, which stand in the program's locals from a place on, take the arguments where the guard is 1
/// (C99 6.5.2.2 paragraph 4). The pair is named by the clauses alone.
pub fn set_params(
    net: &mut Unrolled,
    _pair: &Pair,
    objects: &mut Objects,
    first: u32,
    args: &[SizedTerm],
    guard: Guard,
) -> Result<(), AllocError>
    requires guard { HasGuard net.old.terms guard }
    requires has { All (Has net.old.terms) args.now }
    requires fit { FitParams _pair.now.program first args.now }
    requires objects { HasObjects _pair.now.program net.old.terms objects.old }
    requires there { first + length args.now ≤ length _pair.now.program.locals }
    requires few { length _pair.now.program.locals < 2 ^ 32 }
    ensures { OnOk result (AreSet _pair.now net.old net.new objects.old objects.new first args.now guard) }
{
    // The terms are a graph.
    let _ = net.terms.len();
    for i in 0..args.len() {
        let slot = Slot::Local(first + i as u32);
        put(net, objects, slot, 0, args[i], guard)?;
    }
    Ok(())
}
