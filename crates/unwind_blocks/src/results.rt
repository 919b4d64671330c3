// Which calls run a body, and what is made of their results.

ghost use Rattle.std.specs.Prelude.{◌≡◌, IfOk, IsTrue};
ghost use Rattle.joint_ir.specs.Types.{IsType};
ghost use Rattle.sized_terms.specs.Sized.{Has};
ghost use Rattle.unwind_simple.specs.Simple.{result_in};
ghost use Rattle.unwind_blocks.specs.Results.{IsAsType, body_runs, init_runs};

use checked_terms::converted;
use joint_ir::{IntType, TCall, TInit};
use sized_terms::SizedTerm;
use std::alloc::AllocError;
use unrolled::{Unrolled, room};
use unwind_simple::Activation;

/// Whether the function that is called has a body.
fn has_body(at: &Activation, call: &TCall) -> bool
    ensures { result ≡ body_runs at.now call.now }
{
    match at.pair.program.functions.get(call.function as usize) {
        None => false,
        Some(callee) => callee.body.is_some(),
    }
}

/// Whether an object is set to what a function with a body gives.
pub fn runs_body(at: &Activation, init: &TInit) -> bool
    ensures { result ≡ init_runs at.now init.now }
{
    match init {
        TInit::Called(call) => has_body(at, call),
        TInit::Free | TInit::Values(_) => false,
    }
}

/// The type of the activation's result, if its function has one.
pub fn own_result(at: &Activation) -> Option<IntType>
    ensures { result ≡ result_in at.now }
{
    match at.pair.program.functions.get(at.here as usize) {
        None => None,
        Some(function) => function.result,
    }
}

/// A term of a type that is what a term of another one is converted to (C99 6.3.1.3).
pub fn as_type(
    net: &mut Unrolled,
    from: IntType,
    ty: IntType,
    t: SizedTerm,
) -> Result<SizedTerm, AllocError>
    requires ty { IsType ty }
    requires has { Has net.old.terms t }
    requires width { t.width ≡ from.bits }
    ensures { IfOk result (λ u. IsAsType net.old net.new from ty t u) }
{
    room(net, 1)?;
    let u = converted(&mut net.terms, from, ty, t)?;
    Ok(u)
}
