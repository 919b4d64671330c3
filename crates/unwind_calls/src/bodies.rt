// What stands right before a body and right behind it.

ghost use Rattle.std.specs.Prelude.{◌≡◌, ◌++◌, ◌∷◌, [], ◌+◌, ◌≤◌, All, Some, IfOk, IfSome, length, slice_get};
ghost use Rattle.joint_ir.specs.Types.{IsType};
ghost use Rattle.joint_ir.specs.WellFormed.{IsWellFormed};
ghost use Rattle.sized_terms.specs.Sized.{Has};
ghost use Rattle.unwind_state.specs.Guards.{HasGuard, HasFlow};
ghost use Rattle.unwind_state.specs.Writing.{HasObjects, HasResult};
ghost use Rattle.unwind_calls.specs.Arguments.{FitParams};
ghost use Rattle.unwind_calls.specs.Bodies.{HasBegun, HasLeft};

use crate::brace::close;
use crate::entries::nought;
use crate::parameters::set_params;
use crate::rows::{kept, put_back};
use joint_ir::{Function, TStmt};
use joint_lists::own_end;
use sized_terms::SizedTerm;
use std::alloc::{AllocError, Global};
use unrolled::Unrolled;
use unwind_simple::Activation;
use unwind_state::{Flow, Guard, State};
use word_eqs::TermIds;

/// What a call keeps of its caller while its body is unwound, and the functions that stand then.
#[derive(Drop)]
pub struct Caller {
    /// The terms of the objects of the function that is called, as the caller has them.
    pub rows: Vec<TermIds>,
    /// The term of the caller's own result.
    pub result: SizedTerm,
    /// The functions whose activations stand in the body, `main` first.
    pub standing: Vec<u32>,
}

/// The functions that stand, and one more.
fn one_more(alloc: Global, standing: &[u32], function: u32) -> Result<Vec<u32>, AllocError>
    ensures { IfOk result (λ all. all.items ≡ standing.now ++ function ∷ []) }
{
    let mut all = Vec::new(alloc);
    all.extend_from_slice(standing)?;
    all.push(function)?;
    Ok(all)
}

/// A body begins: the caller's rows are kept, the parameters take the arguments where the guard is 1, and the result is 0.
pub fn begin(
    alloc: Global,
    net: &mut Unrolled,
    at: &Activation,
    state: &mut State,
    function: u32,
    callee: &Function,
    body: &TStmt,
    args: &[SizedTerm],
    guard: Guard,
) -> Result<Caller, AllocError>
    requires well { IsWellFormed at.now.pair.now }
    requires found { slice_get at.now.pair.now.program.functions function ≡ Some callee.now }
    requires some { callee.now.body ≡ Some body.now }
    requires objects { HasObjects at.now.pair.now.program net.old.terms state.old.objects }
    requires guard { HasGuard net.old.terms guard }
    requires has { All (Has net.old.terms) args.now }
    requires fit { FitParams at.now.pair.now.program callee.now.first args.now }
    requires count { length args.now ≡ callee.now.params }
    ensures { IfOk result (λ c. HasBegun at.now net.old net.new state.old state.new function callee.now body.now args.now guard c) }
{
    let end = own_end(callee, body);
    let rows = kept(
        alloc,
        state.objects.locals.as_slice(),
        callee.first as usize,
        end,
    )?;
    set_params(net, at.pair, &mut state.objects, callee.first, args, guard)?;
    let result = state.result;
    state.result = nought(net, callee.result)?;
    let standing = one_more(alloc, at.standing, function)?;
    Ok(Caller {
        rows,
        result,
        standing,
    })
}

/// Behind a body: the caller's rows and its result are back, and the term is that of what the call hands on.
pub fn leave(
    net: &mut Unrolled,
    at: &Activation,
    state: &mut State,
    function: u32,
    callee: &Function,
    caller: Caller,
    ways: Flow,
) -> Result<SizedTerm, AllocError>
    requires room { callee.now.first + length caller.rows.items ≤ length state.old.objects.locals.items }
    requires ways { HasFlow net.old.terms ways }
    requires returned { HasResult callee.now.result net.old.terms state.old.result }
    requires typed { IfSome callee.now.result IsType }
    ensures { IfOk result (λ t. HasLeft at.now net.old net.new state.old state.new function callee.now caller ways t) }
{
    let returned = state.result;
    let is_main = function == at.pair.program.main;
    state.result = caller.result;
    put_back(
        &mut state.objects.locals,
        callee.first as usize,
        caller.rows,
    );
    close(net, is_main, callee.result, ways, returned)
}
