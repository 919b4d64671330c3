// The state in which a run begins.

ghost use Rattle.std.specs.Prelude.{◌≡◌, ◌<◌, ◌≤◌, [], slice_get, IfOk};
ghost use Rattle.joint_ir.specs.Steps.{type_or_int, result_of};
ghost use Rattle.joint_ir.specs.WellFormed.{IsWellFormed};
ghost use Rattle.unwind_module.specs.Starting.{Begins};
ghost use Rattle.unwind.specs.Whole.{HasFirstObjects};

use crate::rows::rows;
use joint_ir::Pair;
use std::alloc::{AllocError, Global};
use unrolled::{Objects, Unrolled, room};
use unwind_frames::{FirstView, Shown, Sources, first_view};
use unwind_state::State;

/// The width of what `main` returns, and that of `int` where it returns nothing.
fn result_width(pair: &Pair) -> u8
    requires { IsWellFormed pair.now }
    ensures value { result ≡ (type_or_int (result_of (slice_get pair.now.program.functions pair.now.program.main))).bits }
    ensures some { 0 < result }
    ensures few { result ≤ 128 }
{
    match pair.program.functions.get(pair.program.main as usize) {
        None => 32,
        Some(main) => match main.result {
            None => 32,
            Some(ty) => ty.bits,
        },
    }
}

/// Terms of the first elements of all objects but the mirror's.
fn first_objects(alloc: Global, net: &mut Unrolled, pair: &Pair) -> Result<Objects, AllocError>
    requires { IsWellFormed pair.now }
    ensures { IfOk result (λ o. HasFirstObjects pair.now net.old net.new o) }
{
    let globals = rows(alloc, net, pair.program.globals.as_slice())?;
    let locals = rows(alloc, net, pair.program.locals.as_slice())?;
    let members = Vec::new(alloc);
    Ok(Objects {
        globals,
        locals,
        members,
    })
}

/// The state before `main`: all objects have their first values, the words of the module those with which a run begins, and the
/// mirror is filled from these.
pub fn begin(alloc: Global, net: &mut Unrolled, pair: &Pair) -> Result<State, AllocError>
    requires well { IsWellFormed pair.now }
    requires none { net.old.list ≡ [] }
    ensures { IfOk result (λ s. Begins pair.now net.new s) }
{
    let mut objects = first_objects(alloc, net, pair)?;
    let FirstView { sources, filled } = first_view(alloc, net, pair)?;
    let Sources {
        registers,
        inputs,
        unknown,
        edges,
    } = sources;
    let Shown { wires, members } = filled;
    objects.members = members;
    room(net, 1)?;
    let width = result_width(pair);
    let result = sized_terms::constant(&mut net.terms, width, 0)?;
    Ok(State {
        objects,
        registers,
        inputs,
        unknown,
        wires,
        edges,
        result,
    })
}
