// The view in which a run begins.

ghost use Rattle.std.specs.Prelude.{IfOk};
ghost use Rattle.joint_ir.specs.WellFormed.{IsWellFormed};
ghost use Rattle.unwind_frames.specs.Firsts.{AreFirstSources, IsFirstView};

use crate::draws::{draw_inputs, draw_sites, first_registers};
use crate::views::{Shown, Sources, filled_view};
use joint_ir::Pair;
use sized_terms::constant;
use std::alloc::{AllocError, Global};
use unrolled::{Unrolled, room};
use unwind_state::Guard;

/// The view of a run's beginning, and what becomes of it.
#[derive(Drop)]
pub struct FirstView {
    pub sources: Sources,
    pub filled: Shown,
}

/// What a run's first view is made of: the registers without a first value, the inputs and the unknown words of the settling are
/// drawn, in that order. No edge was taken yet.
fn first_sources(alloc: Global, net: &mut Unrolled, pair: &Pair) -> Result<Sources, AllocError>
    requires { IsWellFormed pair.now }
    ensures { IfOk result (λ x. AreFirstSources pair.now net.old net.new x) }
{
    let flat = &pair.module;
    let registers = first_registers(alloc, net, flat)?;
    let inputs = draw_inputs(alloc, net, Guard::Always, flat.signals.as_slice())?;
    let unknown = draw_sites(alloc, net, Guard::Always, flat.settle_sites.as_slice())?;
    room(net, 1)?;
    let edges = constant(&mut net.terms, 32, 0)?;
    Ok(Sources {
        registers,
        inputs,
        unknown,
        edges,
    })
}

/// The view in which a run begins, with its wires settled and the mirror filled from it.
pub fn first_view(alloc: Global, net: &mut Unrolled, pair: &Pair) -> Result<FirstView, AllocError>
    requires { IsWellFormed pair.now }
    ensures { IfOk result (λ made. IsFirstView pair.now net.old net.new made) }
{
    let sources = first_sources(alloc, net, pair)?;
    let filled = filled_view(alloc, net, pair, &sources)?;
    Ok(FirstView { sources, filled })
}
