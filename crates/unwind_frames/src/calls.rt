// The two calls that reach the module.

ghost use Rattle.std.specs.Prelude.{◌≡◌, ◌+◌, ◌%◌, ◌^◌, nat_lt, IfOk, OnOk};
ghost use Rattle.bits_core.specs.Word.{bit, at_zero};
ghost use Rattle.joint_ir.specs.Views.{site_widths as widths_of_sites};
ghost use Rattle.joint_ir.specs.Steps.{Setting, set_inputs as inputs_set, next_frame as frame_taken};
ghost use Rattle.joint_ir.specs.WellFormed.{AreTerms, IsWellFormed, FitsModule};
ghost use Rattle.sized_terms.specs.Sized.{Has, bits};
ghost use Rattle.unwind_state.specs.Guards.{HasGuard, bit_at};
ghost use Rattle.unwind_state.specs.Writing.{HasObjects, IsChosen};
ghost use Rattle.unwind_module.specs.Words.{HasModule};
ghost use Rattle.unwind_frames.specs.Moves.{IsCall, IsEdgeDrawn, HaveWords, AreInputSources, AreEdgeSources, IsBounded, edge_counted};

use crate::draws::{draw_inputs, draw_sites};
use crate::settling::next_registers;
use crate::views::{Sources, refresh};
use bits_core::Op2;
use joint_ir::program::PropId;
use joint_ir::{Bounds, FlatModule, Pair};
use sized_terms::{SizedTerm, constant, two};
use std::alloc::{AllocError, Global};
use unrolled::{Unrolled, room};
use unwind_state::{Guard, State, chosen, cut, prop};
use unwind_words::{choose_all, driven};
use word_eqs::{TermId, TermIds};

/// What the view behind `set_inputs()` is made of, where the guard is 1; where it is 0 the words stay.
fn input_sources(
    alloc: Global,
    net: &mut Unrolled,
    pair: &Pair,
    state: &State,
    drawn: &[TermId],
    guard: Guard,
) -> Result<Sources, AllocError>
    requires well { IsWellFormed pair.now }
    requires guard { HasGuard net.old.terms guard }
    requires objects { HasObjects pair.now.program net.old.terms state.now.objects }
    requires words { HasModule pair.now net.old.terms state.now }
    requires drawn { AreTerms net.old.terms drawn.now (widths_of_sites pair.now.module.settle_sites) }
    ensures { IfOk result (λ x. AreInputSources pair.now net.old net.new state.now drawn.now guard x) }
{
    let new = driven(
        alloc,
        net,
        pair,
        state.objects.members.as_slice(),
        state.inputs.as_slice(),
    )?;
    let inputs = choose_all(alloc, net, guard, new.as_slice(), state.inputs.as_slice())?;
    let unknown = choose_all(alloc, net, guard, drawn, state.unknown.as_slice())?;
    let registers = TermIds::from_slice(alloc, state.registers.as_slice())?;
    Ok(Sources {
        registers,
        inputs,
        unknown,
        edges: state.edges,
    })
}

/// `set_inputs()` where the guard is 1: the mirror drives the inputs, the wires settle, and the mirror is filled again.
pub fn set_inputs(
    alloc: Global,
    net: &mut Unrolled,
    pair: &Pair,
    state: &mut State,
    guard: Guard,
) -> Result<(), AllocError>
    requires well { IsWellFormed pair.now }
    requires guard { HasGuard net.old.terms guard }
    requires objects { HasObjects pair.now.program net.old.terms state.old.objects }
    requires words { HasModule pair.now net.old.terms state.old }
    ensures { OnOk result ((k : Setting) → k.pair ≡ pair.now → IsCall pair.now net.old net.new state.old state.new guard (inputs_set k)) }
{
    let drawn = draw_sites(alloc, net, guard, pair.module.settle_sites.as_slice())?;
    let sources = input_sources(alloc, net, pair, state, drawn.as_slice(), guard)?;
    refresh(alloc, net, pair, state, sources, guard)?;
    Ok(())
}

/// The number of edges, one more where the guard is 1.
fn counted(net: &mut Unrolled, edges: SizedTerm, guard: Guard) -> Result<SizedTerm, AllocError>
    requires guard { HasGuard net.old.terms guard }
    requires edges { Has net.old.terms edges }
    requires counter { edges.width ≡ 32 }
    ensures { IfOk result (λ t. IsChosen net.old net.new 32 t (λ v. at_zero (bit_at v guard) (bits v edges) ((bits v edges + 1) % 2 ^ 32))) }
{
    room(net, 1)?;
    let one = constant(&mut net.terms, 32, 1)?;
    room(net, 1)?;
    let more = two(&mut net.terms, Op2::Add, edges, one)?;
    let t = chosen(net, guard, more, edges)?;
    Ok(t)
}

/// The words that an edge draws: its unknown words, the inputs, and the unknown words of the settling, in that order.
#[derive(Drop)]
struct Drawn {
    at_edge: TermIds,
    inputs: TermIds,
    unknown: TermIds,
}

fn draw_edge(
    alloc: Global,
    net: &mut Unrolled,
    flat: &FlatModule,
    guard: Guard,
) -> Result<Drawn, AllocError>
    requires fits { FitsModule flat.now }
    requires guard { HasGuard net.old.terms guard }
    ensures { IfOk result (λ d. IsEdgeDrawn flat.now net.old net.new guard d) }
{
    let at_edge = draw_sites(alloc, net, guard, flat.edge_sites.as_slice())?;
    let inputs = draw_inputs(alloc, net, guard, flat.signals.as_slice())?;
    let unknown = draw_sites(alloc, net, guard, flat.settle_sites.as_slice())?;
    Ok(Drawn {
        at_edge,
        inputs,
        unknown,
    })
}

/// What a view behind an edge is made of, where the guard is 1; where it is 0 the words stay.
fn edge_sources(
    alloc: Global,
    net: &mut Unrolled,
    flat: &FlatModule,
    state: &State,
    drawn: &Drawn,
    guard: Guard,
) -> Result<Sources, AllocError>
    requires fits { FitsModule flat.now }
    requires guard { HasGuard net.old.terms guard }
    requires words { HaveWords flat.now net.old.terms state.now drawn.now }
    ensures { IfOk result (λ x. AreEdgeSources flat.now net.old net.new state.now drawn.now guard x) }
{
    let new = next_registers(
        alloc,
        net,
        flat,
        state.registers.as_slice(),
        state.inputs.as_slice(),
        state.wires.as_slice(),
        drawn.at_edge.as_slice(),
    )?;
    let registers = choose_all(
        alloc,
        net,
        guard,
        new.as_slice(),
        state.registers.as_slice(),
    )?;
    let inputs = choose_all(
        alloc,
        net,
        guard,
        drawn.inputs.as_slice(),
        state.inputs.as_slice(),
    )?;
    let unknown = choose_all(
        alloc,
        net,
        guard,
        drawn.unknown.as_slice(),
        state.unknown.as_slice(),
    )?;
    let edges = counted(net, state.edges, guard)?;
    Ok(Sources {
        registers,
        inputs,
        unknown,
        edges,
    })
}

/// A clock edge where the guard is 1, with the inputs as they stand. Then each input is drawn, the wires settle, and the mirror is
/// filled.
fn clock_edge(
    alloc: Global,
    net: &mut Unrolled,
    pair: &Pair,
    state: &mut State,
    guard: Guard,
) -> Result<(), AllocError>
    requires well { IsWellFormed pair.now }
    requires guard { HasGuard net.old.terms guard }
    requires objects { HasObjects pair.now.program net.old.terms state.old.objects }
    requires words { HasModule pair.now net.old.terms state.old }
    ensures { OnOk result ((k : Setting) → k.pair ≡ pair.now → IsCall pair.now net.old net.new state.old state.new guard (edge_counted k)) }
{
    let drawn = draw_edge(alloc, net, &pair.module, guard)?;
    let sources = edge_sources(alloc, net, &pair.module, state, &drawn, guard)?;
    refresh(alloc, net, pair, state, sources, guard)?;
    Ok(())
}

/// Whether fewer edges were taken than the bound says.
fn is_within(net: &mut Unrolled, edges: SizedTerm, frames: u32) -> Result<SizedTerm, AllocError>
    requires edges { Has net.old.terms edges }
    requires counter { edges.width ≡ 32 }
    ensures { IfOk result (λ t. IsChosen net.old net.new 1 t (λ v. bit (nat_lt (bits v edges) frames))) }
{
    room(net, 1)?;
    let most = constant(&mut net.terms, 32, frames as u128)?;
    room(net, 1)?;
    let t = two(&mut net.terms, Op2::LtU, edges, most)?;
    Ok(t)
}

/// Past the last edge a run ends, or breaks a property, where the guard is 1.
fn bounded(
    net: &mut Unrolled,
    bounds: &Bounds,
    broken: PropId,
    edges: SizedTerm,
    guard: Guard,
) -> Result<(), AllocError>
    requires guard { HasGuard net.old.terms guard }
    requires edges { Has net.old.terms edges }
    requires counter { edges.width ≡ 32 }
    ensures { OnOk result (IsBounded net.old net.new bounds.now broken edges guard) }
{
    let within = is_within(net, edges, bounds.frames)?;
    if bounds.check_bound {
        prop(net, guard, broken, within)?;
    } else {
        cut(net, guard, within)?;
    }
    Ok(())
}

/// `next_timeframe()` where the guard is 1, with its `frame` property: past the last edge it ends the run, or breaks that property.
pub fn next_frame(
    alloc: Global,
    net: &mut Unrolled,
    pair: &Pair,
    bounds: &Bounds,
    broken: PropId,
    state: &mut State,
    guard: Guard,
) -> Result<(), AllocError>
    requires well { IsWellFormed pair.now }
    requires guard { HasGuard net.old.terms guard }
    requires objects { HasObjects pair.now.program net.old.terms state.old.objects }
    requires words { HasModule pair.now net.old.terms state.old }
    ensures { OnOk result ((k : Setting) → k.pair ≡ pair.now → k.bounds ≡ bounds.now → IsCall pair.now net.old net.new state.old state.new guard (frame_taken k broken)) }
{
    bounded(net, bounds, broken, state.edges, guard)?;
    clock_edge(alloc, net, pair, state, guard)?;
    Ok(())
}
