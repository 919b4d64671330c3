// The view of a moment, with the mirror filled from it.

ghost use Rattle.std.specs.Prelude.{IfOk, OnOk};
ghost use Rattle.joint_ir.specs.WellFormed.{IsWellFormed};
ghost use Rattle.unwind_state.specs.Guards.{HasGuard};
ghost use Rattle.unwind_state.specs.Writing.{HasObjects};
ghost use Rattle.unwind_module.specs.Words.{HasModule};
ghost use Rattle.unwind_frames.specs.Frames.{HasSources, IsShown, IsRefreshed};

use crate::settling::settled;
use joint_ir::Pair;
use sized_terms::SizedTerm;
use std::alloc::{AllocError, Global};
use unrolled::Unrolled;
use unwind_state::{Guard, State};
use unwind_words::{choose_rows, mirror_rows, signal_rows};
use word_eqs::TermIds;

/// The terms that a view is made of.
#[derive(Drop)]
pub struct Sources {
    pub registers: TermIds,
    pub inputs: TermIds,
    /// The unknown words of the settling.
    pub unknown: TermIds,
    /// The clock edges so far, in 32 bits.
    pub edges: SizedTerm,
}

/// What becomes of them: the wires that settle, and the rows of the mirror's members.
#[derive(Drop)]
pub struct Shown {
    pub wires: TermIds,
    pub members: Vec<TermIds>,
}

/// The wires that settle, and the mirror filled from the view that they are of.
pub fn filled_view(
    alloc: Global,
    net: &mut Unrolled,
    pair: &Pair,
    sources: &Sources,
) -> Result<Shown, AllocError>
    requires well { IsWellFormed pair.now }
    requires sources { HasSources pair.now net.old.terms sources.now }
    ensures { IfOk result (λ made. IsShown pair.now net.old net.new sources.now made) }
{
    let flat = &pair.module;
    let registers = sources.registers.as_slice();
    let inputs = sources.inputs.as_slice();
    let wires = settled(
        alloc,
        net,
        flat,
        registers,
        inputs,
        sources.unknown.as_slice(),
    )?;
    let rows = signal_rows(
        alloc,
        net,
        flat.signals.as_slice(),
        registers,
        inputs,
        wires.as_slice(),
    )?;
    let members = mirror_rows(alloc, net, pair, rows.as_slice())?;
    Ok(Shown { wires, members })
}

/// The state at another view where the guard is 1. The terms of that view are to have the state's own words where it is 0; then
/// the wires, which are settled anew, do too.
pub fn refresh(
    alloc: Global,
    net: &mut Unrolled,
    pair: &Pair,
    state: &mut State,
    sources: Sources,
    guard: Guard,
) -> Result<(), AllocError>
    requires well { IsWellFormed pair.now }
    requires guard { HasGuard net.old.terms guard }
    requires objects { HasObjects pair.now.program net.old.terms state.old.objects }
    requires words { HasModule pair.now net.old.terms state.old }
    requires sources { HasSources pair.now net.old.terms sources }
    ensures { OnOk result (IsRefreshed pair.now net.old net.new state.old state.new sources guard) }
{
    let made = filled_view(alloc, net, pair, &sources)?;
    let members = choose_rows(
        alloc,
        net,
        guard,
        made.members.as_slice(),
        state.objects.members.as_slice(),
    )?;
    state.objects.members = members;
    state.registers = sources.registers;
    state.inputs = sources.inputs;
    state.unknown = sources.unknown;
    state.edges = sources.edges;
    state.wires = made.wires;
    Ok(())
}
