//! The first state of a run, and the two calls that reach the module.

ghost use Rattle.std.specs.Prelude.{◌≡◌, ◌+◌, ◌<◌, ◌≤◌, ◌-◌, ◌^◌, length, drop, All, IfOk, IfErr};
ghost use Rattle.joint_ir.specs.States.{JointState};
ghost use Rattle.joint_ir.specs.Effects.{Onward, draw_all};
ghost use Rattle.joint_ir.specs.Runs.{with_first_state, draw_registers as registers_drawn};
ghost use Rattle.joint_ir.specs.Steps.{Setting, settled_view as view_settled, set_inputs as inputs_set, clock_edge as edge_taken, next_frame as frame_taken};
ghost use Rattle.joint_ir.specs.Views.{widths_of, site_widths};
ghost use Rattle.joint_ir.specs.WellFormed.{IsWellFormed, FitsModule, FitsSite};
ghost use Rattle.joint_ir.specs.declared.module.Role.TheVariants.{Input as input, Register as register};
ghost use Rattle.joint_view.specs.Conditions.{AreWords, IsView};
ghost use Rattle.joint_view.specs.Halts.{HaltsAs, Draws, HaltsDraws, unmeasured};
ghost use Rattle.joint_view.specs.Moves.{row_items, IsAt, Moves, first_state};

use crate::choices::Drawn;
use crate::halt::Halt;
use crate::view::{Numbers, View};
use crate::{Rows, choices, mirror, seen, settling};
use joint_ir::{Bounds, Event, FlatModule, Outcome, Pair, PropId, Role, Site};
use std::alloc::{AllocError, Global};

/// The module and the mirror as a run begins.
#[derive(Drop)]
pub struct Begun {
    pub view: View,
    /// The elements of the mirror's members, filled from the view.
    pub members: Rows,
    /// The number of choices that are used up then.
    pub at: usize,
}

/// The module and the mirror after a call that reached them.
#[derive(Drop)]
pub struct Moved {
    pub view: View,
    /// The elements of the mirror's members, filled from the view.
    pub members: Rows,
    /// What is seen of the call.
    pub event: Event,
    /// The number of choices that are used up then.
    pub at: usize,
}

/// A view whose wires have settled.
fn settled_view(
    alloc: Global,
    flat: &FlatModule,
    registers: Numbers,
    inputs: Numbers,
    unknown: &[u64],
) -> Result<View, AllocError>
    requires fits { FitsModule flat.now }
    requires registers { AreWords (widths_of register flat.now.signals) registers }
    requires inputs { AreWords (widths_of input flat.now.signals) inputs }
    requires unknown { AreWords (site_widths flat.now.settle_sites) unknown.now }
    ensures value { IfOk result (λ v. v ≡ view_settled flat.now registers inputs unknown.now) }
    ensures proper { IfOk result (λ v. IsView flat.now v) }
{
    let wires = settling::settled(
        alloc,
        flat,
        registers.as_slice(),
        inputs.as_slice(),
        unknown,
    )?;
    Ok(View::new(registers, inputs, wires))
}

/// The inputs other than the clock, as they are drawn.
fn draw_inputs(alloc: Global, flat: &FlatModule, choices: &[u64], at: usize) -> Result<Drawn, Halt>
    requires { FitsModule flat.now }
    ensures drawn { IfOk result (λ d. Draws (draw_all (widths_of input flat.now.signals) (drop at choices.now)) d.numbers (drop d.at choices.now)) }
    ensures halts { IfErr result (λ h. HaltsDraws h (draw_all (widths_of input flat.now.signals) (drop at choices.now))) }
    ensures words { IfOk result (λ d. AreWords (widths_of input flat.now.signals) d.numbers) }
    ensures within { IfOk result (λ d. at ≤ length choices.now → d.at ≤ length choices.now) }
{
    let widths = choices::widths_of(alloc, Role::Input, flat.signals.as_slice())?;
    choices::draw_all(alloc, widths.as_slice(), choices, at)
}

/// Unknown words, as they are drawn.
fn draw_sites(alloc: Global, sites: &[Site], choices: &[u64], at: usize) -> Result<Drawn, Halt>
    requires { All FitsSite sites.now }
    ensures drawn { IfOk result (λ d. Draws (draw_all (site_widths sites.now) (drop at choices.now)) d.numbers (drop d.at choices.now)) }
    ensures halts { IfErr result (λ h. HaltsDraws h (draw_all (site_widths sites.now) (drop at choices.now))) }
    ensures words { IfOk result (λ d. AreWords (site_widths sites.now) d.numbers) }
    ensures within { IfOk result (λ d. at ≤ length choices.now → d.at ≤ length choices.now) }
{
    let widths = choices::site_widths(alloc, sites)?;
    choices::draw_all(alloc, widths.as_slice(), choices, at)
}

/// The registers as a run begins: a first value where there is one, else a draw.
fn draw_registers(
    alloc: Global,
    flat: &FlatModule,
    choices: &[u64],
    at: usize,
) -> Result<Drawn, Halt>
    requires { FitsModule flat.now }
    ensures drawn { IfOk result (λ d. Draws (registers_drawn flat.now.firsts (widths_of register flat.now.signals) (drop at choices.now)) d.numbers (drop d.at choices.now)) }
    ensures halts { IfErr result (λ h. HaltsDraws h (registers_drawn flat.now.firsts (widths_of register flat.now.signals) (drop at choices.now))) }
    ensures words { IfOk result (λ d. AreWords (widths_of register flat.now.signals) d.numbers) }
    ensures within { IfOk result (λ d. at ≤ length choices.now → d.at ≤ length choices.now) }
{
    let widths = choices::widths_of(alloc, Role::Register, flat.signals.as_slice())?;
    choices::draw_registers(
        alloc,
        flat.firsts.as_slice(),
        widths.as_slice(),
        choices,
        at,
    )
}

/// The first view of a run and its mirror. The registers without a first value, the inputs and the unknown words of a
/// settling are drawn, in that order.
pub fn begin(alloc: Global, pair: &Pair, choices: &[u64]) -> Result<Begun, Halt>
    requires { IsWellFormed pair.now }
    ensures begun { IfOk result (λ b. (go : Onward) → unmeasured (with_first_state pair.now choices.now go) ≡ unmeasured (go (first_state pair.now b) (drop b.at choices.now))) }
    ensures halts { IfErr result (λ h. (go : Onward) → HaltsAs h choices.now (with_first_state pair.now choices.now go)) }
    ensures proper { IfOk result (λ b. IsView pair.now.module b.view) }
    ensures within { IfOk result (λ b. b.at ≤ length choices.now) }
{
    let flat = &pair.module;
    let registers = draw_registers(alloc, flat, choices, 0)?;
    let inputs = draw_inputs(alloc, flat, choices, registers.at)?;
    let unknown = draw_sites(alloc, flat.settle_sites.as_slice(), choices, inputs.at)?;
    let view = settled_view(
        alloc,
        flat,
        registers.numbers,
        inputs.numbers,
        unknown.numbers.as_slice(),
    )?;
    let members = mirror::filled(alloc, pair, &view)?;
    Ok(Begun {
        view,
        members,
        at: unknown.at,
    })
}

/// `set_inputs()`: the mirror drives the inputs, the wires settle, and the mirror is filled again.
pub fn set_inputs(
    alloc: Global,
    pair: &Pair,
    view: &View,
    members: &[Vec<i128>],
    choices: &[u64],
    at: usize,
) -> Result<Moved, Halt>
    requires fits { IsWellFormed pair.now }
    requires view { IsView pair.now.module view.now }
    ensures moves { IfOk result (λ m. (k : Setting) (s : JointState) → IsAt pair.now view.now k s → s.store.members ≡ row_items members.now → Moves (inputs_set k s (drop at choices.now)) s s.edges choices.now m) }
    ensures halts { IfErr result (λ h. (k : Setting) (s : JointState) → IsAt pair.now view.now k s → s.store.members ≡ row_items members.now → HaltsAs h (drop at choices.now) (inputs_set k s (drop at choices.now))) }
    ensures proper { IfOk result (λ m. IsView pair.now.module m.view) }
    ensures within { IfOk result (λ m. at ≤ length choices.now → m.at ≤ length choices.now) }
{
    let flat = &pair.module;
    let unknown = draw_sites(alloc, flat.settle_sites.as_slice(), choices, at)?;
    let inputs = mirror::driven(alloc, pair, members, view.inputs())?;
    let registers = Numbers::from_slice(alloc, view.registers())?;
    let new = settled_view(alloc, flat, registers, inputs, unknown.numbers.as_slice())?;
    let members = mirror::filled(alloc, pair, &new)?;
    let event = Event::Driven(seen::changed(alloc, flat, view, &new)?);
    Ok(Moved {
        view: new,
        members,
        event,
        at: unknown.at,
    })
}

/// A clock edge with the inputs as they stand. Then each input is drawn, the wires settle, and the mirror is filled.
/// The unknown words of the edge, the inputs and the unknown words of the settling are drawn, in that order.
fn clock_edge(
    alloc: Global,
    pair: &Pair,
    edges: u32,
    view: &View,
    choices: &[u64],
    at: usize,
) -> Result<Moved, Halt>
    requires fits { IsWellFormed pair.now }
    requires view { IsView pair.now.module view.now }
    requires edges { edges < 2 ^ 32 - 1 }
    ensures moves { IfOk result (λ m. (k : Setting) (s : JointState) → IsAt pair.now view.now k s → s.edges ≡ edges → Moves (edge_taken k s (drop at choices.now)) s (s.edges + 1) choices.now m) }
    ensures halts { IfErr result (λ h. (k : Setting) (s : JointState) → IsAt pair.now view.now k s → s.edges ≡ edges → HaltsAs h (drop at choices.now) (edge_taken k s (drop at choices.now))) }
    ensures proper { IfOk result (λ m. IsView pair.now.module m.view) }
    ensures within { IfOk result (λ m. at ≤ length choices.now → m.at ≤ length choices.now) }
{
    let flat = &pair.module;
    let at_edge = draw_sites(alloc, flat.edge_sites.as_slice(), choices, at)?;
    let inputs = draw_inputs(alloc, flat, choices, at_edge.at)?;
    let unknown = draw_sites(alloc, flat.settle_sites.as_slice(), choices, inputs.at)?;
    let registers = settling::next_registers(alloc, flat, view, at_edge.numbers.as_slice())?;
    let new = settled_view(
        alloc,
        flat,
        registers,
        inputs.numbers,
        unknown.numbers.as_slice(),
    )?;
    let members = mirror::filled(alloc, pair, &new)?;
    let event = Event::Frame(edges + 1, seen::changed(alloc, flat, view, &new)?);
    Ok(Moved {
        view: new,
        members,
        event,
        at: unknown.at,
    })
}

/// `next_timeframe()`, given the number of edges so far and the `frame` property of the call. Past the last edge it ends
/// the run, or breaks that property.
pub fn next_frame(
    alloc: Global,
    pair: &Pair,
    bounds: &Bounds,
    edges: u32,
    prop: PropId,
    view: &View,
    choices: &[u64],
    at: usize,
) -> Result<Moved, Halt>
    requires fits { IsWellFormed pair.now }
    requires view { IsView pair.now.module view.now }
    ensures moves { IfOk result (λ m. (k : Setting) (s : JointState) → IsAt pair.now view.now k s → k.bounds ≡ bounds.now → s.edges ≡ edges → Moves (frame_taken k prop s (drop at choices.now)) s (s.edges + 1) choices.now m) }
    ensures halts { IfErr result (λ h. (k : Setting) (s : JointState) → IsAt pair.now view.now k s → k.bounds ≡ bounds.now → s.edges ≡ edges → HaltsAs h (drop at choices.now) (frame_taken k prop s (drop at choices.now))) }
    ensures proper { IfOk result (λ m. IsView pair.now.module m.view) }
    ensures within { IfOk result (λ m. at ≤ length choices.now → m.at ≤ length choices.now) }
{
    if edges < bounds.frames {
        return clock_edge(alloc, pair, edges, view, choices, at);
    }
    if bounds.check_bound {
        Err(Halt::Stop(Outcome::Broken(prop)))
    } else {
        Err(Halt::Stop(Outcome::OutOfFrames))
    }
}
