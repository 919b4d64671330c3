// Words of a module, as they are drawn.

ghost use Rattle.std.specs.Prelude.{◌≡◌, All, IfOk};
ghost use Rattle.joint_ir.specs.declared.module.Role.TheVariants.{Input as input, Register as register};
ghost use Rattle.joint_ir.specs.Effects.{draw_all as draw_all_of};
ghost use Rattle.joint_ir.specs.Runs.{draw_registers as draw_registers_of};
ghost use Rattle.joint_ir.specs.Views.{site_widths as widths_of_sites, widths_of as widths_of_role};
ghost use Rattle.joint_ir.specs.WellFormed.{FitsModule, FitsSignal, FitsSite};
ghost use Rattle.unwind_state.specs.declared.state.Guard.TheVariants.{Always};
ghost use Rattle.unwind_state.specs.Guards.{HasGuard};
ghost use Rattle.unwind_module.specs.Drawing.{AreDrawn};

use joint_ir::{FlatModule, Role, Signal, Site};
use joint_view::choices::{site_widths, widths_of};
use std::alloc::{AllocError, Global};
use unrolled::Unrolled;
use unwind_state::Guard;
use unwind_words::draw_all;
use word_eqs::TermIds;

/// Unknown words, as they are drawn.
pub fn draw_sites(
    alloc: Global,
    net: &mut Unrolled,
    guard: Guard,
    sites: &[Site],
) -> Result<TermIds, AllocError>
    requires guard { HasGuard net.old.terms guard }
    requires sites { All FitsSite sites.now }
    ensures { IfOk result (λ ids. AreDrawn net.old net.new guard (draw_all_of (widths_of_sites sites.now)) (widths_of_sites sites.now) ids) }
{
    let widths = site_widths(alloc, sites)?;
    let ids = draw_all(alloc, net, guard, widths.as_slice())?;
    Ok(ids)
}

/// The inputs other than the clock, as they are drawn.
pub fn draw_inputs(
    alloc: Global,
    net: &mut Unrolled,
    guard: Guard,
    signals: &[Signal],
) -> Result<TermIds, AllocError>
    requires guard { HasGuard net.old.terms guard }
    requires signals { All FitsSignal signals.now }
    ensures { IfOk result (λ ids. AreDrawn net.old net.new guard (draw_all_of (widths_of_role input signals.now)) (widths_of_role input signals.now) ids) }
{
    let widths = widths_of(alloc, Role::Input, signals)?;
    let ids = draw_all(alloc, net, guard, widths.as_slice())?;
    Ok(ids)
}

/// The words of the registers as a run begins: a first value where there is one, else a draw.
pub fn first_registers(
    alloc: Global,
    net: &mut Unrolled,
    flat: &FlatModule,
) -> Result<TermIds, AllocError>
    requires { FitsModule flat.now }
    ensures { IfOk result (λ ids. AreDrawn net.old net.new Always (draw_registers_of flat.now.firsts (widths_of_role register flat.now.signals)) (widths_of_role register flat.now.signals) ids) }
{
    let widths = widths_of(alloc, Role::Register, flat.signals.as_slice())?;
    let ids = unwind_words::draw_registers(alloc, net, flat.firsts.as_slice(), widths.as_slice())?;
    Ok(ids)
}
