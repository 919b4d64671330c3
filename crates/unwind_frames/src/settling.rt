// What settles, and what an edge makes of the registers.

ghost use Rattle.std.specs.Prelude.{◌≡◌, ◌++◌, IfOk, OnOk};
ghost use Rattle.joint_ir.specs.Views.{widths_of, site_widths};
ghost use Rattle.joint_ir.specs.WellFormed.{AreTerms, FitsModule};
ghost use Rattle.joint_ir.specs.declared.module.Role.TheVariants.{Input as input, Register as register, Wire as wire};
ghost use Rattle.unwind_frames.specs.Frames.{AreSettled, AreNext};

use joint_ir::FlatModule;
use module_copies::copied;
use std::alloc::{AllocError, Global};
use unrolled::Unrolled;
use word_eqs::{TermId, TermIds};

fn push_all(ids: &mut TermIds, more: &[TermId]) -> Result<(), AllocError>
    ensures { OnOk result (ids.new ≡ ids.old ++ more.now) }
{
    for t in more {
        ids.push(*t)?;
    }
    Ok(())
}

/// The wires that settle, given the terms of the registers, of the inputs and of the unknown words. One settling is one copy.
pub fn settled(
    alloc: Global,
    net: &mut Unrolled,
    flat: &FlatModule,
    registers: &[TermId],
    inputs: &[TermId],
    unknown: &[TermId],
) -> Result<TermIds, AllocError>
    requires fits { FitsModule flat.now }
    requires registers { AreTerms net.old.terms registers.now (widths_of register flat.now.signals) }
    requires inputs { AreTerms net.old.terms inputs.now (widths_of input flat.now.signals) }
    requires unknown { AreTerms net.old.terms unknown.now (site_widths flat.now.settle_sites) }
    ensures { IfOk result (λ ids. AreSettled flat.now net.old net.new registers.now inputs.now unknown.now ids) }
{
    let mut subs = TermIds::from_slice(alloc, registers)?;
    push_all(&mut subs, inputs)?;
    push_all(&mut subs, unknown)?;
    let ids = copied(alloc, net, &flat.settle_terms, &flat.settled, &subs)?;
    Ok(ids)
}

/// The registers after a clock edge, given the terms of all words before it and of the unknown words.
pub fn next_registers(
    alloc: Global,
    net: &mut Unrolled,
    flat: &FlatModule,
    registers: &[TermId],
    inputs: &[TermId],
    wires: &[TermId],
    unknown: &[TermId],
) -> Result<TermIds, AllocError>
    requires fits { FitsModule flat.now }
    requires registers { AreTerms net.old.terms registers.now (widths_of register flat.now.signals) }
    requires inputs { AreTerms net.old.terms inputs.now (widths_of input flat.now.signals) }
    requires wires { AreTerms net.old.terms wires.now (widths_of wire flat.now.signals) }
    requires unknown { AreTerms net.old.terms unknown.now (site_widths flat.now.edge_sites) }
    ensures { IfOk result (λ ids. AreNext flat.now net.old net.new registers.now inputs.now wires.now unknown.now ids) }
{
    let mut subs = TermIds::from_slice(alloc, registers)?;
    push_all(&mut subs, inputs)?;
    push_all(&mut subs, wires)?;
    push_all(&mut subs, unknown)?;
    let ids = copied(alloc, net, &flat.edge_terms, &flat.next, &subs)?;
    Ok(ids)
}
