// Whether the words of a state have terms of their widths.

ghost use Rattle.std.specs.Prelude.{◌≡◌, ◌<◌, ◌^◌, List, map, length, IsTrue, IfOk};
ghost use Rattle.joint_ir.specs.Views.{widths_of as widths_of_role, site_widths as widths_of_sites, members_of};
ghost use Rattle.joint_ir.specs.WellFormed.{AreTerms, IsWellFormed};
ghost use Rattle.sized_terms.specs.Sized.{Has};
ghost use Rattle.unwind_state.specs.Writing.{sized};
ghost use Rattle.word_eqs.specs.declared.term.TermId.{TermId as Id};
ghost use Rattle.unwind_module.specs.Words.{HasModule, member_elements};

use joint_ir::{FlatModule, Member, Pair, Role, Signal, Site};
use joint_view::choices::{site_widths, widths_of};
use sized_terms::SizedTerm;
use std::alloc::{AllocError, Global};
use unrolled::Unrolled;
use unwind_state::State;
use word_eqs::{TermId, TermIds};

/// Whether a term is there, of so many bits.
fn is_term(net: &Unrolled, id: TermId, width: u8) -> bool
    ensures { IsTrue result → Has net.now.terms (sized id width) }
{
    if id.0 < net.terms.len() {
        net.terms.width_of(id) == width
    } else {
        false
    }
}

/// Whether terms are there, of these numbers of bits, one for one.
fn are_terms(net: &Unrolled, ids: &[TermId], widths: &[u8]) -> bool
    ensures { IsTrue result → AreTerms net.now.terms ids.now widths.now }
{
    if ids.len() != widths.len() {
        return false;
    }
    for k in 0..ids.len() {
        if !is_term(net, ids[k], widths[k]) {
            return false;
        }
    }
    true
}

/// Whether the words of a role have terms of their widths.
fn have_terms(
    alloc: Global,
    net: &Unrolled,
    ids: &[TermId],
    role: Role,
    signals: &[Signal],
) -> Result<bool, AllocError>
    ensures { IfOk result (λ yes. IsTrue yes → AreTerms net.now.terms ids.now (widths_of_role role signals.now)) }
{
    let widths = widths_of(alloc, role, signals)?;
    Ok(are_terms(net, ids, widths.as_slice()))
}

/// Whether unknown words have terms of their widths.
fn have_unknown(
    alloc: Global,
    net: &Unrolled,
    ids: &[TermId],
    sites: &[Site],
) -> Result<bool, AllocError>
    ensures { IfOk result (λ yes. IsTrue yes → AreTerms net.now.terms ids.now (widths_of_sites sites.now)) }
{
    let widths = site_widths(alloc, sites)?;
    Ok(are_terms(net, ids, widths.as_slice()))
}

/// The number of elements of a member; a struct has none.
fn elements(member: &Member) -> u32
    ensures { result ≡ member_elements member.now }
{
    match member.ty {
        None => 0,
        Some(_) => { if member.length == 0 { 1 } else { member.length } }
    }
}

/// Whether rows have as many terms as members have elements, one for one.
fn have_rows(rows: &[TermIds], members: &[Member]) -> bool
    ensures { IsTrue result → map (λ (row : List Id). length row) rows.now ≡ map member_elements members.now }
{
    if rows.len() != members.len() {
        return false;
    }
    for k in 0..rows.len() {
        if rows[k].as_slice().len() != elements(&members[k]) as usize {
            return false;
        }
    }
    true
}

fn all_members(pair: &Pair) -> &[Member]
    ensures { result.now ≡ members_of pair.now.program.mirror }
{
    match &pair.program.mirror {
        None => &[],
        Some(mirror) => mirror.members.as_slice(),
    }
}

/// Whether all of the module's words in a state have terms of their widths, and the mirror's rows as many terms as elements. No
/// proof gives this of each state that statements leave, so it is tested.
pub fn has_module(
    alloc: Global,
    net: &Unrolled,
    pair: &Pair,
    state: &State,
) -> Result<bool, AllocError>
    ensures { IfOk result (λ yes. IsTrue yes → HasModule pair.now net.now.terms state.now) }
{
    let signals = pair.module.signals.as_slice();
    let registers = have_terms(
        alloc,
        net,
        state.registers.as_slice(),
        Role::Register,
        signals,
    )?;
    let inputs = have_terms(alloc, net, state.inputs.as_slice(), Role::Input, signals)?;
    let wires = have_terms(alloc, net, state.wires.as_slice(), Role::Wire, signals)?;
    let sites = pair.module.settle_sites.as_slice();
    let unknown = have_unknown(alloc, net, state.unknown.as_slice(), sites)?;
    let rows = have_rows(state.objects.members.as_slice(), all_members(pair));
    let edges = state.edges.width == 32 && is_term(net, state.edges.term, 32);
    Ok(registers && inputs && wires && unknown && rows && edges)
}
