// What the mirror shows of a module, and the inputs that it drives.

ghost use Rattle.std.specs.Prelude.{◌≡◌, ◌<◌, ◌≤◌, Some, length, slice_get, IfOk};
ghost use Rattle.std.specs.Option.{option_copied};
ghost use Rattle.joint_ir.specs.States.{copies};
ghost use Rattle.joint_ir.specs.Types.{IsType};
ghost use Rattle.joint_ir.specs.Views.{members_of, same_role, widths_of, mirrored_signal as signal_of, mirroring_member as member_of};
ghost use Rattle.joint_ir.specs.WellFormed.{AreTerms, FitsSignal, IsWellFormed};
ghost use Rattle.joint_ir.specs.declared.module.Role.TheVariants.{Input as input};
ghost use Rattle.sized_terms.specs.Sized.{Has};
ghost use Rattle.unwind_state.specs.Writing.{sized};
ghost use Rattle.unwind_words.specs.Rows.{AreRows, IsShown, IsMember, HasMirror, AreDriven, IsDriven, signal_widths, member_widths};

use joint_ir::{IntType, Link, Member, Pair, Role, Signal, Slot, lookup};
use sized_terms::{SizedTerm, resize};
use std::alloc::{AllocError, Global};
use unrolled::{Unrolled, room};
use word_eqs::{TermId, TermIds};

/// The signal that a member mirrors.
fn mirrored_signal(links: &[Link], member: u32) -> Option<u32>
    ensures { result ≡ signal_of links.now member }
{
    for link in links {
        if link.member == member {
            return Some(link.signal);
        }
    }
    None
}

/// The member that mirrors a signal.
fn mirroring_member(links: &[Link], signal: u32) -> Option<u32>
    ensures { result ≡ member_of links.now signal }
{
    for link in links {
        if link.signal == signal {
            return Some(link.member);
        }
    }
    None
}

/// What a member of a type shows of a signal's words: each at the width of the type. It has as many bits, at least, so none is
/// lost.
fn shown_row(
    alloc: Global,
    net: &mut Unrolled,
    ty: IntType,
    signal: &Signal,
    words: &[TermId],
) -> Result<TermIds, AllocError>
    requires ty { IsType ty }
    requires signal { FitsSignal signal.now }
    requires wide { signal.now.bits ≤ ty.bits }
    requires words { AreTerms net.old.terms words.now (copies (length words.now) signal.now.bits) }
    ensures { IfOk result (λ ids. IsShown net.old net.new ty signal.now words.now ids) }
{
    // The terms are a graph.
    let _ = net.terms.len();
    let mut ids = TermIds::new(alloc);
    for k in 0..words.len() {
        room(net, 1)?;
        let word = SizedTerm {
            term: words[k],
            width: signal.bits,
        };
        let t = resize(&mut net.terms, word, ty.bits, signal.signed)?;
        ids.push(t.term)?;
    }
    Ok(ids)
}

/// What a member shows; a struct shows nothing.
fn shown_member(
    alloc: Global,
    net: &mut Unrolled,
    pair: &Pair,
    rows: &[TermIds],
    member: &Member,
    place: u32,
) -> Result<TermIds, AllocError>
    requires well { IsWellFormed pair.now }
    requires rows { AreRows net.old.terms rows.now (signal_widths pair.now.module.signals) }
    requires there { slice_get (members_of pair.now.program.mirror) place ≡ Some member.now }
    ensures { IfOk result (λ ids. IsMember pair.now net.old net.new rows.now member.now (signal_of pair.now.binding.links place) ids) }
{
    let _ = net.terms.len();
    let signal = mirrored_signal(pair.binding.links.as_slice(), place);
    match member.ty {
        None => Ok(TermIds::new(alloc)),
        Some(ty) => match signal {
            None => Ok(TermIds::new(alloc)),
            Some(g) => {
                let signal = &pair.module.signals.as_slice()[g as usize];
                let ids = shown_row(alloc, net, ty, signal, rows[g as usize].as_slice())?;
                Ok(ids)
            }
        },
    }
}

fn all_members(pair: &Pair) -> &[Member]
    ensures { result.now ≡ members_of pair.now.program.mirror }
{
    match &pair.program.mirror {
        None => &[],
        Some(mirror) => mirror.members.as_slice(),
    }
}

/// What the mirror shows of a module with these words of its signals: a row for each member.
pub fn mirror_rows(
    alloc: Global,
    net: &mut Unrolled,
    pair: &Pair,
    rows: &[TermIds],
) -> Result<Vec<TermIds>, AllocError>
    requires well { IsWellFormed pair.now }
    requires rows { AreRows net.old.terms rows.now (signal_widths pair.now.module.signals) }
    ensures { IfOk result (λ shown. HasMirror pair.now net.old net.new rows.now shown.items) }
{
    let _ = net.terms.len();
    let mut shown = Vec::new(alloc);
    let members = all_members(pair);
    for place in 0..members.len() {
        let ids = shown_member(alloc, net, pair, rows, &members[place], place as u32)?;
        shown.push(ids)?;
    }
    Ok(shown)
}

fn is_input(role: Role) -> bool
    ensures { result ≡ same_role input role }
{
    match role {
        Role::Input => true,
        _ => false,
    }
}

fn first_term(ids: &[TermId]) -> TermId
    requires { 0 < length ids.now }
    ensures { slice_get ids.now 0 ≡ Some result }
{
    ids[0]
}

/// An input: the low bits of the member that mirrors it, if there is one.
fn driven_input(
    net: &mut Unrolled,
    pair: &Pair,
    members: &[TermIds],
    signal: &Signal,
    place: u32,
    old: TermId,
) -> Result<TermId, AllocError>
    requires well { IsWellFormed pair.now }
    requires members { AreRows net.old.terms members.now (member_widths (members_of pair.now.program.mirror)) }
    requires there { slice_get pair.now.module.signals place ≡ Some signal.now }
    requires old { Has net.old.terms (sized old signal.now.bits) }
    ensures { IfOk result (λ t. IsDriven pair.now net.old net.new members.now signal.now place old t) }
{
    let _ = net.terms.len();
    match mirroring_member(pair.binding.links.as_slice(), place) {
        None => Ok(old),
        Some(m) => {
            room(net, 1)?;
            let ty = lookup::slot_type(&pair.program, Slot::Member(m));
            let first = SizedTerm {
                term: first_term(members[m as usize].as_slice()),
                width: ty.bits,
            };
            let t = resize(&mut net.terms, first, signal.bits, ty.signed)?;
            Ok(t.term)
        }
    }
}

/// The inputs as the mirror drives them: those with a member take its low bits, the others stay.
pub fn driven(
    alloc: Global,
    net: &mut Unrolled,
    pair: &Pair,
    members: &[TermIds],
    inputs: &[TermId],
) -> Result<TermIds, AllocError>
    requires well { IsWellFormed pair.now }
    requires members { AreRows net.old.terms members.now (member_widths (members_of pair.now.program.mirror)) }
    requires inputs { AreTerms net.old.terms inputs.now (widths_of input pair.now.module.signals) }
    ensures { IfOk result (λ ids. AreDriven pair.now net.old net.new members.now inputs.now ids) }
{
    let _ = net.terms.len();
    let mut ids = TermIds::new(alloc);
    let signals = pair.module.signals.as_slice();
    for k in 0..signals.len() {
        let signal = &signals[k];
        if is_input(signal.role) {
            let old = inputs[ids.len()];
            let t = driven_input(net, pair, members, signal, k as u32, old)?;
            ids.push(t)?;
        }
    }
    Ok(ids)
}
