//! Members of the mirror, each against what its path names.

ghost use Rattle.std.specs.Prelude.{◌≡◌, ◌%◌, ◌++◌, None, map, slice_get, IfOk, OnOk, IfErr};
ghost use Rattle.std.specs.Option.{option_copied};
ghost use Rattle.offence_order.specs.Order.{leading};
ghost use Rattle.bind_struct.specs.Binding.{signal_fault as signal_fault_of, integer_fault as integer_fault_of, struct_fault as struct_fault_of, member_fault as member_fault_in, member_offences, link_of as link_at, linked, links_from};
ghost use Rattle.bind_struct.specs.Paths.{named};
ghost use Rattle.bind_struct.specs.Ends.{IsEndOf, IsMemory};

use crate::ends::{BindEnd, refused};
use crate::paths::{Paths, Thing};
use joint_ir::{FlatModule, IntType, Link, LinkList, Member, Signal};
use sqlite_items::Items;
use src_text::Kind;
use std::alloc::Global;

/// A place in a list, as a number of 32 bits.
fn number(n: usize) -> u32
    ensures { result ≡ n % 4294967296 }
{
    (n % 4294967296) as u32
}

/// What is wrong with a member of a type that names a signal.
fn signal_fault(member: &Member, ty: IntType, signal: Option<&Signal>) -> Option<Kind>
    ensures { result ≡ signal_fault_of member.now ty (option_copied signal.entry) }
{
    match signal {
        None => None,
        Some(signal) => {
            if member.length != signal.words {
                Some(Kind::BShape)
            } else if ty.bits < signal.bits {
                Some(Kind::BNarrow)
            } else {
                None
            }
        }
    }
}

fn integer_fault(
    flat: &FlatModule,
    member: &Member,
    ty: IntType,
    thing: Option<Thing>,
) -> Option<Kind>
    ensures { result ≡ integer_fault_of flat.now member.now ty thing }
{
    match thing {
        None => Some(Kind::BNoSignal),
        Some(Thing::Instance) => Some(Kind::BShape),
        Some(Thing::Signal(j)) => signal_fault(member, ty, flat.signals.get(j)),
    }
}

fn struct_fault(thing: Option<Thing>) -> Option<Kind>
    ensures { result ≡ struct_fault_of thing }
{
    match thing {
        None => Some(Kind::BNoSignal),
        Some(Thing::Instance) => None,
        Some(Thing::Signal(_)) => Some(Kind::BShape),
    }
}

/// What is wrong with a member.
fn member_fault(flat: &FlatModule, paths: &Paths, member: &Member) -> Option<Kind>
    ensures { result ≡ member_fault_in flat.now (named paths.now) member.now }
{
    let thing = paths.find(&member.path);
    match member.ty {
        None => struct_fault(thing),
        Some(ty) => integer_fault(flat, member, ty, thing),
    }
}

/// The link of a member, if it is no struct.
fn link_of(paths: &Paths, i: usize, member: &Member) -> Option<Link>
    ensures { linked result ≡ link_at (named paths.now) i member.now member.now.ty }
{
    match member.ty {
        None => None,
        Some(_) => match paths.find(&member.path) {
            Some(Thing::Signal(j)) => Some(Link {
                member: number(i),
                signal: number(j),
            }),
            _ => None,
        },
    }
}

/// Adds the link of a member, if it is no struct.
fn add_link(links: &mut LinkList, paths: &Paths, i: usize, member: &Member) -> Result<(), BindEnd>
    ensures ok { OnOk result (links.new ≡ links.old ++ link_at (named paths.now) i member.now member.now.ty) }
    ensures err { IfErr result IsMemory }
{
    match link_of(paths, i, member) {
        None => Ok(()),
        Some(link) => match links.push(link) {
            Ok(()) => Ok(()),
            Err(_) => Err(BindEnd::Memory),
        },
    }
}

/// The links of the members, or what is wrong with the first of them that is wrong.
pub fn links(
    alloc: Global,
    flat: &FlatModule,
    paths: &Paths,
    members: &[Member],
) -> Result<LinkList, BindEnd>
    ensures links { IfOk result (λ l. l ≡ links_from (named paths.now) 0 members.now) }
    ensures clean { OnOk result (leading (map (member_offences flat.now (named paths.now)) members.now) ≡ None) }
    ensures refused { IfErr result (IsEndOf (leading (map (member_offences flat.now (named paths.now)) members.now))) }
{
    let mut links = Items::new(alloc);
    for (i, member) in members.iter().enumerate() {
        if let Some(kind) = member_fault(flat, paths, member) {
            return Err(refused(member.place, kind));
        }
        add_link(&mut links, paths, i, member)?;
    }
    Ok(links)
}
