//! What binds the mirror of a C program to a flat Verilog module: which member mirrors which signal, and what is wrong
//! between the two.
//!
//! Knows nothing of either language's text, nor of what a run makes of the links.
#![tactic(auto)]

mod ends;
mod members;
mod paths;
mod stores;

ghost use Rattle.std.specs.Prelude.{◌≡◌, [], None, All, bytes_eq, IfOk, OnOk, IfErr};
ghost use Rattle.offence_order.specs.Order.{first_of, leading};
ghost use Rattle.bind_struct.specs.Binding.{binding_groups, binding_of, mirror_groups, links_from, first_below, functions_stored, target_stored};
ghost use Rattle.bind_struct.specs.Paths.{named, paths_of as paths_in};
ghost use Rattle.bind_struct.specs.Ends.{IsEnd, IsEndOf};

use crate::ends::{paths_named, refused};
use crate::members::links;
use crate::paths::Paths;
use crate::stores::{Stores, functions};
pub use ends::BindEnd;
use joint_ir::{Binding, CProgram, FlatModule, LinkList, Member, MirrorDecl};
use offence_order::{First, Offence};
use sqlite_items::Items;
use src_text::Kind;
use std::alloc::Global;

/// Whether the mirror is named as the top module is.
fn is_top(mirror: &MirrorDecl, flat: &FlatModule) -> bool
    ensures { result ≡ bytes_eq mirror.now.name flat.now.top }
{
    mirror.name.text() == flat.top.text()
}

/// What is wrong first with what is assigned.
fn stored(
    program: &CProgram,
    flat: &FlatModule,
    paths: &Paths,
    members: &[Member],
) -> Option<Offence>
    ensures { result ≡ first_of None (functions_stored (target_stored flat.now (named paths.now) members.now) program.now.functions) }
{
    let at = Stores {
        module: flat,
        paths,
        members,
    };
    let mut first = First::new();
    functions(&at, &mut first, program.functions.as_slice());
    first.found
}

/// The links of the members, where nothing is wrong with them, nor with what is assigned.
fn member_links(
    alloc: Global,
    program: &CProgram,
    flat: &FlatModule,
    paths: &Paths,
    members: &[Member],
) -> Result<LinkList, BindEnd>
    ensures links { IfOk result (λ l. l ≡ links_from (named paths.now) 0 members.now) }
    ensures clean { OnOk result (first_below program.now flat.now (named paths.now) members.now ≡ None) }
    ensures refused { IfErr result (IsEndOf (first_below program.now flat.now (named paths.now) members.now)) }
{
    match links(alloc, flat, paths, members) {
        Err(end) => Err(end),
        Ok(links) => match stored(program, flat, paths, members) {
            None => Ok(links),
            Some(offence) => Err(refused(offence.place, offence.kind)),
        },
    }
}

/// The links of a mirror: its name is checked first.
fn mirror_links(
    alloc: Global,
    program: &CProgram,
    flat: &FlatModule,
    mirror: &MirrorDecl,
) -> Result<LinkList, BindEnd>
    ensures links { IfOk result (λ l. l ≡ links_from (paths_in flat.now) 0 mirror.now.members) }
    ensures clean { OnOk result (leading (mirror_groups program.now flat.now mirror.now) ≡ None) }
    ensures refused { IfErr result (IsEndOf (leading (mirror_groups program.now flat.now mirror.now))) }
{
    if !is_top(mirror, flat) {
        return Err(refused(mirror.place, Kind::BNotTop));
    }
    match paths_named(alloc, flat) {
        Err(end) => Err(end),
        Ok(paths) => member_links(alloc, program, flat, &paths, mirror.members.as_slice()),
    }
}

/// What binds the mirror of a program to a module: a link for each member that is no struct, in the order of the members.
/// It refuses what is wrong first: the mirror's name (90), then member by member (91 to 93), then what is assigned (94).
pub fn bind(alloc: Global, program: &CProgram, flat: &FlatModule) -> Result<Binding, BindEnd>
    ensures bound { IfOk result (λ b. b ≡ binding_of program.now flat.now) }
    ensures clean { OnOk result (All (λ group. group ≡ []) (binding_groups program.now flat.now)) }
    ensures refused { IfErr result (IsEnd (binding_groups program.now flat.now)) }
{
    match &program.mirror {
        None => Ok(Binding {
            links: Items::new(alloc),
        }),
        Some(mirror) => match mirror_links(alloc, program, flat, mirror) {
            Ok(links) => Ok(Binding { links }),
            Err(end) => Err(end),
        },
    }
}
