//! What statements assign, against the signals that it mirrors.

ghost use Rattle.std.specs.Prelude.{◌≡◌, slice_get};
ghost use Rattle.std.specs.Option.{option_copied};
ghost use Rattle.offence_order.specs.Order.{first_of};
ghost use Rattle.bind_struct.specs.Binding.{signal_stored, thing_stored, member_stored, slot_stored, body_stored, functions_stored};
ghost use Rattle.bind_struct.specs.Paths.{named};
ghost use Rattle.bind_struct.specs.Stores.{stores_of};
ghost use Rattle.bind_struct.specs.Stored.{stored_in, stored_items, stored_option, stored_loop, stored_cases};

use crate::paths::{Paths, Thing};
use joint_ir::{
    FlatModule, Function, Group, Member, Role, SNode, Signal, Slot, TLoop, TStmt, TTarget,
};
use offence_order::First;
use sqlite_items::Boxed;
use src_text::{Kind, Place};

/// What a store is looked at in: the module, what its paths name, and the members of the mirror.
#[derive(Clone, Copy)]
pub struct Stores<'a> {
    pub module: &'a FlatModule,
    pub paths: &'a Paths,
    pub members: &'a [Member],
}

fn note_signal(first: &mut First, place: Place, signal: Option<&Signal>)
    ensures { first.new.found ≡ first_of first.old.found (signal_stored place (option_copied signal.entry)) }
{
    if let Some(signal) = signal {
        match signal.role {
            Role::Input => {}
            _ => first.note(place, Kind::BNotInput),
        }
    }
}

fn note_thing(flat: &FlatModule, first: &mut First, place: Place, thing: Option<Thing>)
    ensures { first.new.found ≡ first_of first.old.found (thing_stored flat.now place thing) }
{
    match thing {
        Some(Thing::Signal(j)) => note_signal(first, place, flat.signals.get(j)),
        _ => {}
    }
}

fn note_member(
    flat: &FlatModule,
    paths: &Paths,
    first: &mut First,
    place: Place,
    member: Option<&Member>,
)
    ensures { first.new.found ≡ first_of first.old.found (member_stored flat.now (named paths.now) place (option_copied member.entry)) }
{
    if let Some(member) = member {
        note_thing(flat, first, place, paths.find(&member.path));
    }
}

fn note_target(at: &Stores, first: &mut First, target: &TTarget)
    ensures { first.new.found ≡ first_of first.old.found (stores_of at.now target.now) }
{
    match target.slot {
        Slot::Member(i) => note_member(
            at.module,
            at.paths,
            first,
            target.place,
            at.members.get(i as usize),
        ),
        _ => {}
    }
}

/// Notes what is wrong with the targets of a statement.
#[cycle(walk)]
fn statement(at: &Stores, first: &mut First, s: &TStmt)
    ensures { first.new.found ≡ first_of first.old.found (stored_in (stores_of at.now) s.now.node) }
{
    match &s.node {
        SNode::Block(body) => items(at, first, body.as_slice()),
        SNode::Store(target, _) => note_target(at, first, target),
        SNode::Update(target, _) => note_target(at, first, target),
        SNode::If(_, body, other) => {
            statement(at, first, body.get());
            option(at, first, other);
        }
        SNode::Loop(one) => turns(at, first, one),
        SNode::Switch(_, groups) => cases(at, first, groups.as_slice()),
        SNode::Declare(_, _) | SNode::Call(_) | SNode::Break | SNode::Continue => {}
        SNode::Return(_) | SNode::Assert(_, _) | SNode::Assume(_) => {}
        SNode::SetInputs | SNode::NextFrame(_) => {}
    }
}

#[cycle(walk)]
fn items(at: &Stores, first: &mut First, body: &[TStmt])
    ensures { first.new.found ≡ first_of first.old.found (stored_items (stores_of at.now) body.now) }
{
    for s in body {
        statement(at, first, s);
    }
}

#[cycle(walk)]
fn option(at: &Stores, first: &mut First, other: &Option<Boxed<TStmt>>)
    ensures { first.new.found ≡ first_of first.old.found (stored_option (stores_of at.now) other.now) }
{
    match other {
        None => {}
        Some(s) => statement(at, first, s.get()),
    }
}

#[cycle(walk)]
fn turns(at: &Stores, first: &mut First, one: &TLoop)
    ensures { first.new.found ≡ first_of first.old.found (stored_loop (stores_of at.now) one.now) }
{
    items(at, first, one.heads.as_slice());
    statement(at, first, one.body.get());
    option(at, first, &one.step);
}

#[cycle(walk)]
fn cases(at: &Stores, first: &mut First, groups: &[Group])
    ensures { first.new.found ≡ first_of first.old.found (stored_cases (stores_of at.now) groups.now) }
{
    for group in groups {
        items(at, first, group.body.as_slice());
    }
}

fn function(at: &Stores, first: &mut First, body: &Option<TStmt>)
    ensures { first.new.found ≡ first_of first.old.found (body_stored (stores_of at.now) body.now) }
{
    match body {
        None => {}
        Some(s) => statement(at, first, s),
    }
}

/// Notes what is wrong with the targets of all functions.
pub fn functions(at: &Stores, first: &mut First, functions: &[Function])
    ensures { first.new.found ≡ first_of first.old.found (functions_stored (stores_of at.now) functions.now) }
{
    for f in functions {
        function(at, first, &f.body);
    }
}
