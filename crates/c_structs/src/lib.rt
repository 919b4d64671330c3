//! Structs of a C text: tags and their members, the mirror with all members of its struct, and the object `bound`.
//!
//! Knows nothing of functions and of the other objects at file scope, nor of what a mirror stands for.
#![tactic(auto)]

pub mod depths;
pub mod members;
pub mod names;
pub mod tags;

ghost use Rattle.std.specs.Prelude.{◌≡◌, OnOk};
ghost use Rattle.c_constants.specs.Constants.{told};
ghost use Rattle.c_structs.specs.Structs.{with_struct, struct_offences};
ghost use Rattle.c_structs.specs.Fits.{StructsKeepFitting, DepthsStay};
ghost use Rattle.c_structs.specs.Mirror.{nothing_declared, name_again, many_offences, kept as kept_of, with_mirror, mirror_scopes, mirror_offences, with_member_of, with_members_of, other_offences, bound_scopes, bound_offences};

use crate::members::{note_again, note_unknown, read_members};
use crate::tags::Tags;
use c_names::scope::{Entry, Scopes, Target};
use c_tree::{Identifier, Member, TypeName};
use c_words::{Notes, named, number};
use joint_ir::{IntType, Member as MirrorMember, MemberList, MirrorDecl, Slot};
use sqlite_items::Items;
use src_text::Kind;
use std::alloc::{AllocError, Global};

/// What the structs of a file declare so far.
#[derive(Drop)]
pub struct Structs {
    pub tags: Tags,
    pub mirror: Option<MirrorDecl>,
}

const UNSIGNED_INT: IntType = IntType {
    bits: 32,
    signed: false,
    truth: false,
};

fn note_before(notes: &mut Notes, name: &Identifier, before: Option<Entry>)
    ensures { notes.new ≡ told notes.old (name_again name.now before) }
{
    if before.is_some() {
        notes.offence(name.place, Kind::CRedeclared);
    }
}

/// Notes a mirror of too many members.
fn note_many(notes: &mut Notes, name: &Identifier, members: &Option<MemberList>)
    ensures { notes.new ≡ told notes.old (many_offences name.now members.now) }
{
    if members.is_none() {
        notes.offence(name.place, Kind::CExtern);
    }
}

fn kept(alloc: Global, members: Option<MemberList>) -> MemberList
    ensures { result ≡ kept_of members }
{
    match members {
        None => Items::new(alloc),
        Some(members) => members,
    }
}

fn declare_member(scopes: &mut Scopes, at: usize, member: &MirrorMember) -> Result<(), AllocError>
    ensures { OnOk result (scopes.new ≡ with_member_of scopes.old at member.now member.now.ty) }
{
    match member.ty {
        None => Ok(()),
        Some(ty) => {
            let target = Target {
                slot: Slot::Member(number(at)),
                ty,
                length: member.length,
                constant: false,
            };
            scopes.declare(&member.path, Entry::Object(target))
        }
    }
}

/// Declares the members of a mirror by their dotted paths.
fn declare_members(scopes: &mut Scopes, members: &[MirrorMember]) -> Result<(), AllocError>
    ensures { OnOk result (scopes.new ≡ with_members_of scopes.old 0 members.now) }
{
    for (i, member) in members.iter().enumerate() {
        declare_member(scopes, i, member)?;
    }
    Ok(())
}

impl Structs {
    /// Nothing declared.
    pub fn new(alloc: Global) -> Structs
        ensures { result ≡ nothing_declared }
    {
        Structs {
            tags: Tags::new(alloc),
            mirror: None,
        }
    }

    /// Declares a struct with its members, and notes what is wrong in it: a tag or a member that was declared before
    /// (10), an unknown tag (12), and what is wrong with the length of an array (11, 13, 19, 20 and 26). A tag that was
    /// declared before keeps its members. Want of memory is the only error.
    pub fn declare(
        &mut self,
        alloc: Global,
        scopes: &Scopes,
        notes: &mut Notes,
        tag: &Identifier,
        members: &[Member],
    ) -> Result<(), AllocError>
        ensures structs { OnOk result (self.new ≡ with_struct self.old tag.now members.now) }
        ensures notes { OnOk result (notes.new ≡ told notes.old (struct_offences scopes.now self.old tag.now members.now)) }
    {
        note_again(notes, tag, self.tags.has(&tag.name));
        let parts = read_members(alloc, scopes, notes, &self.tags, members)?;
        self.tags.put(&tag.name, parts)
    }

    /// Declares the mirror, with all members of its struct, and notes what is wrong: an unknown tag (12), a name that was
    /// declared before in its scope (10), a second mirror, or one of too many members (25). Its integer members become
    /// objects, called by their dotted paths. A second mirror declares nothing, and one of too many members none of them.
    /// Want of memory is the only error.
    pub fn mirror(
        &mut self,
        alloc: Global,
        scopes: &mut Scopes,
        notes: &mut Notes,
        tag: &Identifier,
        name: &Identifier,
    ) -> Result<(), AllocError>
        ensures structs { OnOk result (self.new ≡ with_mirror self.old tag.now name.now) }
        ensures scopes { OnOk result (scopes.new ≡ mirror_scopes scopes.old self.old tag.now name.now) }
        ensures notes { OnOk result (notes.new ≡ told notes.old (mirror_offences scopes.old self.old tag.now name.now)) }
    {
        note_unknown(notes, tag, self.tags.has(&tag.name));
        note_before(notes, name, scopes.find_inner(&name.name));
        if self.mirror.is_some() {
            notes.offence(name.place, Kind::CExtern);
            return Ok(());
        }
        let members = self.tags.members(alloc, &name.name, &tag.name)?;
        note_many(notes, name, &members);
        let members = kept(alloc, members);
        scopes.declare(&name.name, Entry::Mirror)?;
        declare_members(scopes, members.as_slice())?;
        self.mirror = Some(MirrorDecl {
            name: name.name.clone()?,
            place: name.place,
            members,
        });
        Ok(())
    }

    /// The mirror, if one is declared.
    pub fn into_mirror(self) -> Option<MirrorDecl>
        ensures { result ≡ self.mirror }
    {
        self.mirror
    }
}

/// Notes what isn't `extern const unsigned int bound`.
fn note_other(notes: &mut Notes, type_name: &TypeName, name: &Identifier)
    ensures { notes.new ≡ told notes.old (other_offences type_name.now name.now) }
{
    if named(type_name.integer) != UNSIGNED_INT || name.name.text() != "bound" {
        notes.offence(name.place, Kind::CExtern);
    }
}

/// Declares `bound`, and notes what is wrong: a name that was declared before in its scope (10), and another name or
/// another type than `unsigned int` (25). Whatever the name is, it then means a constant object that holds the number of
/// frames. Want of memory is the only error.
pub fn declare_bound(
    scopes: &mut Scopes,
    notes: &mut Notes,
    type_name: &TypeName,
    name: &Identifier,
) -> Result<(), AllocError>
    ensures scopes { OnOk result (scopes.new ≡ bound_scopes scopes.old name.now) }
    ensures notes { OnOk result (notes.new ≡ told notes.old (bound_offences scopes.old type_name.now name.now)) }
{
    note_before(notes, name, scopes.find_inner(&name.name));
    note_other(notes, type_name, name);
    let target = Target {
        slot: Slot::BoundValue,
        ty: UNSIGNED_INT,
        length: 0,
        constant: true,
    };
    scopes.declare(&name.name, Entry::Object(target))
}

/// What a law says of structs: the members of each tag and of the mirror have types, those of the mirror are at most
/// 65,536, and no declaration begins or ends a scope. It does nothing.
pub fn structs_fit()
    ensures fit { StructsKeepFitting }
    ensures depths { DepthsStay }
{}
