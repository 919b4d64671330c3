//! The members of a struct, as they are declared (C99 6.7.2.1).

ghost use Rattle.std.specs.Prelude.{◌≡◌, IfOk, OnOk};
ghost use Rattle.c_constants.specs.Constants.{told};
ghost use Rattle.c_structs.specs.Tags.{item_name as item_name_of, item_length as item_length_of, length_offences, again_at, again_offences, item_offences, unknown_at};
ghost use Rattle.c_structs.specs.Readings.{nothing_read, with_part, with_item, ReadsItems, ReadsNames, ReadsMember, AreParts};

use crate::names::Names;
use crate::tags::{Part, Shape, Tags};
use c_names::scope::Scopes;
use c_statements::arrays::{array_length, read_length};
use c_tree::{Identifier, Member, MemberDeclarator};
use c_words::{Notes, named};
use joint_ir::IntType;
use sqlite_items::Items;
use src_text::Kind;
use std::alloc::{AllocError, Global};

/// The members of a struct so far: their names, and what they are.
#[derive(Drop)]
pub struct Reading {
    pub names: Names,
    pub parts: Items<Part>,
}

impl Reading {
    fn new(alloc: Global) -> Reading
        ensures { result ≡ nothing_read }
    {
        Reading {
            names: Names::new(alloc),
            parts: Items::new(alloc),
        }
    }

    /// A member, whose name is noted where it was declared before.
    fn add(&mut self, notes: &mut Notes, name: &Identifier, shape: Shape) -> Result<(), AllocError>
        ensures reading { OnOk result (self.new ≡ with_part self.old name.now shape) }
        ensures notes { OnOk result (notes.new ≡ told notes.old (again_offences self.old.names name.now)) }
    {
        let again = self.names.add(&name.name)?;
        note_again(notes, name, again);
        self.parts.push(Part {
            name: Identifier {
                place: name.place,
                name: name.name.clone()?,
            },
            shape,
        })
    }
}

/// Notes a name that was declared before.
pub fn note_again(notes: &mut Notes, name: &Identifier, again: bool)
    ensures { notes.new ≡ told notes.old (again_at name.now again) }
{
    if again {
        notes.offence(name.place, Kind::CRedeclared);
    }
}

fn item_name(item: &MemberDeclarator) -> &Identifier
    ensures { result.now ≡ item_name_of item.now }
{
    match item {
        MemberDeclarator::Plain(name) => name,
        MemberDeclarator::Array(name, _) => name,
    }
}

/// The length of an array; 0 for what is no array.
fn item_length(
    alloc: Global,
    scopes: &Scopes,
    notes: &mut Notes,
    item: &MemberDeclarator,
) -> Result<u32, AllocError>
    ensures length { IfOk result (λ n. n ≡ item_length_of item.now) }
    ensures notes { OnOk result (notes.new ≡ told notes.old (length_offences scopes.now item.now)) }
{
    match item {
        MemberDeclarator::Plain(_) => Ok(0),
        MemberDeclarator::Array(_, length) => {
            let constant = read_length(alloc, scopes, notes, length)?;
            Ok(array_length(constant))
        }
    }
}

fn read_item(
    alloc: Global,
    scopes: &Scopes,
    notes: &mut Notes,
    reading: &mut Reading,
    ty: IntType,
    item: &MemberDeclarator,
) -> Result<(), AllocError>
    ensures reading { OnOk result (reading.new ≡ with_item reading.old ty item.now) }
    ensures notes { OnOk result (notes.new ≡ told notes.old (item_offences scopes.now reading.old.names item.now)) }
{
    let length = item_length(alloc, scopes, notes, item)?;
    reading.add(notes, item_name(item), Shape::Integer(ty, length))?;
    Ok(())
}

/// Members of one integer type.
fn read_items(
    alloc: Global,
    scopes: &Scopes,
    notes: &mut Notes,
    reading: &mut Reading,
    ty: IntType,
    items: &[MemberDeclarator],
) -> Result<(), AllocError>
    ensures { OnOk result (ReadsItems scopes.now notes.old notes.new ty items.now reading.old reading.new) }
{
    for item in items {
        read_item(alloc, scopes, notes, reading, ty, item)?;
    }
    Ok(())
}

/// Members of one struct, by the place of its tag.
fn read_names(
    notes: &mut Notes,
    reading: &mut Reading,
    tag: Option<usize>,
    names: &[Identifier],
) -> Result<(), AllocError>
    ensures { OnOk result (ReadsNames notes.old notes.new tag names.now reading.old reading.new) }
{
    for name in names {
        reading.add(notes, name, Shape::Struct(tag))?;
    }
    Ok(())
}

/// Notes a tag that isn't known.
pub fn note_unknown(notes: &mut Notes, tag: &Identifier, is_known: bool)
    ensures { notes.new ≡ told notes.old (unknown_at tag.now is_known) }
{
    if !is_known {
        notes.offence(tag.place, Kind::CUnknownTag);
    }
}

/// Members that are declared together.
fn read_member(
    alloc: Global,
    scopes: &Scopes,
    notes: &mut Notes,
    tags: &Tags,
    reading: &mut Reading,
    member: &Member,
) -> Result<(), AllocError>
    ensures { OnOk result (ReadsMember scopes.now tags.now notes.old notes.new member.now reading.old reading.new) }
{
    match member {
        Member::Integers(type_name, items) => {
            let ty = named(type_name.integer);
            read_items(alloc, scopes, notes, reading, ty, items.as_slice())
        }
        Member::Structs(_, tag, names) => {
            note_unknown(notes, tag, tags.has(&tag.name));
            read_names(notes, reading, tags.find(&tag.name), names.as_slice())
        }
    }
}

/// The members of a struct, with what is wrong in them noted. Want of memory is the only error.
pub fn read_members(
    alloc: Global,
    scopes: &Scopes,
    notes: &mut Notes,
    tags: &Tags,
    members: &[Member],
) -> Result<Items<Part>, AllocError>
    ensures { IfOk result (λ ps. AreParts scopes.now tags.now notes.old notes.new members.now ps) }
{
    let mut reading = Reading::new(alloc);
    for member in members {
        read_member(alloc, scopes, notes, tags, &mut reading, member)?;
    }
    Ok(reading.parts)
}
