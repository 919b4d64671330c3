//! The members of a struct and of the structs in it, depth-first.
//!
//! The walk keeps its way in a list, since structs may stand as deep in one another as a text is long.

ghost use Rattle.std.specs.Prelude.{◌≡◌, ◌++◌, ◌<◌, [], IfOk, OnOk, OnSome};
ghost use Rattle.std.specs.Option.{option_copied};
ghost use Rattle.c_structs.specs.Lists.{lists_of, known_tags, inner_of};
ghost use Rattle.c_structs.specs.Under.{member_path as member_path_of, members_under, few as few_of};
ghost use Rattle.c_structs.specs.Depths.{part_at as part_at_of, member_at as member_at_of, inner_tag as inner_tag_of, inner_frames, frames_after, members_after};

use crate::tags::{Part, Shape};
use indexmap::IndexMap;
use joint_ir::{Member, MemberList};
use sqlite_items::Items;
use src_text::Name;
use std::alloc::{AllocError, Global};

/// The most members that a mirror has, nested ones counted.
const MOST_MEMBERS: usize = 65536;

/// Where the walk stands in a struct.
#[derive(Drop)]
pub struct Frame {
    /// The dotted path of the object.
    path: Name,
    /// The place of its tag.
    tag: usize,
    /// The member that is next.
    at: usize,
}

/// A name behind a path and a dot.
fn member_path(alloc: Global, path: &Name, name: &Name) -> Result<Name, AllocError>
    ensures { IfOk result (λ p. p ≡ member_path_of path.now name.now) }
{
    let mut text = String::from_str(alloc, path.text())?;
    text.push_str(".")?;
    text.push_str(name.text())?;
    Name::new(alloc, text.as_str())
}

/// A member of a struct.
fn part_at(lists: &IndexMap<String, Items<Part>>, tag: usize, at: usize) -> Option<&Part>
    ensures part { option_copied result ≡ part_at_of (lists_of lists.now) tag at }
    ensures within { OnSome result (at < 18446744073709551615) }
{
    match lists.get_index(tag) {
        None => None,
        Some((_, parts)) => {
            if at < parts.len() {
                parts.get(at)
            } else {
                None
            }
        }
    }
}

/// What a member is, at its path.
fn member_at(path: Name, part: &Part) -> Member
    ensures { result ≡ member_at_of path part.now }
{
    let (ty, length) = match part.shape {
        Shape::Integer(ty, length) => (Some(ty), length),
        Shape::Struct(_) => (None, 0),
    };
    Member {
        path,
        place: part.name.place,
        ty,
        length,
    }
}

/// The struct that a member of a struct is, if it is declared before that one.
fn inner_tag(tag: usize, shape: Shape) -> Option<usize>
    ensures { result ≡ inner_tag_of tag shape }
{
    match shape {
        Shape::Struct(Some(inner)) => { if inner < tag { Some(inner) } else { None } }
        _ => None,
    }
}

/// Goes into a struct, if there is one.
fn enter(stack: &mut Items<Frame>, path: &Name, tag: Option<usize>) -> Result<(), AllocError>
    ensures { OnOk result (stack.new ≡ stack.old ++ inner_frames path.now tag) }
{
    match tag {
        None => Ok(()),
        Some(tag) => stack.push(Frame {
            path: path.clone()?,
            tag,
            at: 0,
        }),
    }
}

/// The next member of a struct; behind it stand its own members, and then what is left of the struct.
fn step(
    alloc: Global,
    lists: &IndexMap<String, Items<Part>>,
    stack: &mut Items<Frame>,
    members: &mut MemberList,
    frame: Frame,
) -> Result<(), AllocError>
    ensures stack { OnOk result (stack.new ≡ stack.old ++ frames_after frame (part_at_of (lists_of lists.now) frame.tag frame.at)) }
    ensures members { OnOk result (members.new ≡ members.old ++ members_after frame (part_at_of (lists_of lists.now) frame.tag frame.at)) }
{
    let Frame { path, tag, at } = frame;
    match part_at(lists, tag, at) {
        None => Ok(()),
        Some(part) => {
            let member = member_path(alloc, &path, &part.name.name)?;
            stack.push(Frame {
                path,
                tag,
                at: at + 1,
            })?;
            enter(stack, &member, inner_tag(tag, part.shape))?;
            members.push(member_at(member, part))
        }
    }
}

fn few(members: MemberList) -> Option<MemberList>
    ensures { result ≡ few_of members }
{
    if members.len() <= MOST_MEMBERS {
        Some(members)
    } else {
        None
    }
}

/// All members of an object of the struct that has a place among the tags; None where there are too many of them, which
/// is known as soon as the walk has met them. Want of memory is the only error.
pub fn members_of(
    alloc: Global,
    lists: &IndexMap<String, Items<Part>>,
    object: &Name,
    tag: Option<usize>,
) -> Result<Option<MemberList>, AllocError>
    ensures { IfOk result (λ ms. ms ≡ few_of (members_under object.now (inner_of (known_tags [] (lists_of lists.now)) tag))) }
{
    let mut members = Items::new(alloc);
    let mut stack = Items::new(alloc);
    enter(&mut stack, object, tag)?;
    while let Some(frame) = stack.pop() {
        if members.len() > MOST_MEMBERS {
            return Ok(None);
        }
        step(alloc, lists, &mut stack, &mut members, frame)?;
    }
    Ok(few(members))
}
