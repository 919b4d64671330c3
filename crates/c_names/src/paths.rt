//! What paths lead to.

ghost use Rattle.std.specs.Prelude.{◌≡◌, IfOk};
ghost use Rattle.c_names.specs.Paths.{dotted as dotted_of, member_found as member_found_of, shaped as shaped_of, found};

use crate::scope::{Entry, Scopes, Target};
use c_tree::Object;
use src_text::Name;
use std::alloc::{AllocError, Global};

/// What a path leads to.
#[derive(Clone, Copy, Debug, PartialEq, Eq)]
pub enum Found {
    /// No name that is visible.
    Unknown,
    /// What is no integer object: a struct, a function, a member that isn't there, an array without an index, or what is
    /// no array with one.
    Other,
    Integer(Target),
}

/// The names of a path, with dots between them.
fn dotted(alloc: Global, object: &Object) -> Result<Name, AllocError>
    ensures { IfOk result (λ name. name ≡ dotted_of object.now) }
{
    let mut text = String::from_str(alloc, object.name.name.text())?;
    let members = object.members.as_slice();
    for member in members {
        text.push_str(".")?;
        text.push_str(member.name.text())?;
    }
    Name::new(alloc, text.as_str())
}

fn member_found(entry: Option<Entry>) -> Found
    ensures { result ≡ member_found_of entry }
{
    match entry {
        Some(Entry::Object(target)) => Found::Integer(target),
        _ => Found::Other,
    }
}

fn shaped(indexed: bool, found: Found) -> Found
    ensures { result ≡ shaped_of indexed found }
{
    match found {
        Found::Unknown => Found::Unknown,
        Found::Other => Found::Other,
        Found::Integer(target) => {
            if (target.length > 0) == indexed {
                Found::Integer(target)
            } else {
                Found::Other
            }
        }
    }
}

/// What an object is, used with an index or without one. Want of memory is the only error.
pub fn find_object(
    alloc: Global,
    scopes: &Scopes,
    indexed: bool,
    object: &Object,
) -> Result<Found, AllocError>
    ensures { IfOk result (λ f. f ≡ found scopes.now indexed object.now) }
{
    match scopes.find(&object.name.name) {
        None | Some(Entry::Pending) => Ok(Found::Unknown),
        Some(Entry::Function(_)) => Ok(Found::Other),
        Some(Entry::Object(target)) => {
            if object.members.is_empty() {
                Ok(shaped(indexed, Found::Integer(target)))
            } else {
                Ok(Found::Other)
            }
        }
        Some(Entry::Mirror) => {
            let path = dotted(alloc, object)?;
            let member = member_found(scopes.find(&path));
            Ok(shaped(indexed, member))
        }
    }
}
