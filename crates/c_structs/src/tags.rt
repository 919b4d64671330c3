//! Tags, and the members of the structs that they name (C99 6.7.2.3).

ghost use Rattle.std.specs.Prelude.{◌≡◌, [], IfOk, OnOk};
ghost use Rattle.c_structs.specs.Tags.{Ends, is_tag, tag_parts, with_tag};
ghost use Rattle.c_structs.specs.Lists.{tag_number, onto};
ghost use Rattle.c_structs.specs.Under.{members_under, few};

use crate::depths::members_of;
use c_tree::Identifier;
use indexmap::IndexMap;
use joint_ir::{IntType, MemberList};
use sqlite_items::Items;
use src_text::Name;
use std::alloc::{AllocError, Global};
use std::marker::Model;

/// What a member of a struct is.
#[derive(Clone, Copy, Debug, PartialEq, Eq)]
pub enum Shape {
    /// An integer, or an array of so many; the length of what is no array is 0.
    Integer(IntType, u32),
    /// A struct, by the place of its tag among those declared before. One with an unknown tag has no members.
    Struct(Option<usize>),
}

/// A member of a struct.
#[derive(Drop)]
pub struct Part {
    pub name: Identifier,
    pub shape: Shape,
}

/// Tags in the order in which they were declared, each with the members of its struct. Contracts see these as a tree, in
/// which a member that is a struct holds its own members.
#[derive(Drop)]
pub struct Tags {
    alloc: Global,
    lists: IndexMap<String, Items<Part>>,
}

impl Model for Tags {
    ghost use Rattle.std.specs.Prelude.{List, []};
    ghost use Rattle.c_structs.specs.Tags.{Tag};
    ghost use Rattle.c_structs.specs.Codes.{coded_tags};
    ghost use Rattle.c_structs.specs.Lists.{known_tags, lists_of};

    ghost Value = { List Tag };

    ghost coded = { coded_tags };

    ghost view = { λ t. known_tags [] (lists_of t.lists) };
}

impl Tags {
    /// No tags.
    pub fn new(alloc: Global) -> Tags
        ensures { result ≡ [] }
    {
        Tags {
            alloc,
            lists: IndexMap::new(alloc),
        }
    }

    /// The place of a tag among all that are declared.
    pub fn find(&self, tag: &Name) -> Option<usize>
        ensures { result ≡ tag_number self.now tag.now }
    {
        self.lists.get_index_of(tag.text())
    }

    /// Whether a tag is declared.
    pub fn has(&self, tag: &Name) -> bool
        ensures { result ≡ is_tag self.now tag.now }
    {
        self.find(tag).is_some()
    }

    /// Declares a tag. One that was declared before keeps its members. Want of memory is the only error.
    pub fn put(&mut self, tag: &Name, parts: Items<Part>) -> Result<(), AllocError>
        ensures { OnOk result (self.new ≡ with_tag self.old tag.now (onto self.old parts Ends)) }
    {
        if self.has(tag) {
            return Ok(());
        }
        let key = String::from_str(self.alloc, tag.text())?;
        self.lists.insert(key, parts)?;
        Ok(())
    }

    /// All members of an object of the struct that a tag names, depth-first, each by its dotted path; None where there are
    /// too many of them. Want of memory is the only error.
    pub fn members(
        &self,
        alloc: Global,
        object: &Name,
        tag: &Name,
    ) -> Result<Option<MemberList>, AllocError>
        ensures { IfOk result (λ ms. ms ≡ few (members_under object.now (tag_parts self.now tag.now))) }
    {
        members_of(
            alloc,
            &self.lists,
            object,
            self.lists.get_index_of(tag.text()),
        )
    }
}
