//! What names mean (C99 6.2.1).

ghost use Rattle.std.specs.Prelude.{◌≡◌, [], ◌∷◌, ◌<◌, length, IfOk, OnOk};
ghost use Rattle.c_names.specs.Scope.{lookup, declared_in, declare as declare_of, leave as leave_of};

use indexmap::IndexMap;
use joint_ir::{IntType, Slot};
use src_text::Name;
use std::alloc::{AllocError, Global};
use std::marker::Model;
use std::mem;

/// An integer object, or an array of integers.
#[derive(Clone, Copy, Debug, PartialEq, Eq)]
pub struct Target {
    pub slot: Slot,
    /// The type of the object, or of its elements.
    pub ty: IntType,
    /// The number of elements of an array, and 0 for what is no array.
    pub length: u32,
    /// Whether it is `const`.
    pub constant: bool,
}

/// What a name means.
#[derive(Clone, Copy, Debug, PartialEq, Eq)]
pub enum Entry {
    Object(Target),
    /// The mirror. Its members that are no structs are objects, declared by their dotted paths.
    Mirror,
    /// A function, by its place among the functions of the file.
    Function(u32),
    /// The object in whose own initializer the name stands.
    Pending,
}

/// The scopes that a place stands in.
#[derive(Drop)]
pub struct Scopes {
    alloc: Global,
    inner: IndexMap<String, Entry>,
    /// The outermost first.
    outer: Vec<IndexMap<String, Entry>>,
}

impl Model for Scopes {
    ghost use Rattle.std.specs.Prelude.{List, ℕ, ◌∷◌, map, reverse};
    ghost use Rattle.c_names.specs.Scope.{Scope};
    ghost use Rattle.c_names.specs.View.{names_of};

    ghost Value = { List Scope };

    ghost view = { λ s. names_of s.inner ∷ reverse (map names_of s.outer.items) };
}

impl Scopes {
    /// One scope, with no names.
    pub fn new(alloc: Global) -> Scopes
        ensures { result ≡ [] ∷ [] }
    {
        Scopes {
            alloc,
            inner: IndexMap::new(alloc),
            outer: Vec::new(alloc),
        }
    }

    /// What a name means here, the innermost scope first.
    pub fn find(&self, name: &Name) -> Option<Entry>
        ensures { result ≡ lookup self.now name.now }
    {
        if let Some(entry) = self.find_inner(name) {
            return Some(entry);
        }
        let mut at = self.outer.len();
        while at > 0 {
            at -= 1;
            if let Some(entry) = self.outer[at].get(name.text()) {
                return Some(*entry);
            }
        }
        None
    }

    /// What the innermost scope says.
    pub fn find_inner(&self, name: &Name) -> Option<Entry>
        ensures { result ≡ declared_in self.now name.now }
    {
        self.inner.get(name.text()).copied()
    }

    /// Gives a name a meaning in the innermost scope, in place of an earlier one there. Want of memory is the only error.
    pub fn declare(&mut self, name: &Name, entry: Entry) -> Result<(), AllocError>
        ensures { OnOk result (self.new ≡ declare_of self.old name.now entry) }
    {
        let key = String::from_str(self.alloc, name.text())?;
        self.inner.insert(key, entry)?;
        Ok(())
    }

    /// Begins a scope, with no names.
    pub fn enter(&mut self) -> Result<(), AllocError>
        ensures { OnOk result (self.new ≡ [] ∷ self.old) }
    {
        let empty = IndexMap::new(self.alloc);
        let inner = mem::replace(&mut self.inner, empty);
        self.outer.push(inner)?;
        Ok(())
    }

    /// Ends the innermost scope. The outermost one doesn't end.
    pub fn leave(&mut self)
        requires { 1 < length self.old }
        ensures { self.new ≡ leave_of self.old }
    {
        self.inner = self.outer.pop().unwrap();
    }
}
