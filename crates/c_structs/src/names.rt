//! The names of a struct's members.

ghost use Rattle.std.specs.Prelude.{◌≡◌, [], IfOk, OnOk};
ghost use Rattle.c_structs.specs.Tags.{has_name, with_name};

use indexmap::IndexSet;
use src_text::Name;
use std::alloc::{AllocError, Global};
use std::marker::Model;

/// Names, of which no two are the same, in the order in which they were added.
#[derive(Drop)]
pub struct Names {
    alloc: Global,
    names: IndexSet<String>,
}

impl Model for Names {
    ghost use Rattle.std.specs.Prelude.{List, ℕ};
    ghost use Rattle.c_structs.specs.Sets.{names_in};

    ghost Value = { List (List ℕ) };

    ghost view = { λ s. names_in s.names };
}

impl Names {
    /// No names.
    pub fn new(alloc: Global) -> Names
        ensures { result ≡ [] }
    {
        Names {
            alloc,
            names: IndexSet::new(alloc),
        }
    }

    /// Adds a name, and says whether it was there. Want of memory is the only error.
    pub fn add(&mut self, name: &Name) -> Result<bool, AllocError>
        ensures was { IfOk result (λ b. b ≡ has_name self.old name.now) }
        ensures names { OnOk result (self.new ≡ with_name self.old name.now) }
    {
        let key = String::from_str(self.alloc, name.text())?;
        let is_new = self.names.insert(key)?;
        Ok(!is_new)
    }
}
