//! What names stand for, found by a hash of the name.
#![tactic(auto)]

ghost use Rattle.std.specs.Prelude.{◌≡◌, [], length, OnOk};
ghost use Rattle.name_table.specs.Tables.{find_in, put as put_in};

use indexmap::IndexMap;
use src_text::Name;
use std::alloc::{AllocError, Global};
use std::marker::Model;

/// What names stand for, each name once, in the order in which they came.
#[derive(Drop)]
pub struct Table<V> {
    alloc: Global,
    entries: IndexMap<String, V>,
}

impl<V> Model for Table<V> {
    ghost use Rattle.std.specs.Prelude.{List, ℕ};
    ghost use Rattle.name_table.specs.View.{names_in};

    ghost Value = { List (List ℕ × V) };

    ghost view = { λ s. names_in s.entries };
}

impl<V: Copy + Drop> Table<V> {
    /// Of no names.
    pub fn new(alloc: Global) -> Table<V>
        ensures { result ≡ [] }
    {
        Table {
            alloc,
            entries: IndexMap::new(alloc),
        }
    }

    /// What a name stands for, if it is there.
    pub fn find(&self, name: &Name) -> Option<V>
        ensures { result ≡ find_in self.now name.now }
    {
        self.entries.get(name.text()).copied()
    }

    /// How many names there are.
    pub fn len(&self) -> usize
        ensures { result ≡ length self.now }
    {
        self.entries.len()
    }

    /// A name stands for this from here on. On want of memory the table is as some of the calls before left it.
    pub fn put(&mut self, name: &Name, value: V) -> Result<(), AllocError>
        ensures { OnOk result (self.new ≡ put_in name.now value self.old) }
    {
        let key = String::from_str(self.alloc, name.text())?;
        self.entries.insert(key, value)?;
        Ok(())
    }
}
