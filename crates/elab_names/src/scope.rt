//! The names that a module declares, and what each one is by itself.

ghost use Rattle.std.specs.Prelude.{◌≡◌, [], length, OnOk};
ghost use Rattle.elab_names.specs.Names.{find_in, put, turn_of as turn_of_of, turn_standing as turn_standing_of, parameter_standing as parameter_standing_of, shape_bits as shape_bits_of, signal_standing as signal_standing_of, entry_standing as entry_standing_of};

use crate::constant::{Standing, Worth};
use crate::names::{Entry, ParameterEntry, Shape, SignalEntry, Turn};
use indexmap::IndexMap;
use src_text::Name;
use std::alloc::{AllocError, Global};
use std::marker::Model;

/// Names in the order in which they are declared.
#[derive(Drop)]
pub struct Names {
    alloc: Global,
    entries: IndexMap<String, Entry>,
}

impl Model for Names {
    ghost use Rattle.elab_names.specs.Names.{Scope};
    ghost use Rattle.elab_names.specs.View.{names_of};

    ghost Value = { Scope };

    ghost view = { λ s. names_of s.entries };
}

impl Names {
    /// None.
    pub fn new(alloc: Global) -> Names
        ensures { result ≡ [] }
    {
        Names {
            alloc,
            entries: IndexMap::new(alloc),
        }
    }

    /// What a name stands for, where it is declared.
    pub fn find(&self, name: &Name) -> Option<Entry>
        ensures { result ≡ find_in self.now name.now }
    {
        self.entries.get(name.text()).copied()
    }

    /// How many there are.
    pub fn len(&self) -> usize
        ensures { result ≡ length self.now }
    {
        self.entries.len()
    }

    /// A name stands for this from here on. On want of memory the names are as some of the calls before left them.
    pub fn declare(&mut self, name: &Name, entry: Entry) -> Result<(), AllocError>
        ensures { OnOk result (self.new ≡ put name.now entry self.old) }
    {
        let key = String::from_str(self.alloc, name.text())?;
        self.entries.insert(key, entry)?;
        Ok(())
    }
}

/// The turn that a loop variable is in; None outside the loops over it.
pub fn turn_of(turns: &[Turn], integer: usize) -> Option<Turn>
    ensures { result ≡ turn_of_of turns.now integer }
{
    for turn in turns {
        if turn.integer == integer {
            return Some(*turn);
        }
    }
    None
}

fn turn_standing(turn: Option<Turn>) -> Standing
    ensures { result ≡ turn_standing_of turn }
{
    Standing {
        length: Some(32),
        signed: Some(true),
        worth: match turn {
            None => Worth::Open,
            Some(t) => t.value,
        },
    }
}

fn parameter_standing(p: Option<ParameterEntry>) -> Standing
    ensures { result ≡ parameter_standing_of p }
{
    match p {
        None => Standing::unknown(),
        Some(p) => Standing::of(p.constant),
    }
}

fn shape_bits(shape: Option<Shape>) -> Option<u8>
    ensures { result ≡ shape_bits_of shape }
{
    match shape {
        None => None,
        Some(s) => Some(s.bits),
    }
}

fn signal_standing(s: SignalEntry) -> Standing
    ensures { result ≡ signal_standing_of s }
{
    Standing {
        length: shape_bits(s.shape),
        signed: Some(s.signed),
        worth: Worth::NotConstant,
    }
}

/// What a name is by itself: a constant of its length and sign, or a signal, which is none.
pub fn entry_standing(turns: &[Turn], entry: &Option<Entry>) -> Standing
    ensures { result ≡ entry_standing_of turns.now entry.now }
{
    match entry {
        None => Standing::unknown(),
        Some(Entry::Parameter(p)) => parameter_standing(*p),
        Some(Entry::Integer(n)) => turn_standing(turn_of(turns, *n)),
        Some(Entry::Signal(s)) => signal_standing(*s),
        Some(Entry::Instance) => Standing::unknown(),
    }
}
