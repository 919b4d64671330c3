//! What a typer notes on its way: the first offence, and where properties stand.

ghost use Rattle.std.specs.Prelude.{◌≡◌, ◌%◌, length, IfOk, OnOk};
ghost use Rattle.c_words.specs.Notes.{with_offence, with_site, no_notes};
ghost use Rattle.c_words.specs.Marks.{sites_of, prop_at, noted_prop};

use joint_ir::{PropId, PropKind};
use offence_order::{First, Offence};
use sqlite_items::Items;
use src_text::{Kind, Place};
use std::alloc::{AllocError, Global};

/// A property, and the place of its token.
#[derive(Clone, Copy, Debug, PartialEq, Eq)]
pub struct Site {
    pub kind: PropKind,
    pub place: Place,
}

/// The first of the offences that were noted, and all properties in the order in which they were noted.
#[derive(Drop)]
pub struct Notes {
    pub first: Option<Offence>,
    pub sites: Items<Site>,
}

/// A place in a list, as a number of 32 bits.
pub fn number(n: usize) -> u32
    ensures { result ≡ n % 4294967296 }
{
    (n % 4294967296) as u32
}

impl Notes {
    /// Nothing noted.
    pub fn new(alloc: Global) -> Notes
        ensures { result ≡ no_notes }
    {
        Notes {
            first: None,
            sites: Items::new(alloc),
        }
    }

    /// Notes an offence.
    pub fn offence(&mut self, place: Place, kind: Kind)
        ensures { self.new ≡ with_offence self.old (record { place = place; kind = kind }) }
    {
        let mut first = First { found: self.first };
        first.note(place, kind);
        self.first = first.found;
    }

    /// Notes a property. Want of memory is the only error.
    pub fn site(&mut self, kind: PropKind, place: Place) -> Result<(), AllocError>
        ensures ok { OnOk result (self.new ≡ with_site self.old (record { kind = kind; place = place })) }
    {
        self.sites.push(Site { kind, place })
    }

    /// The property of a kind at a place, if there is one.
    pub fn prop(
        &mut self,
        kind: Option<PropKind>,
        place: Place,
    ) -> Result<Option<PropId>, AllocError>
        ensures prop { IfOk result (λ p. p ≡ prop_at (length self.old.sites) (sites_of kind place)) }
        ensures notes { OnOk result (self.new ≡ noted_prop self.old kind place) }
    {
        match kind {
            None => Ok(None),
            Some(kind) => {
                let at = number(self.sites.len());
                self.site(kind, place)?;
                Ok(Some(PropId(at)))
            }
        }
    }
}
