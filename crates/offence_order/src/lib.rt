//! Offences and which of them comes first: by group, then by place, then by number.
//!
//! A pass notes the offences of one group in any order and keeps the first. The groups stand in their order, so the first
//! offence of all is that of the first group that has one.
#![tactic(auto)]

ghost use Rattle.std.specs.Prelude.{◌≡◌, None};
ghost use Rattle.offence_order.specs.Order.{is_before as is_before_of, sooner};
ghost use Rattle.offence_order.specs.Laws.{LeadingIsHead, NoneWhereClean, LeadingOfOne, LeadingInParts};

use src_text::{Kind, Place};

/// What is wrong at a place.
#[derive(Clone, Copy, Debug, PartialEq, Eq)]
pub struct Offence {
    pub place: Place,
    pub kind: Kind,
}

/// Whether one offence stands before another of its group: by line, then column, then number.
pub fn is_before(a: Offence, b: Offence) -> bool
    ensures { result ≡ is_before_of a b }
{
    if a.place.line != b.place.line {
        a.place.line < b.place.line
    } else if a.place.column != b.place.column {
        a.place.column < b.place.column
    } else {
        a.kind.number() < b.kind.number()
    }
}

/// The first of the offences of one group that were noted so far.
#[derive(Drop)]
pub struct First {
    pub found: Option<Offence>,
}

impl First {
    /// Of none.
    pub fn new() -> First
        ensures { result.found ≡ None }
    {
        First { found: None }
    }

    /// Keeps the offence where it comes before the one that is kept.
    pub fn note(&mut self, place: Place, kind: Kind)
        ensures { self.new.found ≡ sooner self.old.found (record { place = place; kind = kind }) }
    {
        let new = Offence { place, kind };
        match self.found {
            None => self.found = Some(new),
            Some(old) => {
                if is_before(new, old) {
                    self.found = Some(new);
                }
            }
        }
    }
}

/// The first offence of groups is the head of their ordered list. It does nothing: its contract is a law.
pub fn leading_is_head()
    ensures head { LeadingIsHead }
    ensures clean { NoneWhereClean }
    ensures one { LeadingOfOne }
    ensures parts { LeadingInParts }
{}
