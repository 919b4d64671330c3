//! What an unwinding has made so far: terms and steps, and a term for each element of each object of C.
#![tactic(auto)]

ghost use Rattle.std.specs.Prelude.{◌≡◌, ◌+◌, ◌<◌, ◌≤◌, length, OnOk, false};
ghost use Rattle.joint_ir.specs.WellFormed.{is_bound};
ghost use Rattle.unrolled.specs.Elements.{terms_of, IsSet};
ghost use Rattle.word_eqs.specs.Graph.{MOST_TERMS};

use joint_ir::Slot;
use std::alloc::AllocError;
use word_eqs::{GuardedList, MOST_TERMS, TermId, TermIds, Terms};

/// Terms and steps.
#[derive(Drop)]
pub struct Unrolled {
    pub terms: Terms,
    pub list: GuardedList,
}

/// A term for each element of each object.
#[derive(Drop)]
pub struct Objects {
    pub globals: Vec<TermIds>,
    pub locals: Vec<TermIds>,
    pub members: Vec<TermIds>,
}

/// Tells whether there is room for so many terms, and for a variable.
pub fn room(net: &Unrolled, count: u32) -> Result<(), AllocError>
    requires { count ≤ 1073741824 }
    ensures terms { OnOk result (length net.now.terms.terms + count ≤ MOST_TERMS) }
    ensures vars { OnOk result (length net.now.terms.vars < MOST_TERMS) }
{
    if net.terms.len() > MOST_TERMS - count || net.terms.vars() >= MOST_TERMS {
        return Err(AllocError);
    }
    Ok(())
}

impl Objects {
    /// The terms of an object's elements.
    pub fn elements(&self, slot: Slot) -> &[TermId]
        requires stored { is_bound slot ≡ false }
        requires some { 0 < length (terms_of self.now slot) }
        ensures { result.now ≡ terms_of self.now slot }
    {
        match slot {
            Slot::Global(i) => self.globals[i as usize].as_slice(),
            Slot::Local(i) => self.locals[i as usize].as_slice(),
            Slot::Member(i) => self.members[i as usize].as_slice(),
            Slot::BoundValue => unreachable!(),
        }
    }

    /// Gives an element of an object another term.
    pub fn set(&mut self, slot: Slot, element: u32, term: TermId)
        requires stored { is_bound slot ≡ false }
        requires there { element < length (terms_of self.old slot) }
        ensures { IsSet self.old self.new slot element term }
    {
        match slot {
            Slot::Global(i) => self.globals[i as usize].set(element as usize, term),
            Slot::Local(i) => self.locals[i as usize].set(element as usize, term),
            Slot::Member(i) => self.members[i as usize].set(element as usize, term),
            Slot::BoundValue => unreachable!(),
        }
    }
}
