// Writes of objects under a guard.

ghost use Rattle.std.specs.Prelude.{◌≡◌, ◌<◌, length, slice_get, Some, false, OnOk};
ghost use Rattle.word_eqs.specs.declared.term.TermId.{TermId as Named};
ghost use Rattle.joint_ir.specs.WellFormed.{is_bound};
ghost use Rattle.sized_terms.specs.Sized.{Has};
ghost use Rattle.unrolled.specs.Elements.{terms_of};
ghost use Rattle.unwind_state.specs.Guards.{HasGuard};
ghost use Rattle.unwind_state.specs.Writing.{IsPut, sized};

use crate::guards::chosen;
use crate::state::Guard;
use joint_ir::Slot;
use sized_terms::SizedTerm;
use std::alloc::AllocError;
use unrolled::{Objects, Unrolled};

/// An element of an object takes a value where the guard is 1.
pub fn put(
    net: &mut Unrolled,
    objects: &mut Objects,
    slot: Slot,
    element: u32,
    value: SizedTerm,
    guard: Guard,
) -> Result<(), AllocError>
    requires guard { HasGuard net.old.terms guard }
    requires value { Has net.old.terms value }
    requires stored { is_bound slot ≡ false }
    requires there { element < length (terms_of objects.old slot) }
    requires old { (t : Named) → slice_get (terms_of objects.old slot) element ≡ Some t → Has net.old.terms (sized t value.width) }
    ensures { OnOk result (IsPut net.old net.new objects.old objects.new slot element value guard) }
{
    let old = SizedTerm {
        term: objects.elements(slot)[element as usize],
        width: value.width,
    };
    let new = chosen(net, guard, value, old)?;
    objects.set(slot, element, new.term);
    Ok(())
}
