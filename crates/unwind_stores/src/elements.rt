// Elements of arrays whose index is a term: the test of bounds, a read, and a write.

ghost use Rattle.std.specs.Prelude.{◌≡◌, ◌<◌, ◌≤◌, ◌^◌, false, length, min, take, IfOk, OnOk};
ghost use Rattle.joint_ir.specs.WellFormed.{is_bound};
ghost use Rattle.sized_terms.specs.Sized.{Has};
ghost use Rattle.element_terms.specs.Elements.{AreElements};
ghost use Rattle.unrolled.specs.Elements.{terms_of};
ghost use Rattle.unwind_state.specs.Guards.{HasGuard, bit_at};
ghost use Rattle.unwind_state.specs.Writing.{IsPutAt};
ghost use Rattle.unwind_stores.specs.Elements.{IsBounded, IsReadAt, MayPutAt, IsPlacePut};

use crate::operators::test;
use bits_core::Op2;
use checked_terms::check_for;
use joint_ir::program::PropId;
use joint_ir::{IntType, Slot};
use sized_terms::SizedTerm;
use std::alloc::AllocError;
use unrolled::{Objects, Unrolled, room};
use unwind_state::{Guard, and_bit, put};
use word_eqs::TermId;

/// The most elements that are read through an index: each makes three terms or fewer.
const MOST: usize = 268435456;

/// The check that an index is within an array of so many elements (C99 6.5.6 paragraph 8), where a property stands for it.
pub fn bounded(
    net: &mut Unrolled,
    bounds: Option<PropId>,
    index: SizedTerm,
    from: IntType,
    count: u32,
    guard: Guard,
) -> Result<(), AllocError>
    requires guard { HasGuard net.old.terms guard }
    requires has { Has net.old.terms index }
    requires width { index.width ≡ from.bits }
    ensures { OnOk result (IsBounded net.old net.new bounds index from count guard) }
{
    // The terms are a graph.
    let _ = net.terms.len();
    room(net, 3)?;
    let within = element_terms::within(&mut net.terms, index, from.signed, count)?;
    test(net, guard, check_for(bounds, within))?;
    Ok(())
}

/// The elements that an index of so many bits can name.
fn named(elements: &[TermId], width: u8) -> &[TermId]
    requires { length elements.now ≤ 268435456 }
    ensures { result.now ≡ take (2 ^ width) elements.now }
{
    if width < 32 {
        let most = 1usize << (width as u32);
        if most < elements.len() {
            return &elements[..most];
        }
    }
    elements
}

/// The term of the element at an index that is within the array (C99 6.5.2.1).
pub fn read_at(
    net: &mut Unrolled,
    elements: &[TermId],
    index: SizedTerm,
    width: u8,
) -> Result<SizedTerm, AllocError>
    requires has { Has net.old.terms index }
    requires some { 0 < length elements.now }
    requires elements { AreElements net.old.terms elements.now width }
    ensures { IfOk result (λ t. IsReadAt net.old net.new elements.now width index t) }
{
    // The terms are a graph.
    let _ = net.terms.len();
    if elements.len() > MOST {
        return Err(AllocError);
    }
    room(net, 3 * (elements.len() as u32))?;
    let t = element_terms::read(&mut net.terms, index, named(elements, index.width), width)?;
    Ok(t)
}

/// How many of so many elements an index of so many bits can name.
fn reached(count: u32, width: u8) -> u32
    ensures { result ≡ min count (2 ^ width) }
{
    if width < 32 {
        let most = 1u32 << (width as u32);
        if most < count {
            return most;
        }
    }
    count
}

/// The element at one place takes a value where the guard is 1 and an index names the place.
fn put_place(
    net: &mut Unrolled,
    objects: &mut Objects,
    slot: Slot,
    place: u32,
    index: SizedTerm,
    value: SizedTerm,
    guard: Guard,
) -> Result<(), AllocError>
    requires guard { HasGuard net.old.terms guard }
    requires has { Has net.old.terms index }
    requires value { Has net.old.terms value }
    requires below { place < 2 ^ index.width }
    requires there { place < length (terms_of objects.old slot) }
    requires may { MayPutAt net.old objects.old slot value }
    ensures { OnOk result (IsPlacePut net.old net.new objects.old objects.new slot place index value guard) }
{
    let _ = net.terms.len();
    room(net, 2)?;
    let number = sized_terms::constant(&mut net.terms, index.width, place as u128)?;
    let here = sized_terms::two(&mut net.terms, Op2::Eq, index, number)?;
    let under = and_bit(net, guard, here)?;
    put(net, objects, slot, place, value, under)?;
    Ok(())
}

/// The element at an index, which is a term, takes a value where the guard is 1. Past the end there is none.
pub fn put_at(
    net: &mut Unrolled,
    objects: &mut Objects,
    slot: Slot,
    count: u32,
    index: SizedTerm,
    value: SizedTerm,
    guard: Guard,
) -> Result<(), AllocError>
    requires guard { HasGuard net.old.terms guard }
    requires has { Has net.old.terms index }
    requires value { Has net.old.terms value }
    requires count { length (terms_of objects.old slot) ≡ count }
    requires may { MayPutAt net.old objects.old slot value }
    ensures { OnOk result (IsPutAt net.old net.new objects.old objects.new slot index value (λ v. bit_at v guard)) }
{
    let _ = net.terms.len();
    for place in 0..reached(count, index.width) {
        put_place(net, objects, slot, place, index, value, guard)?;
    }
    Ok(())
}
