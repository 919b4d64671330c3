// The operators of updates: the right operand, and the new value with its checks.

ghost use Rattle.std.specs.Prelude.{◌≡◌, ◌<◌, slice_get, Some, false, length, IfOk, OnOk};
ghost use Rattle.joint_ir.specs.Types.{IsType, converted as converted_to};
ghost use Rattle.joint_ir.specs.WellFormed.{FitsUpdate, is_bound, right_type as type_of_right};
ghost use Rattle.sized_terms.specs.Sized.{Has};
ghost use Rattle.checked_terms.specs.Checked.{stands};
ghost use Rattle.unrolled.specs.Elements.{terms_of};
ghost use Rattle.unwind_state.specs.Guards.{HasGuard};
ghost use Rattle.unwind_simple.specs.Simple.{MayRun};
ghost use Rattle.unwind_stores.specs.Stores.{IsUpdate, IsNumber, IsTested, IsAnswered, IsRight, updated};

use checked_terms::{Check, literal};
use joint_ir::{IntType, Slot, TUpdate};
use sized_terms::SizedTerm;
use std::alloc::AllocError;
use unrolled::{Objects, Unrolled, room};
use unwind_simple::{Activation, value};
use unwind_state::{Guard, State, prop};
use word_eqs::TermId;

/// The term of the first element of an object.
pub fn first(objects: &Objects, slot: Slot) -> TermId
    requires stored { is_bound slot ≡ false }
    requires some { 0 < length (terms_of objects.now slot) }
    ensures { slice_get (terms_of objects.now slot) 0 ≡ Some result }
{
    objects.elements(slot)[0]
}

/// A term converted to a type (C99 6.3.1.2 and 6.3.1.3).
pub fn converted(
    net: &mut Unrolled,
    from: IntType,
    ty: IntType,
    x: SizedTerm,
) -> Result<SizedTerm, AllocError>
    requires has { Has net.old.terms x }
    requires width { x.width ≡ from.bits }
    requires ty { IsType ty }
    ensures { IfOk result (λ t. IsNumber net.old net.new ty t (λ v. converted_to ty (stands from v x))) }
{
    room(net, 1)?;
    let t = checked_terms::converted(&mut net.terms, from, ty, x)?;
    Ok(t)
}

/// A check under a guard, if there is one.
pub fn test(net: &mut Unrolled, guard: Guard, check: Option<Check>) -> Result<(), AllocError>
    requires { HasGuard net.old.terms guard }
    ensures { OnOk result (IsTested net.old net.new guard check) }
{
    let _ = &net.terms;
    match check {
        None => Ok(()),
        Some(c) => {
            prop(net, guard, c.prop, c.test)?;
            Ok(())
        }
    }
}

/// The type of an update's right operand.
pub fn right_type(u: &TUpdate) -> IntType
    ensures { result ≡ type_of_right u.now.ty u.now.right }
{
    match &u.right {
        None => u.ty,
        Some(e) => e.get().ty,
    }
}

/// The right operand of an update, which is 1 at `++` and `--` (C99 6.5.2.4, 6.5.3.1).
pub fn right(
    net: &mut Unrolled,
    at: &Activation,
    state: &State,
    u: &TUpdate,
    guard: Guard,
) -> Result<SizedTerm, AllocError>
    requires { MayRun at.now net.old state.now guard (λ c. FitsUpdate c u.now) }
    ensures { IfOk result (λ t. IsRight at.now net.old net.new state.now u.now guard t) }
{
    // The terms are a graph.
    let _ = net.terms.len();
    match &u.right {
        None => {
            room(net, 1)?;
            let t = literal(&mut net.terms, u.ty, 1)?;
            Ok(t)
        }
        Some(e) => {
            let t = value(net, at, state, e.get(), guard)?;
            Ok(t)
        }
    }
}

/// What an update of an object of a type makes of its old value and the right operand, with the operator's checks.
pub fn operated(
    net: &mut Unrolled,
    u: &TUpdate,
    ty: IntType,
    old: SizedTerm,
    right: SizedTerm,
    guard: Guard,
) -> Result<SizedTerm, AllocError>
    requires guard { HasGuard net.old.terms guard }
    requires first { Has net.old.terms old }
    requires second { Has net.old.terms right }
    requires width_old { old.width ≡ ty.bits }
    requires width_right { right.width ≡ (type_of_right u.now.ty u.now.right).bits }
    requires fits { IsUpdate u.now }
    requires ty { IsType ty }
    ensures { IfOk result (λ t. IsAnswered net.old net.new ty guard t (λ v. updated ty u.now (stands ty v old) (stands (type_of_right u.now.ty u.now.right) v right))) }
{
    let x = converted(net, ty, u.ty, old)?;
    room(net, 11)?;
    let r = c_operator_terms::binary(
        &mut net.terms,
        u.op,
        u.ty,
        u.ty,
        right_type(u),
        u.division,
        u.other,
        x,
        right,
    )?;
    let new = converted(net, u.ty, ty, r.value)?;
    test(net, guard, r.division)?;
    test(net, guard, r.other)?;
    Ok(new)
}
