// Guards as terms; what is known already makes no term.

ghost use Rattle.std.specs.Prelude.{◌≡◌, ◌*◌, IfOk, bit_or, bit_and, nat_lt};
ghost use Rattle.bits_core.specs.Word.{bit, at_zero};
ghost use Rattle.sized_terms.specs.Sized.{Has, bits};
ghost use Rattle.unwind_state.specs.Guards.{HasGuard, HasFlow, IsGuard, IsFlow, AreSides, bit_at, bits_of, merge_of, turned_of, gathered_of};
ghost use Rattle.unwind_state.specs.Writing.{IsChosen};

use crate::state::{Flow, Guard, Sides};
use bits_core::{Op1, Op2};
use sized_terms::SizedTerm;
use std::alloc::AllocError;
use unrolled::{Unrolled, room};

/// A guard where one of two is 1.
pub fn or(net: &mut Unrolled, a: Guard, b: Guard) -> Result<Guard, AllocError>
    requires first { HasGuard net.old.terms a }
    requires second { HasGuard net.old.terms b }
    ensures { IfOk result (λ r. IsGuard net.old net.new r (λ v. bit_or (bit_at v a) (bit_at v b))) }
{
    // The terms are a graph.
    let _ = net.terms.len();
    match (a, b) {
        (Guard::Never, _) => Ok(b),
        (_, Guard::Never) => Ok(a),
        (Guard::Always, _) => Ok(Guard::Always),
        (_, Guard::Always) => Ok(Guard::Always),
        (Guard::When(x), Guard::When(y)) => {
            room(net, 1)?;
            let t = sized_terms::two(&mut net.terms, Op2::Or, x, y)?;
            Ok(Guard::When(t))
        }
    }
}

/// A guard where another is 1 and a bit is.
pub fn and_bit(net: &mut Unrolled, guard: Guard, set: SizedTerm) -> Result<Guard, AllocError>
    requires guard { HasGuard net.old.terms guard }
    requires set { Has net.old.terms set }
    requires one { set.width ≡ 1 }
    ensures { IfOk result (λ r. IsGuard net.old net.new r (λ v. bit_and (bit_at v guard) (bits v set))) }
{
    let _ = net.terms.len();
    match guard {
        Guard::Never => Ok(Guard::Never),
        Guard::Always => Ok(Guard::When(set)),
        Guard::When(x) => {
            room(net, 1)?;
            let t = sized_terms::two(&mut net.terms, Op2::And, x, set)?;
            Ok(Guard::When(t))
        }
    }
}

/// A guard split by a test.
pub fn split(net: &mut Unrolled, guard: Guard, set: SizedTerm) -> Result<Sides, AllocError>
    requires guard { HasGuard net.old.terms guard }
    requires set { Has net.old.terms set }
    requires one { set.width ≡ 1 }
    ensures { IfOk result (λ r. AreSides net.old net.new set guard r) }
{
    room(net, 1)?;
    let unset = sized_terms::one(&mut net.terms, Op1::Not, set)?;
    let taken = and_bit(net, guard, set)?;
    let other = and_bit(net, guard, unset)?;
    Ok(Sides { taken, other })
}

/// The guards behind one of two stretches.
pub fn joined(net: &mut Unrolled, a: Flow, b: Flow) -> Result<Flow, AllocError>
    requires first { HasFlow net.old.terms a }
    requires second { HasFlow net.old.terms b }
    ensures { IfOk result (λ f. IsFlow net.old net.new f (λ v way. bit_or (bits_of v a way) (bits_of v b way))) }
{
    let next = or(net, a.next, b.next)?;
    let breaking = or(net, a.breaking, b.breaking)?;
    let continuing = or(net, a.continuing, b.continuing)?;
    let returning = or(net, a.returning, b.returning)?;
    Ok(Flow {
        next,
        breaking,
        continuing,
        returning,
    })
}

/// The guards behind two stretches, one after the other.
pub fn merged(net: &mut Unrolled, a: Flow, b: Flow) -> Result<Flow, AllocError>
    requires first { HasFlow net.old.terms a }
    requires second { HasFlow net.old.terms b }
    ensures { IfOk result (λ f. IsFlow net.old net.new f (λ v way. merge_of way (bits_of v a way) (bits_of v b way))) }
{
    let breaking = or(net, a.breaking, b.breaking)?;
    let continuing = or(net, a.continuing, b.continuing)?;
    let returning = or(net, a.returning, b.returning)?;
    Ok(Flow {
        next: b.next,
        breaking,
        continuing,
        returning,
    })
}

/// The guards behind a loop's body.
pub fn turned(net: &mut Unrolled, a: Flow) -> Result<Flow, AllocError>
    requires { HasFlow net.old.terms a }
    ensures { IfOk result (λ f. IsFlow net.old net.new f (λ v. turned_of (bits_of v a))) }
{
    let next = or(net, a.next, a.continuing)?;
    Ok(Flow {
        next,
        breaking: a.breaking,
        continuing: Guard::Never,
        returning: a.returning,
    })
}

/// The guards behind a loop.
pub fn gathered(net: &mut Unrolled, a: Flow) -> Result<Flow, AllocError>
    requires { HasFlow net.old.terms a }
    ensures { IfOk result (λ f. IsFlow net.old net.new f (λ v. gathered_of (bits_of v a))) }
{
    let first = or(net, a.next, a.breaking)?;
    let next = or(net, first, a.continuing)?;
    Ok(Flow {
        next,
        breaking: Guard::Never,
        continuing: Guard::Never,
        returning: a.returning,
    })
}

/// A term where the guard is 1, and else another of its width.
pub fn chosen(
    net: &mut Unrolled,
    guard: Guard,
    new: SizedTerm,
    old: SizedTerm,
) -> Result<SizedTerm, AllocError>
    requires guard { HasGuard net.old.terms guard }
    requires first { Has net.old.terms new }
    requires second { Has net.old.terms old }
    requires same { old.width ≡ new.width }
    ensures { IfOk result (λ t. IsChosen net.old net.new new.width t (λ v. at_zero (bit_at v guard) (bits v old) (bits v new))) }
{
    let _ = net.terms.len();
    match guard {
        Guard::Never => Ok(old),
        Guard::Always => Ok(new),
        Guard::When(x) => {
            room(net, 1)?;
            let t = sized_terms::choose(&mut net.terms, x, new, old)?;
            Ok(t)
        }
    }
}
