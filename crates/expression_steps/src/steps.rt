// Terms and steps so far, and what is pushed.

ghost use Rattle.std.specs.Prelude.{◌≡◌, ◌+◌, ◌*◌, ◌<◌, ◌≤◌, ◌++◌, length, IfOk, OnOk};
ghost use Rattle.sized_terms.specs.Sized.{Has};
ghost use Rattle.expression_steps.specs.Asking.{check_steps, IsPushed, IsSplit};

use bits_core::{Op1, Op2};
use checked_terms::{Check, Checked};
use sized_terms::SizedTerm;
use std::alloc::AllocError;
use unrolled::{Unrolled, room};
use word_eqs::{Act, MOST_TERMS, Step};

/// Whether a term isn't 0, with a guard for where it isn't, and one for where it is.
#[derive(Clone, Copy, Debug, PartialEq, Eq)]
pub struct Split {
    pub set: SizedTerm,
    pub taken: SizedTerm,
    pub other: SizedTerm,
}

/// Pushes the step of a check, if there is one.
pub fn push_check(
    net: &mut Unrolled,
    guard: SizedTerm,
    check: Option<Check>,
) -> Result<(), AllocError>
    ensures { OnOk result (IsPushed net.old net.new (check_steps guard check)) }
{
    let _ = &net.terms;
    match check {
        None => Ok(()),
        Some(c) => {
            if net.list.len() >= MOST_TERMS {
                return Err(AllocError);
            }
            net.list.push(Step {
                guard: guard.term,
                act: Act::Prop(c.prop.0, c.test.term),
            })?;
            Ok(())
        }
    }
}

/// Pushes the steps of a result's checks.
pub fn push_checks(net: &mut Unrolled, guard: SizedTerm, r: Checked) -> Result<(), AllocError>
    ensures { OnOk result (IsPushed net.old net.new (check_steps guard r.division ++ check_steps guard r.other)) }
{
    push_check(net, guard, r.division)?;
    push_check(net, guard, r.other)?;
    Ok(())
}

/// Splits a guard by whether a term isn't 0.
pub fn split_by(net: &mut Unrolled, guard: SizedTerm, x: SizedTerm) -> Result<Split, AllocError>
    requires guard { Has net.old.terms guard }
    requires bit { guard.width ≡ 1 }
    requires has { Has net.old.terms x }
    ensures { IfOk result (λ r. IsSplit net.old net.new guard x r) }
{
    room(net, 4)?;
    let set = checked_terms::is_set(&mut net.terms, x)?;
    let unset = sized_terms::one(&mut net.terms, Op1::Not, set)?;
    let taken = sized_terms::two(&mut net.terms, Op2::And, guard, set)?;
    let other = sized_terms::two(&mut net.terms, Op2::And, guard, unset)?;
    Ok(Split { set, taken, other })
}
