// Steps under guards.

ghost use Rattle.std.specs.Prelude.{◌≡◌, ◌<◌, ◌≤◌, IfOk, OnOk};
ghost use Rattle.word_eqs.specs.declared.list.Act.TheVariants.{Cut, Prop};
ghost use Rattle.sized_terms.specs.Sized.{Has};
ghost use Rattle.unwind_state.specs.Guards.{HasGuard};
ghost use Rattle.unwind_state.specs.Unwinding.{IsTerm, IsPushed, IsVariable, IsDrawn};

use crate::state::Guard;
use joint_ir::program::PropId;
use sized_terms::SizedTerm;
use std::alloc::AllocError;
use unrolled::{Unrolled, room};
use word_eqs::{Act, MOST_TERMS, Step, TermNode, VarId};

/// A term of one bit that is 1 where a path is live.
pub fn term_of(net: &mut Unrolled, guard: Guard) -> Result<SizedTerm, AllocError>
    requires { HasGuard net.old.terms guard }
    ensures { IfOk result (λ t. IsTerm net.old net.new guard t) }
{
    // The terms are a graph.
    let _ = net.terms.len();
    match guard {
        Guard::Never => {
            room(net, 1)?;
            let t = sized_terms::constant(&mut net.terms, 1, 0)?;
            Ok(t)
        }
        Guard::Always => {
            room(net, 1)?;
            let t = sized_terms::constant(&mut net.terms, 1, 1)?;
            Ok(t)
        }
        Guard::When(t) => Ok(t),
    }
}

/// A step under a guard.
fn push(net: &mut Unrolled, guard: Guard, act: Act) -> Result<(), AllocError>
    requires { HasGuard net.old.terms guard }
    ensures { OnOk result (IsPushed net.old net.new guard act) }
{
    let t = term_of(net, guard)?;
    if net.list.len() >= MOST_TERMS {
        return Err(AllocError);
    }
    net.list.push(Step { guard: t.term, act })?;
    Ok(())
}

/// A check, which breaks a property where the guard is 1 and a term is 0.
pub fn prop(
    net: &mut Unrolled,
    guard: Guard,
    prop: PropId,
    test: SizedTerm,
) -> Result<(), AllocError>
    requires { HasGuard net.old.terms guard }
    ensures { OnOk result (IsPushed net.old net.new guard (Prop prop.0 test.term)) }
{
    push(net, guard, Act::Prop(prop.0, test.term))
}

/// An assumption, behind which nothing is live where the guard is 1 and a term is 0.
pub fn cut(net: &mut Unrolled, guard: Guard, test: SizedTerm) -> Result<(), AllocError>
    requires { HasGuard net.old.terms guard }
    ensures { OnOk result (IsPushed net.old net.new guard (Cut test.term)) }
{
    push(net, guard, Act::Cut(test.term))
}

/// The term of a new variable.
fn variable(net: &mut Unrolled, width: u8) -> Result<(VarId, SizedTerm), AllocError>
    requires some { 0 < width }
    requires few { width ≤ 64 }
    ensures { IfOk result (λ r. IsVariable net.old net.new width r.0 r.1) }
{
    room(net, 1)?;
    let x = net.terms.var(width)?;
    let term = net.terms.add(TermNode::Var(x))?;
    Ok((x, SizedTerm { term, width }))
}

/// A word of so many bits that is drawn where the guard is 1, and may be any.
pub fn draw(net: &mut Unrolled, guard: Guard, width: u8) -> Result<SizedTerm, AllocError>
    requires guard { HasGuard net.old.terms guard }
    requires some { 0 < width }
    requires few { width ≤ 64 }
    ensures { IfOk result (λ t. IsDrawn net.old net.new width guard t) }
{
    let (x, t) = variable(net, width)?;
    push(net, guard, Act::Free(x))?;
    Ok(t)
}
