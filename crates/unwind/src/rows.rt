// Terms of the first elements of objects.

ghost use Rattle.std.specs.Prelude.{◌≡◌, ◌<◌, ◌≤◌, All, slice_index_or, pos, IfOk};
ghost use Rattle.joint_ir.specs.Types.{IsType, InRange};
ghost use Rattle.joint_ir.specs.WellFormed.{FitsVar};
ghost use Rattle.sized_terms.specs.Sized.{Has};
ghost use Rattle.unwind.specs.Rows.{IsElement, IsRow, HasRow, HasRows, AreRows};

use joint_ir::{IntType, Var};
use sized_terms::SizedTerm;
use std::alloc::{AllocError, Global};
use unrolled::{Unrolled, room};
use word_eqs::TermIds;

/// A number of a type.
fn literal(net: &mut Unrolled, ty: IntType, n: i128) -> Result<SizedTerm, AllocError>
    requires ty { IsType ty }
    requires within { InRange ty n }
    ensures { IfOk result (λ t. IsElement net.old net.new ty t n) }
{
    room(net, 1)?;
    let t = checked_terms::literal(&mut net.terms, ty, n)?;
    Ok(t)
}

/// An element's first value; a zero stands for those without one (C99 6.7.8, paragraphs 10 and 21).
fn element(
    net: &mut Unrolled,
    ty: IntType,
    firsts: &[i128],
    at: usize,
    zero: SizedTerm,
) -> Result<SizedTerm, AllocError>
    requires ty { IsType ty }
    requires within { All (InRange ty) firsts.now }
    requires zero { IsElement net.old net.old ty zero (pos 0) }
    ensures { IfOk result (λ t. IsElement net.old net.new ty t (slice_index_or firsts.now at (pos 0))) }
{
    if at < firsts.len() {
        let t = literal(net, ty, firsts[at])?;
        Ok(t)
    } else {
        Ok(zero)
    }
}

/// The first elements of an object. Those that begin at 0 share one term.
fn row(alloc: Global, net: &mut Unrolled, var: &Var) -> Result<TermIds, AllocError>
    requires { FitsVar var.now }
    ensures { IfOk result (λ ids. HasRow net.old net.new var.now ids) }
{
    let zero = literal(net, var.ty, 0)?;
    let firsts = var.firsts.as_slice();
    let count = if var.length == 0 { 1 } else { var.length };
    let mut ids = TermIds::new(alloc);
    for k in 0..count {
        let t = element(net, var.ty, firsts, k as usize, zero)?;
        ids.push(t.term)?;
    }
    Ok(ids)
}

/// The first elements of objects.
pub fn rows(alloc: Global, net: &mut Unrolled, vars: &[Var]) -> Result<Vec<TermIds>, AllocError>
    requires { All FitsVar vars.now }
    ensures { IfOk result (λ rows. HasRows net.old net.new vars.now rows.items) }
{
    // The terms are a graph.
    let _ = net.terms.len();
    let mut rows = Vec::new(alloc);
    for var in vars {
        let ids = row(alloc, net, var)?;
        rows.push(ids)?;
    }
    Ok(rows)
}
