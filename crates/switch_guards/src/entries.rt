// The guards of entry of the groups of a `switch`.

ghost use Rattle.std.specs.Prelude.{◌≡◌, ◌<◌, IfOk, MatchOption, length, slice_get, Some, None};
ghost use Rattle.joint_ir.specs.Statements.{is_default as is_default_of};
ghost use Rattle.joint_ir.specs.Types.{IsType};
ghost use Rattle.joint_lists.specs.Lists.{case_with};
ghost use Rattle.sized_terms.specs.Sized.{Has};
ghost use Rattle.unwind_state.specs.Guards.{HasGuard};
ghost use Rattle.switch_guards.specs.Entries.{AreEntries, AreHits, FitLabels};

use crate::labels::{has_default, is_label};
use joint_ir::{Group, IntType};
use sized_terms::SizedTerm;
use std::alloc::{AllocError, Global};
use unrolled::Unrolled;
use unwind_state::{Guard, or, split};

/// Where control enters a `switch`.
#[derive(Drop)]
pub struct Entries {
    /// For each group, where it is entered.
    pub groups: Vec<Guard>,
    /// Where none is.
    pub past: Guard,
}

/// For each group of a `switch`, where the value is one of its labels and of none before it; and where it is of none.
fn hits(
    alloc: Global,
    net: &mut Unrolled,
    ty: IntType,
    value: SizedTerm,
    groups: &[Group],
    guard: Guard,
) -> Result<Entries, AllocError>
    requires has { Has net.old.terms value }
    requires width { value.width ≡ ty.bits }
    requires ty { IsType ty }
    requires fit { FitLabels ty groups.now }
    requires guard { HasGuard net.old.terms guard }
    ensures { IfOk result (λ r. AreHits net.old net.new ty value guard groups.now r.groups.items r.past) }
{
    // The terms are a graph.
    let _ = net.terms.len();
    let mut entered = Vec::new(alloc);
    let mut past = guard;
    for group in groups {
        let set = is_label(net, ty, value, group.labels.as_slice())?;
        let sides = split(net, past, set)?;
        match entered.push(sides.taken) {
            Ok(()) => {}
            Err(e) => return Err(AllocError::from(e)),
        }
        past = sides.other;
    }
    Ok(Entries {
        groups: entered,
        past,
    })
}

/// The first group with the label `default`.
fn default_of(groups: &[Group]) -> Option<usize>
    ensures { result ≡ case_with is_default_of groups.now }
{
    for (i, group) in groups.iter().enumerate() {
        if has_default(group) {
            return Some(i);
        }
    }
    None
}

/// The guards of entry: the group of the value's label, else that of `default`, else none (C99 6.8.4.2p5).
pub fn enter_groups(
    alloc: Global,
    net: &mut Unrolled,
    ty: IntType,
    value: SizedTerm,
    groups: &[Group],
    guard: Guard,
) -> Result<Entries, AllocError>
    requires has { Has net.old.terms value }
    requires width { value.width ≡ ty.bits }
    requires ty { IsType ty }
    requires fit { FitLabels ty groups.now }
    requires guard { HasGuard net.old.terms guard }
    ensures { IfOk result (λ r. AreEntries net.old net.new ty value guard groups.now r.groups.items r.past) }
{
    let mut found = hits(alloc, net, ty, value, groups, guard)?;
    let Some(i) = default_of(groups) else {
        return Ok(found);
    };
    let old = found.groups[i];
    found.groups[i] = or(net, old, found.past)?;
    found.past = Guard::Never;
    Ok(found)
}
