//! Terms of a module among those of an unwinding: a settling or a clock edge, copied with the state's terms put in for its
//! variables.
#![tactic(auto)]

ghost use Rattle.std.specs.Prelude.{◌≡◌, ◌+◌, ◌<◌, ◌≤◌, All, length, count_by, IfOk, OnOk};
ghost use Rattle.word_eqs.specs.Graph.{places, is_no_var, MOST_TERMS};
ghost use Rattle.word_eqs.specs.Import.{AreSubs};
ghost use Rattle.word_eqs.specs.declared.term.TermId.{TermId as Id};
ghost use Rattle.module_copies.specs.Copying.{AreCopied, IsPicked};

use std::alloc::{AllocError, Global};
use unrolled::{Unrolled, room};
use word_eqs::{TermId, TermIds, Terms};

/// The number of terms that may be copied at once.
const MOST: u32 = 1073741824;

/// Tells whether there is room for a copy of so many terms.
fn room_for(net: &Unrolled, from: &Terms) -> Result<(), AllocError>
    ensures { OnOk result (length net.now.terms.terms + count_by is_no_var from.now.terms ≤ MOST_TERMS) }
{
    let count = from.len();
    if count > MOST {
        return Err(AllocError);
    }
    room(net, count)?;
    Ok(())
}

/// The copies of some of the terms that were copied.
fn picked(alloc: Global, ids: &[TermId], wanted: &[TermId]) -> Result<TermIds, AllocError>
    requires { All (λ (t : Id). t.0 < length ids.now) wanted.now }
    ensures { IfOk result (λ found. IsPicked (places ids.now) wanted.now (places found)) }
{
    let mut found = TermIds::new(alloc);
    for t in wanted {
        found.push(ids[t.0 as usize])?;
    }
    Ok(found)
}

/// Copies of some terms of a graph, given a term for each of its variables. They have the numbers that those terms' numbers
/// make, in each valuation.
pub fn copied(
    alloc: Global,
    net: &mut Unrolled,
    from: &Terms,
    wanted: &TermIds,
    subs: &TermIds,
) -> Result<TermIds, AllocError>
    requires subs { AreSubs net.old.terms from.now (places subs.now) }
    requires there { All (λ (t : Id). t.0 < length from.now.terms) wanted.now }
    ensures { IfOk result (λ ids. AreCopied net.old net.new from.now wanted.now subs.now ids) }
{
    // The terms to be copied are a graph.
    let _ = from.len();
    room_for(net, from)?;
    let all = net.terms.import(from, subs)?;
    let ids = picked(alloc, all.as_slice(), wanted.as_slice())?;
    Ok(ids)
}
