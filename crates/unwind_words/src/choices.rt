// Words that become others where a guard is 1.

ghost use Rattle.std.specs.Prelude.{IfOk};
ghost use Rattle.unwind_state.specs.Guards.{HasGuard};
ghost use Rattle.unwind_module.specs.Words.{AreAlike, AreChosen};
ghost use Rattle.unwind_words.specs.Rows.{AreAlikeRows, AreChosenRows};

use sized_terms::SizedTerm;
use std::alloc::{AllocError, Global};
use unrolled::Unrolled;
use unwind_state::{Guard, chosen};
use word_eqs::{TermId, TermIds};

/// Terms that have the numbers of the new ones where the guard is 1, and those of the old ones where it is 0.
pub fn choose_all(
    alloc: Global,
    net: &mut Unrolled,
    guard: Guard,
    new: &[TermId],
    old: &[TermId],
) -> Result<TermIds, AllocError>
    requires guard { HasGuard net.old.terms guard }
    requires alike { AreAlike net.old.terms new.now old.now }
    ensures { IfOk result (λ ids. AreChosen net.old net.new guard new.now old.now ids) }
{
    // The terms are a graph.
    let _ = net.terms.len();
    let mut ids = TermIds::new(alloc);
    for k in 0..new.len() {
        let a = new[k];
        let b = old[k];
        let width = net.terms.width_of(a);
        let t = chosen(
            net,
            guard,
            SizedTerm { term: a, width },
            SizedTerm { term: b, width },
        )?;
        ids.push(t.term)?;
    }
    Ok(ids)
}

/// Rows of terms that have the numbers of the new ones where the guard is 1, and those of the old ones where it is 0.
pub fn choose_rows(
    alloc: Global,
    net: &mut Unrolled,
    guard: Guard,
    new: &[TermIds],
    old: &[TermIds],
) -> Result<Vec<TermIds>, AllocError>
    requires guard { HasGuard net.old.terms guard }
    requires alike { AreAlikeRows net.old.terms new.now old.now }
    ensures { IfOk result (λ rows. AreChosenRows net.old net.new guard new.now old.now rows.items) }
{
    let _ = net.terms.len();
    let mut rows = Vec::new(alloc);
    for k in 0..new.len() {
        let ids = choose_all(alloc, net, guard, new[k].as_slice(), old[k].as_slice())?;
        rows.push(ids)?;
    }
    Ok(rows)
}
