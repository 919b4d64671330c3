//! The number of a site, of one or two variables.

ghost use Rattle.std.specs.Prelude.{◌≡◌, ℕ, ◌+◌, ◌-◌, ◌<◌, ◌≤◌, length, IfOk};
ghost use Rattle.bits_core.specs.Word.{IsWidth};
ghost use Rattle.site_terms.specs.Sizes.{Makes, IsFresh};
ghost use Rattle.flat_tree.specs.Values.{site_at, site_number};
ghost use Rattle.src_text.specs.declared.refusal.Place.{Place};
ghost use Rattle.term_steps.specs.Adds.{Adds};
ghost use Rattle.word_eqs.specs.Graph.{IsGraph, width_in, MOST_TERMS};

use std::alloc::AllocError;
use term_steps::{join, variable};
use word_eqs::{TermId, Terms};

/// A new variable, and its term.
fn fresh(terms: &mut Terms, width: u8) -> Result<TermId, AllocError>
    requires width { IsWidth width }
    requires few { length terms.old.vars + 1 ≤ MOST_TERMS }
    requires room { length terms.old.terms + 1 ≤ MOST_TERMS }
    ensures fresh { IfOk result (λ t. IsFresh terms.old terms.new width t.0) }
    ensures proper { IsGraph terms.new }
{
    let x = terms.var(width)?;
    let t = variable(terms, x)?;
    Ok(t)
}

/// The number of a new site. One of over 64 bits takes two variables, the low 64 bits first.
pub fn site(terms: &mut Terms, width: u8) -> Result<TermId, AllocError>
    requires width { IsWidth width }
    requires few { length terms.old.vars + 2 ≤ MOST_TERMS }
    requires room { length terms.old.terms + 3 ≤ MOST_TERMS }
    ensures made { IfOk result (λ t. (p : Place) (reads : ℕ) → reads ≤ length terms.old.vars → Makes terms.old terms.new (site_at p width) width (λ v. site_number (λ k. (v.var (reads + k)).value) width (length terms.old.vars - reads)) 0 3 t.0) }
    ensures proper { IsGraph terms.new }
{
    if width <= 64 {
        let t = fresh(terms, width)?;
        return Ok(t);
    }
    let low = fresh(terms, 64)?;
    let high = fresh(terms, width - 64)?;
    let t = join(terms, high, low)?;
    Ok(t)
}
