//! Operators over the terms of their operands, with the site of a division.

ghost use Rattle.std.specs.Prelude.{◌≡◌, ℕ, ◌+◌, ◌-◌, ◌*◌, ◌<◌, ◌≤◌, true, length, IfOk};
ghost use Rattle.bits_core.specs.Word.{IsWidth};
ghost use Rattle.flat_tree.specs.Measures.{binary_row};
ghost use Rattle.flat_tree.specs.Operators.{form_of, binary_value};
ghost use Rattle.flat_tree.specs.Values.{numbers_of};
ghost use Rattle.operand_contexts.specs.Contexts.{FitForm, has_site};
ghost use Rattle.site_terms.specs.Sizes.{Makes};
ghost use Rattle.sized_expressions.specs.Operated.{own_site, own_width, own_number, operated as operated_by};
ghost use Rattle.src_text.specs.declared.refusal.Place.{Place};
ghost use Rattle.term_steps.specs.Adds.{Adds};
ghost use Rattle.word_eqs.specs.Graph.{IsGraph, width_in, MOST_TERMS};

use flat_values::LengthSign;
use operand_contexts::{combine, divide, divides};
use site_terms::site;
use std::alloc::AllocError;
use v_tree::BinaryOp;
use word_eqs::{TermId, Terms};

/// The number of an operator's site, if it has one; else the left operand, which nothing asks for.
pub fn site_of(
    terms: &mut Terms,
    op: BinaryOp,
    width: u8,
    left: TermId,
) -> Result<TermId, AllocError>
    requires left { left.0 < length terms.old.terms }
    requires width { IsWidth width }
    requires few { has_site (form_of op) ≡ true → length terms.old.vars + numbers_of width < MOST_TERMS }
    requires room { length terms.old.terms + 3 ≤ MOST_TERMS }
    ensures { IfOk result (λ t. (p : Place) (reads : ℕ) → reads ≤ length terms.old.vars → Makes terms.old terms.new (own_site (form_of op) p width) (own_width (form_of op) width (width_in terms.old left.0)) (λ v. own_number (form_of op) (λ k. (v.var (reads + k)).value) width (length terms.old.vars - reads) (v.term left.0).value) 0 3 t.0) }
{
    let _ = terms.len();
    if divides(op) {
        let t = site(terms, width)?;
        return Ok(t);
    }
    Ok(left)
}

/// A binary operator over its operands, which stand at their widths, and the number of its site, if it has one.
pub fn operated(
    terms: &mut Terms,
    op: BinaryOp,
    both: bool,
    x: TermId,
    site: TermId,
    y: TermId,
    at: LengthSign,
) -> Result<TermId, AllocError>
    requires x { x.0 < length terms.old.terms }
    requires site { site.0 < length terms.old.terms }
    requires y { y.0 < length terms.old.terms }
    requires widths { FitForm (form_of op) at.length (width_in terms.old x.0) (width_in terms.old y.0) }
    requires sites { has_site (form_of op) ≡ true → width_in terms.old site.0 ≡ at.length }
    requires at { IsWidth at.length }
    requires room { length terms.old.terms + 4 ≤ MOST_TERMS }
    ensures { IfOk result (λ t. Adds terms.old terms.new at.length (λ v. operated_by (form_of op) (binary_value op) (width_in terms.old x.0) both at.length at.signed (v.term x.0).value (v.term site.0).value (v.term y.0).value) (8 * binary_row op (width_in terms.old x.0) (width_in terms.old y.0)) 4 t.0) }
{
    if divides(op) {
        let t = divide(terms, op, at.signed, x, y, site)?;
        return Ok(t);
    }
    let t = combine(terms, op, both, x, y, at)?;
    Ok(t)
}
