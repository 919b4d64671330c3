// Lists of widths, of first values and of terms.

ghost use Rattle.std.specs.Prelude.{◌≡◌, ◌*◌, ◌≤◌, ◌^◌, ◌<◌, IsTrue, IfSome, length, count_by, cond};
ghost use Rattle.joint_ir.specs.Weights.{sum_of};
ghost use Rattle.joint_ir.specs.WellFormed.{AreTerms, FitFirsts};
ghost use Rattle.word_eqs.specs.Graph.{is_made, is_no_var, width_in};

use bits_core::Word;
use word_eqs::{TermId, TermNode, Terms, VarId};

/// Whether variables have these widths, one for one.
pub fn have_widths(terms: &Terms, widths: &[u8]) -> bool
    ensures { IsTrue result → terms.now.vars ≡ widths.now }
{
    if terms.vars() as usize != widths.len() {
        return false;
    }
    for k in 0..terms.vars() {
        if terms.width_of_var(VarId(k)) != widths[k as usize] {
            return false;
        }
    }
    true
}

/// Whether a term is there, of so many bits.
fn is_term(terms: &Terms, id: TermId, width: u8) -> bool
    ensures there { IsTrue result → id.0 < length terms.now.terms }
    ensures sized { IsTrue result → width_in terms.now id.0 ≡ width }
{
    if id.0 < terms.len() {
        terms.width_of(id) == width
    } else {
        false
    }
}

/// Whether terms are there, of these numbers of bits, one for one.
pub fn are_terms(terms: &Terms, ids: &[TermId], widths: &[u8]) -> bool
    ensures { IsTrue result → AreTerms terms.now ids.now widths.now }
{
    if ids.len() != widths.len() {
        return false;
    }
    for k in 0..ids.len() {
        if !is_term(terms, ids[k], widths[k]) {
            return false;
        }
    }
    true
}

/// Whether a first value, if there is one, is below 2^bits.
fn is_first(first: Option<u64>, bits: u8) -> bool
    ensures { IsTrue result → IfSome first (λ n. n < 2 ^ bits) }
{
    match first {
        None => true,
        Some(n) => Word::new(bits, n as u128).is_some(),
    }
}

/// Whether first values are below 2^bits, one for each width.
pub fn fit_firsts(firsts: &[Option<u64>], widths: &[u8]) -> bool
    ensures { IsTrue result → FitFirsts firsts.now widths.now }
{
    if firsts.len() != widths.len() {
        return false;
    }
    for k in 0..firsts.len() {
        if !is_first(firsts[k], widths[k]) {
            return false;
        }
    }
    true
}

/// The sum of numbers of bits.
pub fn total(widths: &[u8]) -> u128
    ensures value { result ≡ sum_of widths.now }
    ensures bound { result ≤ 255 * length widths.now }
{
    let mut total = 0u128;
    for width in widths {
        total += *width as u128;
    }
    total
}

/// 1 for a node that is no variable.
fn counted(node: TermNode) -> u32
    ensures value { result ≡ cond (is_made node) 1 0 }
    ensures bound { result ≤ 1 }
{
    match node {
        TermNode::Var(_) => 0,
        _ => 1,
    }
}

/// The number of terms that are no variables.
pub fn made(terms: &Terms) -> u32
    ensures { result ≡ count_by is_no_var terms.now.terms }
{
    let mut count = 0;
    for k in 0..terms.len() {
        let more = counted(terms.node(TermId(k)));
        count += more;
    }
    count
}
