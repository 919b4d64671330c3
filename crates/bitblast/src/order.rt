//! Whether a list is in order: a test for callers that do not know it of how they made the list.

ghost use Rattle.std.specs.Prelude.{◌≡◌, ◌↔◌, EachIndex, ◌+◌, ◌<◌, ◌≤◌, ℕ, IsTrue, length, replicate, nat_eq, slice_get, slice_index, Some, IfOk, IfSome, IfNone, false, Contains};
ghost use Rattle.word_eqs.specs.Graph.{FitsNode, parts, places};
ghost use Rattle.word_eqs.specs.Guarded.{FitsAct, FitsStep, IsOrdered, act_terms, gives};
ghost use Rattle.word_eqs.specs.declared.list.Step.{Step as Stepped};
ghost use Rattle.bitblast.specs.Blasted.{StandsFor};
ghost use Rattle.bitblast.specs.Order.{AreEarly, AreLatest, ArePlaced, IsLatest, Places};

use crate::blasting::{Blasted, blast};
use std::alloc::{AllocError, Global};
use word_eqs::{Act, GuardedList, Step, TermId, TermNode, Terms, VarId};

/// Whether what a step does fits its terms and variables.
fn fits_act(terms: &Terms, act: Act) -> bool
    ensures { IsTrue result → FitsAct terms.now act }
{
    match act {
        Act::Free(x) => x.0 < terms.vars(),
        Act::Set(x, t) => {
            x.0 < terms.vars() && t.0 < terms.len() && terms.width_of(t) == terms.width_of_var(x)
        }
        Act::Cut(t) => t.0 < terms.len(),
        Act::Prop(_, t) => t.0 < terms.len(),
    }
}

/// Whether a step fits its terms and variables.
fn fits(terms: &Terms, step: Step) -> bool
    ensures { IsTrue result → FitsStep terms.now step }
{
    step.guard.0 < terms.len() && terms.width_of(step.guard) == 1 && fits_act(terms, step.act)
}

/// The variable that a step gives its word.
fn given(act: Act) -> Option<VarId>
    ensures some { IfSome result (λ x. (y : ℕ) → gives y act ≡ nat_eq y x.0) }
    ensures none { IfNone result ((y : ℕ) → gives y act ≡ false) }
{
    match act {
        Act::Free(x) => Some(x),
        Act::Set(x, _) => Some(x),
        Act::Cut(_) => None,
        Act::Prop(_, _) => None,
    }
}

/// Gives the variable of a step its place, counted from 1, if it has none.
fn place_one(act: Act, k: u32, place: &mut [u32]) -> bool
    requires { k < 4294967295 }
    ensures { IsTrue result → Places act k place.old place.new }
{
    if let Some(x) = given(act) {
        let at = x.0 as usize;
        if at >= place.len() || place[at] != 0 {
            return false;
        }
        place[at] = k + 1;
    }
    true
}

/// Gives each variable its place, if all steps fit and each variable is given its word once at most.
fn place_all(terms: &Terms, list: &GuardedList, place: &mut [u32]) -> bool
    requires { place.old ≡ replicate (length terms.now.vars) 0 }
    ensures { IsTrue result → ArePlaced terms.now list.now (length list.now) place.new }
{
    for k in 0..list.len() {
        let step = list.get(k);
        if !fits(terms, step) || !place_one(step.act, k, place) {
            return false;
        }
    }
    true
}

/// The latest place of some terms.
fn latest_of(last: &[u32], ids: &[TermId]) -> u32
    requires { (t : ℕ) → Contains (places ids.now) t → t < length last.now }
    ensures { (t : ℕ) → Contains (places ids.now) t → slice_index last.now t ≤ result }
{
    let mut latest = 0;
    for &id in ids {
        latest = last[id.0 as usize].max(latest);
    }
    latest
}

/// The latest place of the parts of a node.
fn latest_part(last: &[u32], node: TermNode) -> u32
    requires { (t : ℕ) → Contains (parts node) t → t < length last.now }
    ensures { (t : ℕ) → Contains (parts node) t → slice_index last.now t ≤ result }
{
    match node {
        TermNode::Const(_) => 0,
        TermNode::Var(_) => 0,
        TermNode::One(_, a) => latest_of(last, &[a]),
        TermNode::Two(_, a, b) => latest_of(last, &[a, b]),
        TermNode::Choose(c, a, b) => latest_of(last, &[c, a, b]),
        TermNode::Resize(a, _, _) => latest_of(last, &[a]),
        TermNode::Slice(a, _, _) => latest_of(last, &[a]),
        TermNode::Join(a, b) => latest_of(last, &[a, b]),
    }
}

/// The latest place of the variables that a node uses.
fn latest(terms: &Terms, place: &[u32], last: &[u32], node: TermNode) -> u32
    requires fits { FitsNode terms.now (length last.now) node }
    requires places { length place.now ≡ length terms.now.vars }
    ensures { IsLatest place.now last.now node result }
{
    let _ = terms.len();
    match node {
        TermNode::Var(x) => place[x.0 as usize],
        _ => latest_part(last, node),
    }
}

/// For each term the latest place of the variables that it uses.
fn latest_places(alloc: Global, terms: &Terms, place: &[u32]) -> Result<Vec<u32>, AllocError>
    requires { length place.now ≡ length terms.now.vars }
    ensures { IfOk result (λ last. AreLatest terms.now place.now last.items (length terms.now.terms)) }
{
    let mut last = Vec::new(alloc);
    for k in 0..terms.len() {
        let latest = latest(terms, place, &last, terms.node(TermId(k)));
        last.push(latest)?;
    }
    Ok(last)
}

/// Whether the terms that a step names besides its guard use variables alone that are given their words before it.
fn act_is_early(last: &[u32], k: u32, act: Act) -> bool
    requires { (t : ℕ) → Contains (act_terms act) t → t < length last.now }
    ensures { IsTrue result → (t : ℕ) → Contains (act_terms act) t → slice_index last.now t ≤ k }
{
    match act {
        Act::Free(_) => true,
        Act::Set(_, t) => latest_of(last, &[t]) <= k,
        Act::Cut(t) => latest_of(last, &[t]) <= k,
        Act::Prop(_, t) => latest_of(last, &[t]) <= k,
    }
}

/// Whether the terms of a step use variables alone that are given their words before it.
fn is_early(last: &[u32], k: u32, step: Step) -> bool
    requires guard { step.guard.0 < length last.now }
    requires terms { (t : ℕ) → Contains (act_terms step.act) t → t < length last.now }
    ensures { IsTrue result → AreEarly last.now k step }
{
    last[step.guard.0 as usize] <= k && act_is_early(last, k, step.act)
}

/// Whether the terms of each step use variables alone that are given their words before it.
fn are_early(terms: &Terms, list: &GuardedList, last: &[u32]) -> bool
    requires terms { length last.now ≡ length terms.now.terms }
    requires fit { (j : ℕ) (s : Stepped) → slice_get list.now j ≡ Some s → FitsStep terms.now s }
    ensures { IsTrue result → (j : ℕ) (s : Stepped) → slice_get list.now j ≡ Some s → AreEarly last.now j s }
{
    let _ = terms.len();
    for k in 0..list.len() {
        if !is_early(last, k, list.get(k)) {
            return false;
        }
    }
    true
}

/// Whether each variable has a place.
fn all_placed(place: &[u32]) -> bool
    ensures { IsTrue result ↔ EachIndex place.now (λ x. 0 < slice_index place.now x) }
{
    place.iter().all(|at| *at > 0)
}

/// Whether each variable is given its word by one step, and is used after it alone. It takes time and
/// memory linear in the numbers of variables, terms and steps.
pub fn is_ordered(alloc: Global, terms: &Terms, list: &GuardedList) -> Result<bool, AllocError>
    ensures { IfOk result (λ ordered. IsTrue ordered → IsOrdered terms.now list.now) }
{
    let mut place = vec![in alloc; 0u32; terms.vars() as usize]?;
    if !place_all(terms, list, &mut place) {
        return Ok(false);
    }
    let last = latest_places(alloc, terms, &place)?;
    if !all_placed(&place) {
        return Ok(false);
    }
    Ok(are_early(terms, list, &last))
}

/// The net of a list, if the list is in order and there are at most 4000 terms and as many steps.
pub fn blast_if_ordered(
    alloc: Global,
    terms: &Terms,
    list: &GuardedList,
) -> Result<Option<Blasted>, AllocError>
    ensures { IfOk result (λ made. IfSome made (λ b. StandsFor terms.now list.now b.net b.root b.wires)) }
{
    if terms.len() > 4000 || list.len() > 4000 || !is_ordered(alloc, terms, list)? {
        return Ok(None);
    }
    let made = blast(alloc, terms, list)?;
    Ok(Some(made))
}
