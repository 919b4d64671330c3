// A flat module.

ghost use Rattle.std.specs.Prelude.{◌≡◌, ◌++◌, IsTrue, IfOk, All};
ghost use Rattle.joint_ir.specs.Views.{widths_of as widths_of_role, site_widths as widths_of_sites};
ghost use Rattle.joint_ir.specs.WellFormed.{FitsModule, FitsSignal, FitsSite, FitFirsts, IsWithin};
ghost use Rattle.joint_ir.specs.declared.module.Role.TheVariants.{Input, Register, Wire};
ghost use Rattle.pair_checks.specs.Parts.{HasWords, Settles, Steps};

use crate::lists::{are_terms, fit_firsts, have_widths, made, total};
use joint_ir::{FlatModule, Role, Signal, Site};
use joint_view::choices::{site_widths, widths_of};
use list_checks::gates;
use std::alloc::{AllocError, Global};
use word_eqs::{GuardedList, Terms};

/// Whether a signal has 1 to 64 bits, words only as a register, and one bit as the clock.
fn is_signal(signal: &Signal) -> bool
    ensures { IsTrue result → FitsSignal signal.now }
{
    let sized = 1 <= signal.bits && signal.bits <= 64;
    sized
        && match signal.role {
            Role::Register => true,
            Role::Clock => signal.words == 0 && signal.bits == 1,
            Role::Input | Role::Wire => signal.words == 0,
        }
}

fn are_signals(signals: &[Signal]) -> bool
    ensures { IsTrue result → All FitsSignal signals.now }
{
    for signal in signals {
        if !is_signal(signal) {
            return false;
        }
    }
    true
}

/// Whether unknown words have 1 to 64 bits.
fn are_sites(sites: &[Site]) -> bool
    ensures { IsTrue result → All FitsSite sites.now }
{
    for site in sites {
        if site.bits < 1 || 64 < site.bits {
            return false;
        }
    }
    true
}

/// Whether terms, with unknown words of these widths, are within a weight.
fn is_within(alloc: Global, terms: &Terms, sites: &[u8], weight: u64) -> bool
    ensures { IsTrue result → IsWithin terms.now sites.now weight }
{
    let drawn = 8 * total(sites);
    let most = 8 * (weight as u128);
    let gates = gates(terms, &GuardedList::new(alloc)) as u128;
    let made = made(terms) as u128;
    gates + drawn <= most && made + drawn <= most
}

fn has_words(alloc: Global, flat: &FlatModule) -> Result<bool, AllocError>
    ensures { IfOk result (λ yes. IsTrue yes → HasWords flat.now) }
{
    let signals = flat.signals.as_slice();
    let registers = widths_of(alloc, Role::Register, signals)?;
    let few = signals.len() < 1 << 32;
    let sites = are_sites(flat.settle_sites.as_slice()) && are_sites(flat.edge_sites.as_slice());
    let firsts = fit_firsts(flat.firsts.as_slice(), registers.as_slice());
    Ok(few && are_signals(signals) && sites && firsts)
}

fn settles(alloc: Global, flat: &FlatModule) -> Result<bool, AllocError>
    ensures { IfOk result (λ yes. IsTrue yes → Settles flat.now) }
{
    let signals = flat.signals.as_slice();
    let mut vars = widths_of(alloc, Role::Register, signals)?;
    let inputs = widths_of(alloc, Role::Input, signals)?;
    let wires = widths_of(alloc, Role::Wire, signals)?;
    let sites = site_widths(alloc, flat.settle_sites.as_slice())?;
    vars.append(inputs)?;
    vars.append(site_widths(alloc, flat.settle_sites.as_slice())?)?;
    let terms = &flat.settle_terms;
    let settled = are_terms(terms, flat.settled.as_slice(), wires.as_slice());
    let within = is_within(alloc, terms, sites.as_slice(), flat.settle_weight);
    Ok(have_widths(terms, vars.as_slice()) && settled && within)
}

fn steps(alloc: Global, flat: &FlatModule) -> Result<bool, AllocError>
    ensures { IfOk result (λ yes. IsTrue yes → Steps flat.now) }
{
    let signals = flat.signals.as_slice();
    let registers = widths_of(alloc, Role::Register, signals)?;
    let mut vars = widths_of(alloc, Role::Register, signals)?;
    let inputs = widths_of(alloc, Role::Input, signals)?;
    let wires = widths_of(alloc, Role::Wire, signals)?;
    let sites = site_widths(alloc, flat.edge_sites.as_slice())?;
    vars.append(inputs)?;
    vars.append(wires)?;
    vars.append(site_widths(alloc, flat.edge_sites.as_slice())?)?;
    let terms = &flat.edge_terms;
    let next = are_terms(terms, flat.next.as_slice(), registers.as_slice());
    let within = is_within(alloc, terms, sites.as_slice(), flat.edge_weight);
    Ok(have_widths(terms, vars.as_slice()) && next && within)
}

/// Whether a module is well-formed: yes only where it is (`FitsModule`). Time is linear in its signals' words and its terms. Want
/// of memory is the only error.
#[tactic(auto, using(crate::proofs::Testing::whole))]
pub fn is_module(alloc: Global, flat: &FlatModule) -> Result<bool, AllocError>
    ensures { IfOk result (λ yes. IsTrue yes → FitsModule flat.now) }
{
    let words = has_words(alloc, flat)?;
    let settles = settles(alloc, flat)?;
    let steps = steps(alloc, flat)?;
    Ok(words && settles && steps)
}
