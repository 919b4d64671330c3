// The words of each signal.

ghost use Rattle.std.specs.Prelude.{◌≡◌, ◌++◌, ◌∷◌, [], take, drop, All, IfOk, OnOk};
ghost use Rattle.joint_ir.specs.WellFormed.{FitsSignal};
ghost use Rattle.unwind_state.specs.Writing.{IsChosen};
ghost use Rattle.unwind_words.specs.Rows.{HaveTerms, HasSignals};

use joint_ir::{Role, Signal};
use joint_view::choices::word_count;
use sized_terms::{SizedTerm, constant};
use std::alloc::{AllocError, Global};
use unrolled::{Unrolled, room};
use word_eqs::{TermId, TermIds};

/// The first n terms, or all of fewer.
fn first(ids: &[TermId], n: u32) -> &[TermId]
    ensures { result.now ≡ take n ids.now }
{
    if (n as usize) < ids.len() {
        &ids[..n as usize]
    } else {
        ids
    }
}

/// The terms behind the first n.
fn rest(ids: &[TermId], n: u32) -> &[TermId]
    ensures { result.now ≡ drop n ids.now }
{
    if (n as usize) < ids.len() {
        &ids[n as usize..]
    } else {
        &ids[ids.len()..]
    }
}

fn push_row(alloc: Global, rows: &mut Vec<TermIds>, ids: &[TermId]) -> Result<(), AllocError>
    ensures { OnOk result (rows.new.items ≡ rows.old.items ++ ids.now ∷ []) }
{
    let row = TermIds::from_slice(alloc, ids)?;
    rows.push(row)?;
    Ok(())
}

/// What the clock reads.
fn low(net: &mut Unrolled) -> Result<SizedTerm, AllocError>
    ensures { IfOk result (λ t. IsChosen net.old net.new 1 t (λ v. 0)) }
{
    room(net, 1)?;
    let t = constant(&mut net.terms, 1, 0)?;
    Ok(t)
}

/// A row for each signal, of the terms of its words. The clock reads 0.
pub fn signal_rows(
    alloc: Global,
    net: &mut Unrolled,
    signals: &[Signal],
    registers: &[TermId],
    inputs: &[TermId],
    wires: &[TermId],
) -> Result<Vec<TermIds>, AllocError>
    requires signals { All FitsSignal signals.now }
    requires terms { HaveTerms net.old.terms signals.now registers.now inputs.now wires.now }
    ensures { IfOk result (λ rows. HasSignals net.old net.new signals.now registers.now inputs.now wires.now rows.items) }
{
    // The terms are a graph.
    let _ = net.terms.len();
    let mut rows = Vec::new(alloc);
    let mut registers = registers;
    let mut inputs = inputs;
    let mut wires = wires;
    for signal in signals {
        match signal.role {
            Role::Clock => {
                let zero = low(net)?;
                push_row(alloc, &mut rows, &[zero.term])?;
            }
            Role::Input => {
                push_row(alloc, &mut rows, first(inputs, 1))?;
                inputs = rest(inputs, 1);
            }
            Role::Wire => {
                push_row(alloc, &mut rows, first(wires, 1))?;
                wires = rest(wires, 1);
            }
            Role::Register => {
                let count = word_count(signal);
                push_row(alloc, &mut rows, first(registers, count))?;
                registers = rest(registers, count);
            }
        }
    }
    Ok(rows)
}
