//! Bits with no driver.

ghost use Rattle.std.specs.Prelude.{◌≡◌, List, All, length, vec_len, IfOk};
ghost use Rattle.std.specs.Global.{Vec};
ghost use Rattle.bit_sets.specs.declared.Bits.{Bits};
ghost use Rattle.bit_sets.specs.Sets.{IsWithin};
ghost use Rattle.frame_offences.specs.Drivers.{IsFilled, IsMissing};

use crate::masks::has_more;
use bit_sets::{Bits, fill};
use std::alloc::{AllocError, Global};

/// A table of all bits of some sets.
fn fill_all(alloc: Global, signals: usize, sets: &[Vec<Bits>]) -> Result<Vec<u64>, AllocError>
    requires { All (λ s. IsWithin signals s.items) sets.now }
    ensures len { IfOk result (λ table. vec_len table ≡ signals) }
    ensures filled { IfOk result (λ table. IsFilled sets.now table.items) }
{
    let mut table = vec![in alloc; 0u64; signals]?;
    for j in 0..sets.len() {
        let set = sets[j].as_slice();
        fill(&mut table, set);
    }
    Ok(table)
}

/// The first of some masks with a bit that a table lacks.
fn first_lacking(table: &[u64], wanted: &[Bits]) -> Option<usize>
    requires { IsWithin (length table.now) wanted.now }
    ensures { (sets : List (Vec Bits)) → IsFilled sets table.now → IsMissing wanted.now sets result }
{
    for j in 0..wanted.len() {
        let bits = wanted[j];
        let mask = table[bits.signal as usize];
        if has_more(bits.mask, mask) {
            return Some(j);
        }
    }
    None
}

/// The first of some masks with a bit that none of some sets has. Masks of nets and sets of what drivers write for certain
/// show by it the first net with a bit that has no driver. The time is that of going once over all.
pub fn first_missing(
    alloc: Global,
    signals: usize,
    wanted: &[Bits],
    sets: &[Vec<Bits>],
) -> Result<Option<usize>, AllocError>
    requires wanted { IsWithin signals wanted.now }
    requires sets { All (λ s. IsWithin signals s.items) sets.now }
    ensures { IfOk result (IsMissing wanted.now sets.now) }
{
    let table = fill_all(alloc, signals, sets)?;
    Ok(first_lacking(table.as_slice(), wanted))
}
