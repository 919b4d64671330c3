//! Bits with two drivers.

ghost use Rattle.std.specs.Prelude.{◌≡◌, All, length, vec_len, IfOk};
ghost use Rattle.bit_sets.specs.Sets.{IsWithin};
ghost use Rattle.frame_offences.specs.Drivers.{IsMeeting, IsSecond};

use crate::masks::has_common;
use bit_sets::{Bits, fill};
use std::alloc::{AllocError, Global};

/// Whether a set has a bit of a table.
fn meets(table: &[u64], set: &[Bits]) -> bool
    requires { IsWithin (length table.now) set.now }
    ensures { IsMeeting table.now set.now result }
{
    for bits in set {
        let mask = table[bits.signal as usize];
        if has_common(mask, bits.mask) {
            return true;
        }
    }
    false
}

/// The first of some sets that has a bit which one before it has. Sets of what drivers may write show by it the first driver
/// of a bit that is driven already (IEEE 1364-2005 takes several drivers of a net, 6.1.2; this profile takes one). The time
/// is that of going once over the sets.
pub fn second_writer(
    alloc: Global,
    signals: usize,
    sets: &[Vec<Bits>],
) -> Result<Option<usize>, AllocError>
    requires { All (λ s. IsWithin signals s.items) sets.now }
    ensures { IfOk result (IsSecond sets.now) }
{
    let mut table = vec![in alloc; 0u64; signals]?;
    for j in 0..sets.len() {
        let set = sets[j].as_slice();
        if meets(table.as_slice(), set) {
            return Ok(Some(j));
        }
        fill(&mut table, set);
    }
    Ok(None)
}
