//! Sets of bits of signals.
//!
//! A set is a list of masks, in no order and with repeats, so that a union is one list behind another. What two sets share,
//! and what one lacks of another, go through a table of masks by signal, which is empty between uses: the time is that of
//! going over both sets. Knows nothing of what signals are.
#![tactic(auto)]

ghost use Rattle.std.specs.Prelude.{◌≡◌, ◌&&◌, ℕ, not, length, vec_len, IfOk, OnOk};
ghost use Rattle.bit_sets.specs.Sets.{is_in, IsWithin, IsEmpty, Fills, Clears, TakesOut, IsCommon, IsWithout};

use std::alloc::{AllocError, Global};

/// Bits of one signal: bit k of the mask stands for its bit k.
#[derive(Clone, Copy, Debug, PartialEq, Eq)]
pub struct Bits {
    pub signal: u32,
    pub mask: u64,
}

/// Adds a set to a table.
pub fn fill(table: &mut Vec<u64>, set: &[Bits])
    requires { IsWithin (vec_len table.old) set.now }
    ensures len { vec_len table.new ≡ vec_len table.old }
    ensures fills { Fills set.now table.old.items table.new.items }
{
    for bits in set {
        let mask = table[bits.signal as usize];
        table[bits.signal as usize] = mask | bits.mask;
    }
}

/// Takes all signals of a set out of a table.
pub fn clear(table: &mut Vec<u64>, set: &[Bits])
    requires { IsWithin (vec_len table.old) set.now }
    ensures len { vec_len table.new ≡ vec_len table.old }
    ensures clears { Clears set.now table.old.items table.new.items }
{
    for bits in set {
        table[bits.signal as usize] = 0;
    }
}

/// Takes the bits of a set out of a table, and no others.
pub fn take_out(table: &mut Vec<u64>, set: &[Bits])
    requires { IsWithin (vec_len table.old) set.now }
    ensures len { vec_len table.new ≡ vec_len table.old }
    ensures takes { TakesOut set.now table.old.items table.new.items }
{
    for bits in set {
        let mask = table[bits.signal as usize];
        table[bits.signal as usize] = mask ^ (mask & bits.mask);
    }
}

/// What a set shares with a table.
fn shared(alloc: Global, table: &[u64], set: &[Bits]) -> Result<Vec<Bits>, AllocError>
    requires { IsWithin (length table.now) set.now }
    ensures within { IfOk result (λ s. IsWithin (length table.now) s.items) }
    ensures shared { IfOk result (λ s. IsCommon table.now set.now s.items) }
{
    let mut both = Vec::new(alloc);
    for bits in set {
        let mask = table[bits.signal as usize];
        both.push(Bits {
            signal: bits.signal,
            mask: bits.mask & mask,
        })?;
    }
    Ok(both)
}

/// What a set has and a table lacks.
pub fn lacking(alloc: Global, table: &[u64], set: &[Bits]) -> Result<Vec<Bits>, AllocError>
    requires { IsWithin (length table.now) set.now }
    ensures within { IfOk result (λ s. IsWithin (length table.now) s.items) }
    ensures lacking { IfOk result (λ s. IsWithout table.now set.now s.items) }
{
    let mut rest = Vec::new(alloc);
    for bits in set {
        let mask = table[bits.signal as usize];
        rest.push(Bits {
            signal: bits.signal,
            mask: bits.mask ^ (bits.mask & mask),
        })?;
    }
    Ok(rest)
}

/// The bits that stand in both sets. Where memory lacks, the table may be left filled.
pub fn common(
    alloc: Global,
    table: &mut Vec<u64>,
    a: &[Bits],
    b: &[Bits],
) -> Result<Vec<Bits>, AllocError>
    requires empty { IsEmpty table.old.items }
    requires a { IsWithin (vec_len table.old) a.now }
    requires b { IsWithin (vec_len table.old) b.now }
    ensures len { vec_len table.new ≡ vec_len table.old }
    ensures empty { OnOk result (IsEmpty table.new.items) }
    ensures within { IfOk result (λ s. IsWithin (vec_len table.old) s.items) }
    ensures common { IfOk result (λ s. (g k : ℕ) → is_in s.items g k ≡ (is_in a.now g k && is_in b.now g k)) }
{
    fill(table, a);
    let both = shared(alloc, table.as_slice(), b)?;
    clear(table, a);
    Ok(both)
}

/// The bits of one set that don't stand in another. Where memory lacks, the table may be left filled.
pub fn without(
    alloc: Global,
    table: &mut Vec<u64>,
    a: &[Bits],
    b: &[Bits],
) -> Result<Vec<Bits>, AllocError>
    requires empty { IsEmpty table.old.items }
    requires a { IsWithin (vec_len table.old) a.now }
    requires b { IsWithin (vec_len table.old) b.now }
    ensures len { vec_len table.new ≡ vec_len table.old }
    ensures empty { OnOk result (IsEmpty table.new.items) }
    ensures within { IfOk result (λ s. IsWithin (vec_len table.old) s.items) }
    ensures without { IfOk result (λ s. (g k : ℕ) → is_in s.items g k ≡ (is_in a.now g k && not (is_in b.now g k))) }
{
    fill(table, b);
    let rest = lacking(alloc, table.as_slice(), a)?;
    clear(table, b);
    Ok(rest)
}
