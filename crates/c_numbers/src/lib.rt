//! How many keys of a list are below one, by a sort.
//!
//! Knows nothing of what the keys stand for.
#![tactic(auto)]

ghost use Rattle.std.specs.Prelude.{◌≡◌, ◌≤◌, nat_lt, ℕ, length, IfOk};
ghost use Rattle.std.specs.List.{count_by};
ghost use Rattle.std.specs.List.Sorted.{IsNonDecreasingBy, IsPermutation};

use std::alloc::{AllocError, Global};

/// The number of keys below one, in a sorted list.
pub fn below(sorted: &[u128], x: u128) -> usize
    requires { IsNonDecreasingBy (λ (k : ℕ). k) sorted.now }
    ensures count { result ≡ count_by (λ k. nat_lt k x) sorted.now }
    ensures bound { result ≤ length sorted.now }
{
    sorted.partition_point(|k| *k < x)
}

/// The keys in order. Want of memory is the only error.
pub fn sorted(alloc: Global, keys: &[u128]) -> Result<Vec<u128>, AllocError>
    ensures sorted { IfOk result (λ v. IsNonDecreasingBy (λ (k : ℕ). k) v.items) }
    ensures same { IfOk result (λ v. IsPermutation keys.now v.items) }
{
    let mut v = keys.to_vec(alloc)?;
    v.sort_unstable();
    Ok(v)
}
