//! What unwinds a pair.

use joint_ir::{Bounds, Pair};
use judge::Unwinder;
use std::alloc::{AllocError, Global};
use unwind::unwind;
use unwound::Unwound;

/// Unwinds a pair as `unwind` does.
pub struct Unwinding;

impl Unwinder for Unwinding {
    fn unwind(&self, alloc: Global, pair: &Pair, bounds: &Bounds) -> Result<Unwound, AllocError> {
        unwind(alloc, pair, bounds)
    }
}
