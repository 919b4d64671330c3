//! Read faults, counted as `Files` tells them.

ghost use Rattle.std.specs.Prelude.{◌≡◌, ◌<◌};
ghost use Rattle.io_edge.specs.Faults.{Rose};

use crate::files::Failed;

/// How many calls failed. Both counts stop at the end of 64 bits.
#[derive(Clone, Copy, Debug)]
pub struct ReadFaults {
    /// Of all calls.
    pub total: u64,
    /// Of those since the last `start`.
    pub since_start: u64,
}

impl ReadFaults {
    /// No fault met yet.
    pub fn new() -> ReadFaults
        ensures { (result.total ≡ 0) × (result.since_start ≡ 0) }
    {
        ReadFaults {
            total: 0,
            since_start: 0,
        }
    }

    /// Counts a call that fails.
    pub fn count(&mut self) -> Failed
        ensures rose { Rose self.old.total self.new.total }
        ensures since { 0 < self.new.since_start }
    {
        self.total = self.total.saturating_add(1);
        self.since_start = self.since_start.saturating_add(1);
        Failed
    }
}
