//! Bits of wires with two drivers.

ghost use Rattle.std.specs.Prelude.{All, IfOk};
ghost use Rattle.flat_values.specs.Fits.{shapes_of};
ghost use Rattle.wire_drivers.specs.Wires.{FitsDriver, IsSecondDriver};

use crate::sets::driver_sets;
use flat_tree::{FlatDriver, FlatSignal};
use flat_writes::Extent;
use frame_offences::second_writer;
use std::alloc::{AllocError, Global};

/// The number of the first driver that may write a bit of a wire which one before it may write: an `assign`, a wire's value
/// or a port connection. IEEE 1364-2005 takes several drivers of a net (6.1.2); this profile takes one of each bit. A write
/// by an index that isn't constant counts as all bits of its name. The time is that of going once over all targets, and over
/// as many masks as there are signals.
pub fn second_driver(
    alloc: Global,
    signals: &[FlatSignal],
    drivers: &[FlatDriver],
) -> Result<Option<usize>, AllocError>
    requires { All (FitsDriver signals.now) drivers.now }
    ensures { IfOk result (IsSecondDriver (shapes_of signals.now) drivers.now) }
{
    let sets = driver_sets(alloc, signals, drivers, Extent::Any)?;
    second_writer(alloc, signals.len(), sets.as_slice())
}
