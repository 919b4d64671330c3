//! The bits of wires that drivers write.

ghost use Rattle.std.specs.Prelude.{All, length, IfOk, OnOk};
ghost use Rattle.bit_sets.specs.Sets.{IsWithin};
ghost use Rattle.flat_values.specs.Fits.{shapes_of};
ghost use Rattle.wire_drivers.specs.Wires.{FitsWork, FitsDriver, AddsWork, IsSetOf, AreSetsOf};

use bit_sets::Bits;
use flat_tree::{FlatDriver, FlatSignal, FlatWork, Work};
use flat_writes::{Extent, add_bits};
use std::alloc::{AllocError, Global};

/// Adds the bits of wires that a driver writes to a set; a process writes none.
fn add_work(
    signals: &[FlatSignal],
    work: &FlatWork,
    extent: Extent,
    set: &mut Vec<Bits>,
) -> Result<(), AllocError>
    requires fits { FitsWork signals.now work.now }
    requires within { IsWithin (length signals.now) set.old.items }
    ensures within { OnOk result (IsWithin (length signals.now) set.new.items) }
    ensures adds { OnOk result (AddsWork (shapes_of signals.now) extent work.now set.old.items set.new.items) }
{
    match work {
        Work::Assign(target, _) => add_bits(signals, target, extent, set),
        Work::Connect(target, _, _) => add_bits(signals, target, extent, set),
        Work::Comb(_, _) => Ok(()),
    }
}

fn driver_set(
    alloc: Global,
    signals: &[FlatSignal],
    driver: &FlatDriver,
    extent: Extent,
) -> Result<Vec<Bits>, AllocError>
    requires fits { FitsDriver signals.now driver.now }
    ensures within { IfOk result (λ s. IsWithin (length signals.now) s.items) }
    ensures set { IfOk result (λ s. IsSetOf (shapes_of signals.now) extent driver.now s.items) }
{
    let mut set = Vec::new(alloc);
    add_work(signals, &driver.work, extent, &mut set)?;
    Ok(set)
}

/// The bits of wires that each driver writes: all that it may write, or those that it writes whatever the view.
pub fn driver_sets(
    alloc: Global,
    signals: &[FlatSignal],
    drivers: &[FlatDriver],
    extent: Extent,
) -> Result<Vec<Vec<Bits>>, AllocError>
    requires fits { All (FitsDriver signals.now) drivers.now }
    ensures within { IfOk result (λ sets. All (λ s. IsWithin (length signals.now) s.items) sets.items) }
    ensures sets { IfOk result (λ sets. AreSetsOf (shapes_of signals.now) extent drivers.now sets.items) }
{
    let mut sets = Vec::new(alloc);
    for driver in drivers {
        let set = driver_set(alloc, signals, driver, extent)?;
        sets.push(set)?;
    }
    Ok(sets)
}
