//! Continuous assignments, and the drivers of a module (IEEE 1364-2005, 6.1).

ghost use Rattle.std.specs.Prelude.{◌≡◌, map, flat_map, IfOk};
ghost use Rattle.elab_drivers.specs.Drivers.{driver as driver_of, assign_driver as assign_driver_of, value_drivers as value_drivers_of, net_drivers as net_drivers_of, item_drivers as item_drivers_of, module_drivers as module_drivers_of};

use crate::processes::process_drivers;
use elab_flat::number::signal_number;
use elab_flat::{flat_expr, flat_target};
use elab_names::scope::Names;
use flat_tree::{Driver, FlatDriver, FlatWork, Work};
use sqlite_items::Items;
use src_text::Place;
use std::alloc::{AllocError, Global};
use v_starts::target_start;
use v_tree::{Declarator, Expr, Identifier, Item, Module, NetAssignment};
use v_views::{Selection, Target};

/// A driver of an instance.
pub fn driver(instance: u32, place: Place, work: FlatWork) -> FlatDriver
    ensures { result ≡ driver_of instance place work }
{
    Driver {
        instance,
        place,
        work,
    }
}

fn assign_driver(
    alloc: Global,
    names: &Names,
    instance: u32,
    a: &NetAssignment,
) -> Result<FlatDriver, AllocError>
    ensures { IfOk result (λ d. d ≡ assign_driver_of names.now instance a.now) }
{
    let target = flat_target(alloc, names, &[], &a.target)?;
    let value = flat_expr(alloc, names, &[], &a.value)?;
    Ok(driver(
        instance,
        target_start(&a.target),
        Work::Assign(target, value),
    ))
}

fn assign_drivers(
    alloc: Global,
    names: &Names,
    instance: u32,
    assignments: &[NetAssignment],
) -> Result<Items<FlatDriver>, AllocError>
    ensures { IfOk result (λ l. l ≡ map (assign_driver_of names.now instance) assignments.now) }
{
    let mut drivers = Items::new(alloc);
    for a in assignments {
        let d = assign_driver(alloc, names, instance, a)?;
        drivers.push(d)?;
    }
    Ok(drivers)
}

fn value_drivers(
    alloc: Global,
    names: &Names,
    instance: u32,
    x: &Identifier,
    value: &Option<Expr>,
) -> Result<Items<FlatDriver>, AllocError>
    ensures { IfOk result (λ l. l ≡ value_drivers_of names.now instance x.now value.now) }
{
    let mut drivers = Items::new(alloc);
    match value {
        None => Ok(drivers),
        Some(e) => {
            let number = signal_number(&names.find(&x.name));
            let value = flat_expr(alloc, names, &[], e)?;
            let target = Target::Signal(x.place, number, Selection::Whole);
            drivers.push(driver(instance, x.place, Work::Assign(target, value)))?;
            Ok(drivers)
        }
    }
}

fn nets_drivers(
    alloc: Global,
    names: &Names,
    instance: u32,
    nets: &[Declarator],
) -> Result<Items<FlatDriver>, AllocError>
    ensures { IfOk result (λ l. l ≡ flat_map (net_drivers_of names.now instance) nets.now) }
{
    let mut drivers = Items::new(alloc);
    for d in nets {
        let more = value_drivers(alloc, names, instance, &d.name, &d.value)?;
        drivers.append(more)?;
    }
    Ok(drivers)
}

fn item_drivers(
    alloc: Global,
    names: &Names,
    instance: u32,
    i: &Item,
) -> Result<Items<FlatDriver>, AllocError>
    ensures { IfOk result (λ l. l ≡ item_drivers_of names.now instance i.now) }
{
    match i {
        Item::Assign(d) => {
            let drivers = assign_drivers(alloc, names, instance, d.assignments.as_slice())?;
            Ok(drivers)
        }
        Item::Net(d) => {
            let drivers = nets_drivers(alloc, names, instance, d.nets.as_slice())?;
            Ok(drivers)
        }
        Item::Always(a) => {
            let drivers = process_drivers(alloc, names, instance, a.place, &a.body, &a.event)?;
            Ok(drivers)
        }
        _ => Ok(Items::new(alloc)),
    }
}

fn items_drivers(
    alloc: Global,
    names: &Names,
    instance: u32,
    items: &[Item],
) -> Result<Items<FlatDriver>, AllocError>
    ensures { IfOk result (λ l. l ≡ flat_map (item_drivers_of names.now instance) items.now) }
{
    let mut drivers = Items::new(alloc);
    for i in items {
        let more = item_drivers(alloc, names, instance, i)?;
        drivers.append(more)?;
    }
    Ok(drivers)
}

/// The drivers of an instance of a module, without those of its connections, in the order of the text.
pub fn module_drivers(
    alloc: Global,
    names: &Names,
    instance: u32,
    m: &Module,
) -> Result<Items<FlatDriver>, AllocError>
    ensures { IfOk result (λ l. l ≡ module_drivers_of names.now instance m.now) }
{
    let drivers = items_drivers(alloc, names, instance, m.items.as_slice())?;
    Ok(drivers)
}
