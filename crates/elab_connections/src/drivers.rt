//! Connections, one after another.

ghost use Rattle.std.specs.Prelude.{◌≡◌, ℕ, ◌+◌, List, flat_map, slice_get, Option, IfOk};
ghost use Rattle.std.specs.Option.{option_copied};
ghost use Rattle.v_tree.specs.declared.item.DirectionKind.{DirectionKind as Direction};
ghost use Rattle.name_table.specs.Tables.{find_in};
ghost use Rattle.elab_ports.specs.Making.{IsPorts};
ghost use Rattle.elab_connections.specs.Drivers.{is_plain as is_plain_of, input_work as input_work_of, output_work as output_work_of, port_work as port_work_of, port_driver as port_driver_of, place_drivers as place_drivers_of, ordered_drivers as ordered_drivers_of, value_drivers as value_drivers_of, found_drivers as found_drivers_of, named_drivers as named_drivers_of, joined_drivers as joined_drivers_of, connection_drivers as connection_drivers_of};

use crate::targets::output_target;
use elab_flat::flat_expr;
use elab_names::scope::Names;
use elab_ports::Ports;
use flat_tree::{Driver, FlatDriver, FlatExpr, FlatWork, Work};
use sqlite_items::Items;
use std::alloc::{AllocError, Global};
use v_starts::expr_start;
use v_tree::{Connections, DirectionKind, Expr, NamedConnection};
use v_views::{Selection, Target};

fn is_plain(e: &Expr) -> bool
    ensures { result ≡ is_plain_of e.now }
{
    match e {
        Expr::Name(_) => true,
        _ => false,
    }
}

fn input_work(alloc: Global, names: &Names, number: u32, e: &Expr) -> Result<FlatWork, AllocError>
    ensures { IfOk result (λ w. w ≡ input_work_of names.now number e.now) }
{
    let value = flat_expr(alloc, names, &[], e)?;
    let target = Target::Signal(expr_start(e), number, Selection::Whole);
    Ok(Work::Connect(target, value, is_plain(e)))
}

fn output_work(alloc: Global, names: &Names, number: u32, e: &Expr) -> Result<FlatWork, AllocError>
    ensures { IfOk result (λ w. w ≡ output_work_of names.now number e.now) }
{
    let target = output_target(alloc, names, e)?;
    let value = FlatExpr::Signal(expr_start(e), number);
    Ok(Work::Connect(target, value, is_plain(e)))
}

fn port_work(
    alloc: Global,
    names: &Names,
    direction: Option<DirectionKind>,
    number: u32,
    e: &Expr,
) -> Result<FlatWork, AllocError>
    ensures { IfOk result (λ w. w ≡ port_work_of names.now direction number e.now) }
{
    match direction {
        Some(DirectionKind::Output) => output_work(alloc, names, number, e),
        Some(DirectionKind::Input) | None => input_work(alloc, names, number, e),
    }
}

fn port_driver(
    alloc: Global,
    names: &Names,
    outer: u32,
    direction: Option<DirectionKind>,
    number: u32,
    e: &Expr,
) -> Result<FlatDriver, AllocError>
    ensures { IfOk result (λ d. d ≡ port_driver_of names.now outer direction number e.now) }
{
    let work = port_work(alloc, names, direction, number, e)?;
    Ok(Driver {
        instance: outer,
        place: expr_start(e),
        work,
    })
}

/// The number of the signal at a place after the first; past the greatest number there is no memory for it.
fn number_at(first: u32, place: usize) -> Result<u32, AllocError>
    ensures { IfOk result (λ n. n ≡ first + place) }
{
    match u32::try_from(place) {
        Err(_) => Err(AllocError),
        Ok(place) => match first.checked_add(place) {
            None => Err(AllocError),
            Some(number) => Ok(number),
        },
    }
}

fn place_drivers(
    alloc: Global,
    names: &Names,
    outer: u32,
    first: u32,
    direction: Option<&Option<DirectionKind>>,
    place: usize,
    e: &Expr,
) -> Result<Items<FlatDriver>, AllocError>
    ensures { IfOk result (λ l. l ≡ place_drivers_of names.now outer first (option_copied direction.entry) place e.now) }
{
    let mut drivers = Items::new(alloc);
    match direction {
        None => Ok(drivers),
        Some(direction) => {
            let number = number_at(first, place)?;
            let d = port_driver(alloc, names, outer, *direction, number, e)?;
            drivers.push(d)?;
            Ok(drivers)
        }
    }
}

fn ordered_drivers(
    alloc: Global,
    names: &Names,
    outer: u32,
    first: u32,
    ports: &Ports,
    es: &[Expr],
) -> Result<Items<FlatDriver>, AllocError>
    ensures { IfOk result (λ l. l ≡ ordered_drivers_of names.now outer first ports.now.directions 0 es.now) }
{
    let mut drivers = Items::new(alloc);
    for (place, e) in es.iter().enumerate() {
        let direction = ports.directions.get(place);
        let more = place_drivers(alloc, names, outer, first, direction, place, e)?;
        drivers.append(more)?;
    }
    Ok(drivers)
}

fn value_drivers(
    alloc: Global,
    names: &Names,
    outer: u32,
    first: u32,
    ports: &Ports,
    place: usize,
    value: &Option<Expr>,
) -> Result<Items<FlatDriver>, AllocError>
    ensures { IfOk result (λ l. l ≡ value_drivers_of names.now outer first ports.now.directions place value.now) }
{
    match value {
        None => Ok(Items::new(alloc)),
        Some(e) => {
            let direction = ports.directions.get(place);
            let drivers = place_drivers(alloc, names, outer, first, direction, place, e)?;
            Ok(drivers)
        }
    }
}

fn named_drivers(
    alloc: Global,
    names: &Names,
    outer: u32,
    first: u32,
    ports: &Ports,
    c: &NamedConnection,
) -> Result<Items<FlatDriver>, AllocError>
    ensures { IfOk result (λ l. l ≡ named_drivers_of names.now outer first ports.now.directions (find_in ports.now.places) c.now) }
{
    match ports.places.find(&c.name.name) {
        None => Ok(Items::new(alloc)),
        Some(place) => {
            let drivers = value_drivers(alloc, names, outer, first, ports, place, &c.value)?;
            Ok(drivers)
        }
    }
}

fn all_named_drivers(
    alloc: Global,
    names: &Names,
    outer: u32,
    first: u32,
    ports: &Ports,
    cs: &[NamedConnection],
) -> Result<Items<FlatDriver>, AllocError>
    ensures { IfOk result (λ l. l ≡ flat_map (named_drivers_of names.now outer first ports.now.directions (find_in ports.now.places)) cs.now) }
{
    let mut drivers = Items::new(alloc);
    for c in cs {
        let more = named_drivers(alloc, names, outer, first, ports, c)?;
        drivers.append(more)?;
    }
    Ok(drivers)
}

fn joined_drivers(
    alloc: Global,
    names: &Names,
    outer: u32,
    first: u32,
    ports: &Ports,
    connections: &Connections,
) -> Result<Items<FlatDriver>, AllocError>
    ensures { IfOk result (λ l. l ≡ joined_drivers_of names.now outer first ports.now.directions (find_in ports.now.places) connections.now) }
{
    match connections {
        Connections::Absent => Ok(Items::new(alloc)),
        Connections::Ordered(es) => {
            let drivers = ordered_drivers(alloc, names, outer, first, ports, es.as_slice())?;
            Ok(drivers)
        }
        Connections::Named(cs) => {
            let drivers = all_named_drivers(alloc, names, outer, first, ports, cs.as_slice())?;
            Ok(drivers)
        }
    }
}

/// The drivers that connect the ports of an instance, by the names in the module round it, the number of that module's
/// instance, the number of the first signal of its own, and the ports of its module. A number past 2^32 is told as want of
/// memory.
pub fn connection_drivers(
    alloc: Global,
    names: &Names,
    outer: u32,
    first: u32,
    ports: &Ports,
    connections: &Connections,
) -> Result<Items<FlatDriver>, AllocError>
    ensures { (list : List (List ℕ × Option Direction)) → IsPorts list ports.now → IfOk result (λ l. l ≡ connection_drivers_of names.now outer first list connections.now) }
{
    let drivers = joined_drivers(alloc, names, outer, first, ports, connections)?;
    Ok(drivers)
}
