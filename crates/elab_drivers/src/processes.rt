//! Processes (IEEE 1364-2005, 9.7 and 9.9.2).

ghost use Rattle.std.specs.Prelude.{◌≡◌, [], ◌∷◌, flat_map, IfOk};
ghost use Rattle.flat_tree.specs.declared.design.Work.TheVariants as work;
ghost use Rattle.elab_statements.specs.Statements.{flat_stmt as flat_stmt_of};
ghost use Rattle.elab_drivers.specs.Drivers.{driver as driver_of, listed_entry as listed_entry_of, listed as listed_of, process_drivers as process_drivers_of, process_clocked as process_clocked_of, item_clocked as item_clocked_of, module_clocked as module_clocked_of};

use crate::drivers::driver;
use elab_flat::number::signal_number;
use elab_names::names::Entry;
use elab_names::scope::Names;
use elab_statements::flat_stmt;
use flat_tree::{Clocked, FlatClocked, FlatDriver, Sense, Work};
use sqlite_items::Items;
use src_text::Place;
use std::alloc::{AllocError, Global};
use v_tree::{Event, Identifier, Item, Module, Stmt};

fn listed_entry(alloc: Global, entry: &Option<Entry>) -> Result<Items<u32>, AllocError>
    ensures { IfOk result (λ l. l ≡ listed_entry_of entry.now) }
{
    let mut signals = Items::new(alloc);
    match entry {
        Some(Entry::Signal(s)) => {
            signals.push(s.number)?;
            Ok(signals)
        }
        _ => Ok(signals),
    }
}

fn listed(alloc: Global, names: &Names, xs: &[Identifier]) -> Result<Items<u32>, AllocError>
    ensures { IfOk result (λ l. l ≡ flat_map (listed_of names.now) xs.now) }
{
    let mut signals = Items::new(alloc);
    for x in xs {
        let more = listed_entry(alloc, &names.find(&x.name))?;
        signals.append(more)?;
    }
    Ok(signals)
}

fn combinational(
    alloc: Global,
    names: &Names,
    instance: u32,
    place: Place,
    sense: Sense,
    body: &Stmt,
) -> Result<Items<FlatDriver>, AllocError>
    ensures { IfOk result (λ l. l ≡ driver_of instance place (work.Comb sense (flat_stmt_of names.now body.now [])) ∷ []) }
{
    let body = flat_stmt(alloc, names, &[], body)?;
    let mut drivers = Items::new(alloc);
    drivers.push(driver(instance, place, Work::Comb(sense, body)))?;
    Ok(drivers)
}

/// The driver that a process without `posedge` is.
pub fn process_drivers(
    alloc: Global,
    names: &Names,
    instance: u32,
    place: Place,
    body: &Stmt,
    event: &Event,
) -> Result<Items<FlatDriver>, AllocError>
    ensures { IfOk result (λ l. l ≡ process_drivers_of names.now instance place body.now event.now) }
{
    match event {
        Event::All => {
            let drivers = combinational(alloc, names, instance, place, Sense::All, body)?;
            Ok(drivers)
        }
        Event::Posedge(_) => Ok(Items::new(alloc)),
        Event::Names(xs) => {
            let signals = listed(alloc, names, xs.as_slice())?;
            let drivers = combinational(
                alloc,
                names,
                instance,
                place,
                Sense::Listed(signals),
                body,
            )?;
            Ok(drivers)
        }
    }
}

/// The clocked process that a process with `posedge` is.
fn process_clocked(
    alloc: Global,
    names: &Names,
    instance: u32,
    place: Place,
    body: &Stmt,
    event: &Event,
) -> Result<Items<FlatClocked>, AllocError>
    ensures { IfOk result (λ l. l ≡ process_clocked_of names.now instance place body.now event.now) }
{
    let mut processes = Items::new(alloc);
    match event {
        Event::All => Ok(processes),
        Event::Posedge(x) => {
            let clock = signal_number(&names.find(&x.name));
            let body = flat_stmt(alloc, names, &[], body)?;
            processes.push(Clocked {
                instance,
                place,
                clock,
                clock_place: x.place,
                body,
            })?;
            Ok(processes)
        }
        Event::Names(_) => Ok(processes),
    }
}

fn item_clocked(
    alloc: Global,
    names: &Names,
    instance: u32,
    i: &Item,
) -> Result<Items<FlatClocked>, AllocError>
    ensures { IfOk result (λ l. l ≡ item_clocked_of names.now instance i.now) }
{
    match i {
        Item::Always(a) => {
            let processes = process_clocked(alloc, names, instance, a.place, &a.body, &a.event)?;
            Ok(processes)
        }
        _ => Ok(Items::new(alloc)),
    }
}

fn items_clocked(
    alloc: Global,
    names: &Names,
    instance: u32,
    items: &[Item],
) -> Result<Items<FlatClocked>, AllocError>
    ensures { IfOk result (λ l. l ≡ flat_map (item_clocked_of names.now instance) items.now) }
{
    let mut processes = Items::new(alloc);
    for i in items {
        let more = item_clocked(alloc, names, instance, i)?;
        processes.append(more)?;
    }
    Ok(processes)
}

/// The clocked processes of an instance of a module, in the order of the text.
pub fn module_clocked(
    alloc: Global,
    names: &Names,
    instance: u32,
    m: &Module,
) -> Result<Items<FlatClocked>, AllocError>
    ensures { IfOk result (λ l. l ≡ module_clocked_of names.now instance m.now) }
{
    let processes = items_clocked(alloc, names, instance, m.items.as_slice())?;
    Ok(processes)
}
