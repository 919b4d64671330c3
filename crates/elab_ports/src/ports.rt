//! The ports of a module, in order and by name.

ghost use Rattle.std.specs.Prelude.{◌≡◌, [], ◌∷◌, map, flat_map, OnOk, IfOk};
ghost use Rattle.std.specs.Option.{option_map};
ghost use Rattle.name_table.specs.Tables.{find_in};
ghost use Rattle.elab_ports.specs.Ports.{kind_of, listed_by, listed_port, declared_port, declared_ports, header_ports, module_ports as module_ports_of};
ghost use Rattle.elab_ports.specs.Making.{IsPorts, Adds};

use crate::directed::{Directed, directed_in, keep_first};
use name_table::Table;
use sqlite_items::Items;
use src_text::Name;
use std::alloc::{AllocError, Global};
use v_tree::{Declarator, DirectionKind, Header, Identifier, Item, Module, Port};

/// The ports of a module: which way each goes, in the order of the header, and their places in it by name. A port that no
/// direction item declares has no direction.
#[derive(Drop)]
pub struct Ports {
    pub directions: Items<Option<DirectionKind>>,
    pub places: Table<usize>,
}

fn add_port(
    ports: &mut Ports,
    name: &Name,
    direction: Option<DirectionKind>,
) -> Result<(), AllocError>
    ensures { OnOk result (Adds ports.old ports.new ((name.now, direction) ∷ [])) }
{
    keep_first(&mut ports.places, name, ports.directions.len())?;
    ports.directions.push(direction)?;
    Ok(())
}

fn kind_in(directed: Option<Directed>) -> Option<DirectionKind>
    ensures { result ≡ option_map kind_of directed }
{
    match directed {
        None => None,
        Some(d) => Some(d.kind),
    }
}

fn add_listed(
    ports: &mut Ports,
    directed: &Table<Directed>,
    xs: &[Identifier],
) -> Result<(), AllocError>
    ensures { OnOk result (Adds ports.old ports.new (map (listed_by (find_in directed.now)) xs.now)) }
{
    for x in xs {
        let kind = kind_in(directed.find(&x.name));
        add_port(ports, &x.name, kind)?;
    }
    Ok(())
}

fn add_names(
    alloc: Global,
    ports: &mut Ports,
    items: &[Item],
    xs: &[Identifier],
) -> Result<(), AllocError>
    ensures { OnOk result (Adds ports.old ports.new (map (listed_port items.now) xs.now)) }
{
    let directed = directed_in(alloc, items)?;
    add_listed(ports, &directed, xs)
}

fn add_declared(ports: &mut Ports, p: &Port) -> Result<(), AllocError>
    ensures { OnOk result (Adds ports.old ports.new (declared_ports p.now)) }
{
    for d in p.names.as_slice() {
        add_port(ports, &d.name.name, Some(p.direction.kind))?;
    }
    Ok(())
}

fn add_all(ports: &mut Ports, ps: &[Port]) -> Result<(), AllocError>
    ensures { OnOk result (Adds ports.old ports.new (flat_map declared_ports ps.now)) }
{
    for p in ps {
        add_declared(ports, p)?;
    }
    Ok(())
}

fn add_header(
    alloc: Global,
    ports: &mut Ports,
    items: &[Item],
    header: &Header,
) -> Result<(), AllocError>
    ensures { OnOk result (Adds ports.old ports.new (header_ports items.now header.now)) }
{
    match header {
        Header::Absent => Ok(()),
        Header::Empty => Ok(()),
        Header::Names(xs) => add_names(alloc, ports, items, xs.as_slice()),
        Header::Ports(ps) => add_all(ports, ps.as_slice()),
    }
}

/// The ports of a module.
pub fn module_ports(alloc: Global, m: &Module) -> Result<Ports, AllocError>
    ensures { IfOk result (λ p. IsPorts (module_ports_of m.now) p) }
{
    let mut ports = Ports {
        directions: Items::new(alloc),
        places: Table::new(alloc),
    };
    add_header(alloc, &mut ports, m.items.as_slice(), &m.header)?;
    Ok(ports)
}
