//! The names that direction items declare.

ghost use Rattle.std.specs.Prelude.{◌≡◌, [], ◌∷◌, ℕ, List, map, OnOk, IfOk};
ghost use Rattle.name_table.specs.Tables.{find_in};
ghost use Rattle.elab_ports.specs.Keeping.{Keeps};
ghost use Rattle.elab_ports.specs.Ports.{item_directed, directed_name, directed_in as directed_in_of};

use name_table::Table;
use src_text::{Name, Place};
use std::alloc::{AllocError, Global};
use v_tree::{DirectionKind, Identifier, Item};

/// A name in a direction item: its place, and which way the port goes.
#[derive(Clone, Copy, Debug, PartialEq, Eq)]
pub struct Directed {
    pub place: Place,
    pub kind: DirectionKind,
}

/// A name stands for this, unless it stands for something already.
pub fn keep_first<V: Copy + Drop>(
    table: &mut Table<V>,
    name: &Name,
    value: V,
) -> Result<(), AllocError>
    ensures { OnOk result (Keeps table.old table.new ((name.now, value) ∷ [])) }
{
    match table.find(name) {
        Some(_) => Ok(()),
        None => {
            table.put(name, value)?;
            Ok(())
        }
    }
}

fn keep_names(
    table: &mut Table<Directed>,
    kind: DirectionKind,
    xs: &[Identifier],
) -> Result<(), AllocError>
    ensures { OnOk result (Keeps table.old table.new (map (directed_name kind) xs.now)) }
{
    for x in xs {
        keep_first(
            table,
            &x.name,
            Directed {
                place: x.place,
                kind,
            },
        )?;
    }
    Ok(())
}

fn keep_item(table: &mut Table<Directed>, i: &Item) -> Result<(), AllocError>
    ensures { OnOk result (Keeps table.old table.new (item_directed i.now)) }
{
    match i {
        Item::Port(d) => keep_names(table, d.direction.kind, d.names.as_slice()),
        _ => Ok(()),
    }
}

/// The names that the direction items of a module declare, of two of one name the first.
pub fn directed_in(alloc: Global, items: &[Item]) -> Result<Table<Directed>, AllocError>
    ensures { IfOk result (λ t. (name : List ℕ) → find_in t name ≡ find_in (directed_in_of items.now) name) }
{
    let mut table = Table::new(alloc);
    for i in items {
        keep_item(&mut table, i)?;
    }
    Ok(table)
}
