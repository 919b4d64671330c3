//! The top module (IEEE 1364-2005, 12.1.1).

ghost use Rattle.std.specs.Prelude.{◌≡◌, ◌++◌, [], IfOk, OnOk};
ghost use Rattle.elab_modules.specs.Modules.{numbers_of};
ghost use Rattle.elab_modules.specs.Tops.{with_instances, with_item, with_items, with_modules, unused_at, unused_from, candidates as candidates_of, only_one as only_one_of, top_of as top_of_of};
ghost use Rattle.name_table.specs.Tables.{find_in};

use name_table::Table;
use sqlite_items::Items;
use src_text::Name;
use std::alloc::{AllocError, Global};
use v_tree::{Item, Module, ModuleInstantiation};

fn instances(used: &mut Table<bool>, own: &Name, d: &ModuleInstantiation) -> Result<(), AllocError>
    ensures { OnOk result (used.new ≡ with_instances own.now d.now used.old) }
{
    if d.module.name.text() == own.text() {
        return Ok(());
    }
    used.put(&d.module.name, true)?;
    Ok(())
}

fn item(used: &mut Table<bool>, own: &Name, i: &Item) -> Result<(), AllocError>
    ensures { OnOk result (used.new ≡ with_item own.now i.now used.old) }
{
    match i {
        Item::Instances(d) => instances(used, own, d)?,
        Item::Port(_)
        | Item::Net(_)
        | Item::Reg(_)
        | Item::Integer(_)
        | Item::Parameter(_)
        | Item::LocalParameter(_)
        | Item::Assign(_)
        | Item::Always(_)
        | Item::Initial(_, _) => {}
    }
    Ok(())
}

fn items(used: &mut Table<bool>, own: &Name, list: &[Item]) -> Result<(), AllocError>
    ensures { OnOk result (used.new ≡ with_items own.now list.now used.old) }
{
    for i in list {
        item(used, own, i)?;
    }
    Ok(())
}

fn used_by(alloc: Global, modules: &[Module]) -> Result<Table<bool>, AllocError>
    ensures { IfOk result (λ used. used ≡ with_modules modules.now []) }
{
    let mut used = Table::new(alloc);
    for m in modules {
        items(&mut used, &m.name.name, m.items.as_slice())?;
    }
    Ok(used)
}

fn unused_one(
    unused: &mut Items<usize>,
    used: &Table<bool>,
    n: usize,
    m: &Module,
) -> Result<(), AllocError>
    ensures { OnOk result (unused.new ≡ unused.old ++ unused_at (find_in used.now m.now.name.name) n []) }
{
    match used.find(&m.name.name) {
        Some(_) => {}
        None => unused.push(n)?,
    }
    Ok(())
}

fn unused_of(
    alloc: Global,
    used: &Table<bool>,
    modules: &[Module],
) -> Result<Items<usize>, AllocError>
    ensures { IfOk result (λ l. l ≡ unused_from used.now 0 modules.now) }
{
    let mut unused = Items::new(alloc);
    let mut n = 0;
    for m in modules {
        unused_one(&mut unused, used, n, m)?;
        n += 1;
    }
    Ok(unused)
}

fn candidates(alloc: Global, modules: &[Module]) -> Result<Items<usize>, AllocError>
    ensures { IfOk result (λ l. l ≡ candidates_of modules.now) }
{
    let used = used_by(alloc, modules)?;
    let unused = unused_of(alloc, &used, modules)?;
    Ok(unused)
}

fn only_one(numbers: &[usize]) -> Option<usize>
    ensures { result ≡ only_one_of numbers.now }
{
    match numbers {
        [n] => Some(*n),
        _ => None,
    }
}

fn single(alloc: Global, modules: &[Module]) -> Result<Option<usize>, AllocError>
    ensures { IfOk result (λ top. top ≡ only_one_of (candidates_of modules.now)) }
{
    let unused = candidates(alloc, modules)?;
    Ok(only_one(unused.as_slice()))
}

/// The number of the top module: that of the name, or else of the only module that no other one instantiates.
pub fn top_of(
    alloc: Global,
    numbers: &Table<usize>,
    modules: &[Module],
    name: &Option<Name>,
) -> Result<Option<usize>, AllocError>
    requires { numbers.now ≡ numbers_of modules.now }
    ensures { IfOk result (λ top. top ≡ top_of_of modules.now name.now) }
{
    match name {
        Some(name) => Ok(numbers.find(name)),
        None => {
            let top = single(alloc, modules)?;
            Ok(top)
        }
    }
}
