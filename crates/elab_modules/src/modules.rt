//! The modules of a text by their names (IEEE 1364-2005, 12.1).

ghost use Rattle.std.specs.Prelude.{◌≡◌, IfOk, OnOk};
ghost use Rattle.offence_order.specs.Order.{first_of};
ghost use Rattle.elab_modules.specs.Modules.{with_module, numbers_of, twice_at as twice_at_of, twice_offences};

use name_table::Table;
use offence_order::First;
use src_text::{Kind, Place};
use std::alloc::{AllocError, Global};
use v_tree::Module;

fn twice_at(first: &mut First, place: Place, before: Option<usize>)
    ensures { first.new.found ≡ first_of first.old.found (twice_at_of place before) }
{
    match before {
        None => {}
        Some(_) => first.note(place, Kind::VModuleTwice),
    }
}

fn add(numbers: &mut Table<usize>, n: usize, m: &Module) -> Result<(), AllocError>
    ensures { OnOk result (numbers.new ≡ with_module numbers.old n m.now) }
{
    match numbers.find(&m.name.name) {
        Some(_) => {}
        None => numbers.put(&m.name.name, n)?,
    }
    Ok(())
}

/// The modules of a text by their names, of two that share one the first, and the first that is declared twice.
pub fn numbered(
    alloc: Global,
    first: &mut First,
    modules: &[Module],
) -> Result<Table<usize>, AllocError>
    ensures numbers { IfOk result (λ t. t ≡ numbers_of modules.now) }
    ensures twice { OnOk result (first.new.found ≡ first_of first.old.found (twice_offences modules.now)) }
{
    let mut numbers = Table::new(alloc);
    let mut n = 0;
    for m in modules {
        let before = numbers.find(&m.name.name);
        twice_at(first, m.name.place, before);
        add(&mut numbers, n, m)?;
        n += 1;
    }
    Ok(numbers)
}
