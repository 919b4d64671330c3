//! Names that are declared, and the values of parameters (IEEE 1364-2005, 4.10 and 12.7).

ghost use Rattle.std.specs.Prelude.{◌≡◌, OnOk};
ghost use Rattle.elab_offences.specs.Noted.{Notes};
ghost use Rattle.elab_declaration_offences.specs.Names.{again_at as again_at_of, again_offences, parameter_offences};

use elab_names::names::Entry;
use elab_names::scope::Names;
use elab_offences::constant_expression;
use offence_order::First;
use src_text::{Kind, Place};
use std::alloc::{AllocError, Global};
use v_tree::{Identifier, ParameterAssignment};

fn again_at(first: &mut First, place: Place, before: Option<Entry>)
    ensures { Notes first.old first.new (again_at_of place before) }
{
    match before {
        None => {}
        Some(_) => first.note(place, Kind::VRedeclared),
    }
}

/// A name that is declared, and may not have been before.
pub fn declared_again(first: &mut First, names: &Names, x: &Identifier)
    ensures { Notes first.old first.new (again_offences names.now x.now) }
{
    let before = names.find(&x.name);
    again_at(first, x.place, before);
}

/// A parameter: its name, then its own value, which is looked at also where an instance gives another.
pub fn parameter(
    alloc: Global,
    first: &mut First,
    names: &Names,
    p: &ParameterAssignment,
) -> Result<(), AllocError>
    ensures { OnOk result (Notes first.old first.new (parameter_offences names.now p.now)) }
{
    declared_again(first, names, &p.name);
    constant_expression(alloc, first, names, &[], &p.value)?;
    Ok(())
}
