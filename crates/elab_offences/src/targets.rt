//! What is wrong with a target (IEEE 1364-2005, 6.1, 9.2 and A.8.5).

ghost use Rattle.std.specs.Prelude.{flat_map, OnOk};
ghost use Rattle.elab_offences.specs.Noted.{Notes};
ghost use Rattle.elab_offences.specs.Targets.{target_offences};

use crate::expressions::selection;
use crate::rules::{part_target, whole_target};
use elab_names::measure::choice_of;
use elab_names::names::Turn;
use elab_names::scope::Names;
use offence_order::First;
use std::alloc::{AllocError, Global};
use v_tree::Target;

/// What is wrong with a target whose names must be registers, or else nets.
#[cycle(parts)]
pub fn target(
    alloc: Global,
    first: &mut First,
    names: &Names,
    turns: &[Turn],
    register: bool,
    t: &Target,
) -> Result<(), AllocError>
    ensures { OnOk result (Notes first.old first.new (target_offences names.now turns.now register t.now)) }
{
    match t {
        Target::Name(x) => {
            whole_target(first, register, x.place, &names.find(&x.name));
            Ok(())
        }
        Target::Select(x, s) => {
            let c = choice_of(alloc, names, turns, s)?;
            part_target(first, register, x.place, &names.find(&x.name), c);
            selection(alloc, first, names, turns, false, s)?;
            Ok(())
        }
        Target::Concatenation(_, ts) => {
            targets(alloc, first, names, turns, register, ts.as_slice())?;
            Ok(())
        }
    }
}

#[cycle(parts)]
fn targets(
    alloc: Global,
    first: &mut First,
    names: &Names,
    turns: &[Turn],
    register: bool,
    ts: &[Target],
) -> Result<(), AllocError>
    ensures { OnOk result (Notes first.old first.new (flat_map (target_offences names.now turns.now register) ts.now)) }
{
    for t in ts {
        target(alloc, first, names, turns, register, t)?;
    }
    Ok(())
}
