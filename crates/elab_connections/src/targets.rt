//! Expressions that outputs are connected to.

ghost use Rattle.std.specs.Prelude.{◌≡◌, map, IfOk};
ghost use Rattle.elab_connections.specs.Targets.{output_target as output_target_of};

use elab_flat::flat_which;
use elab_flat::number::signal_number;
use elab_names::scope::Names;
use flat_tree::FlatTarget;
use sqlite_items::Items;
use std::alloc::{AllocError, Global};
use v_starts::expr_start;
use v_tree::Expr;
use v_views::{Selection, Target};

/// The target that an expression is to which an output is connected.
#[cycle(parts)]
pub fn output_target(alloc: Global, names: &Names, e: &Expr) -> Result<FlatTarget, AllocError>
    ensures { IfOk result (λ t. t ≡ output_target_of names.now e.now) }
{
    match e {
        Expr::Name(x) => {
            let number = signal_number(&names.find(&x.name));
            Ok(Target::Signal(x.place, number, Selection::Whole))
        }
        Expr::Select(x, s) => {
            let number = signal_number(&names.find(&x.name));
            let s = flat_which(alloc, names, &[], s.get())?;
            Ok(Target::Signal(x.place, number, s))
        }
        Expr::Concatenation(place, parts) => {
            let parts = output_parts(alloc, names, parts.as_slice())?;
            Ok(Target::Concatenation(*place, parts))
        }
        _ => Ok(Target::Concatenation(expr_start(e), Items::new(alloc))),
    }
}

#[cycle(parts)]
fn output_parts(
    alloc: Global,
    names: &Names,
    parts: &[Expr],
) -> Result<Items<FlatTarget>, AllocError>
    ensures { IfOk result (λ l. l ≡ map (output_target_of names.now) parts.now) }
{
    let mut targets = Items::new(alloc);
    for e in parts {
        let t = output_target(alloc, names, e)?;
        targets.push(t)?;
    }
    Ok(targets)
}
