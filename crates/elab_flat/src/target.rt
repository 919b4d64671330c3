//! Targets.

ghost use Rattle.std.specs.Prelude.{◌≡◌, map, IfOk};
ghost use Rattle.elab_flat.specs.Flat.{flat_which as flat_which_of, flat_target as flat_target_of};

use crate::expression::{flat_expr, known};
use crate::number::signal_number;
use elab_names::names::Turn;
use elab_names::scope::Names;
use flat_tree::{FlatExpr, FlatTarget};
use sqlite_items::Items;
use std::alloc::{AllocError, Global};
use v_tree::{Selection as SourceSelection, Target as SourceTarget};
use v_views::{Selection, Target};

/// Which bits of a signal are written.
pub fn flat_which(
    alloc: Global,
    names: &Names,
    turns: &[Turn],
    s: &SourceSelection,
) -> Result<Selection<FlatExpr>, AllocError>
    ensures { IfOk result (λ f. f ≡ flat_which_of names.now turns.now s.now) }
{
    match s {
        SourceSelection::Index(i) => {
            let i = flat_expr(alloc, names, turns, i.get())?;
            Ok(Selection::Bit(i))
        }
        SourceSelection::Range(h, l) => {
            let h = known(alloc, names, turns, 4_294_967_295, h.get())?;
            let l = known(alloc, names, turns, 4_294_967_295, l.get())?;
            Ok(Selection::Part(h, l))
        }
        SourceSelection::Up(b, w) => {
            let b = flat_expr(alloc, names, turns, b.get())?;
            let w = known(alloc, names, turns, 64, w.get())?;
            Ok(Selection::Up(b, w as u8))
        }
        SourceSelection::Down(b, w) => {
            let b = flat_expr(alloc, names, turns, b.get())?;
            let w = known(alloc, names, turns, 64, w.get())?;
            Ok(Selection::Down(b, w as u8))
        }
    }
}

/// The flat form of a target.
#[cycle(parts)]
pub fn flat_target(
    alloc: Global,
    names: &Names,
    turns: &[Turn],
    t: &SourceTarget,
) -> Result<FlatTarget, AllocError>
    ensures { IfOk result (λ f. f ≡ flat_target_of names.now turns.now t.now) }
{
    match t {
        SourceTarget::Name(x) => {
            let number = signal_number(&names.find(&x.name));
            Ok(Target::Signal(x.place, number, Selection::Whole))
        }
        SourceTarget::Select(x, s) => {
            let number = signal_number(&names.find(&x.name));
            let s = flat_which(alloc, names, turns, s)?;
            Ok(Target::Signal(x.place, number, s))
        }
        SourceTarget::Concatenation(place, parts) => {
            let parts = target_parts(alloc, names, turns, parts.as_slice())?;
            Ok(Target::Concatenation(*place, parts))
        }
    }
}

#[cycle(parts)]
fn target_parts(
    alloc: Global,
    names: &Names,
    turns: &[Turn],
    parts: &[SourceTarget],
) -> Result<Items<FlatTarget>, AllocError>
    ensures { IfOk result (λ f. f ≡ map (flat_target_of names.now turns.now) parts.now) }
{
    let mut flat = Items::new(alloc);
    for t in parts {
        let f = flat_target(alloc, names, turns, t)?;
        flat.push(f)?;
    }
    Ok(flat)
}
