//! How a binding ends without links.

ghost use Rattle.std.specs.Prelude.{◌≡◌, Some, IfOk, IfErr};
ghost use Rattle.bind_struct.specs.Ends.{IsEndOf, IsMemory};
ghost use Rattle.bind_struct.specs.Paths.{named as named_in, paths_of as paths_in};

use crate::paths::{Paths, paths_of};
use joint_ir::FlatModule;
use src_text::{Kind, Lang, Place, Refusal};
use std::alloc::Global;

/// Why there are no links.
#[derive(Debug, Drop)]
pub enum BindEnd {
    /// What is wrong first, in the C file, of a kind from 90 to 94.
    Refused(Refusal),
    /// Memory is wanting.
    Memory,
}

/// A refusal at a place of the C file.
pub fn refused(place: Place, kind: Kind) -> BindEnd
    ensures { IsEndOf (Some (record { place = place; kind = kind })) result }
{
    BindEnd::Refused(Refusal {
        lang: Lang::C,
        place,
        kind,
    })
}

/// What the paths of a module name.
pub fn paths_named(alloc: Global, flat: &FlatModule) -> Result<Paths, BindEnd>
    ensures ok { IfOk result (λ p. named_in p ≡ paths_in flat.now) }
    ensures err { IfErr result IsMemory }
{
    match paths_of(alloc, flat) {
        Ok(paths) => Ok(paths),
        Err(_) => Err(BindEnd::Memory),
    }
}
