//! How typing ends.

ghost use Rattle.std.specs.Prelude.{◌≡◌, true};
ghost use Rattle.c_types.specs.Ends.{IsJudged, IsShort};

use crate::file::Typed;
use joint_ir::CProgram;
use src_text::{Lang, Refusal};

/// Why a file has no typed program.
#[derive(Debug, Drop)]
pub enum TypeEnd {
    /// What is wrong first in the C file, of a kind from 10 to 28.
    Refused(Refusal),
    /// Memory is wanting.
    Memory,
}

/// The number of places that a number of 32 bits can name.
const PLACES: usize = 1 << 32;

/// Whether the places in all lists of a program have numbers.
fn is_short(program: &CProgram) -> bool
    ensures { result ≡ true → IsShort program.now }
{
    program.functions.len() < PLACES
        && program.globals.len() < PLACES
        && program.locals.len() < PLACES
        && program.props.len() < PLACES
}

/// What was made, where nothing is wrong. A program with more places than there are numbers wants memory.
pub fn judged(typed: Typed) -> Result<CProgram, TypeEnd>
    ensures { IsJudged typed result }
{
    let Typed { first, program } = typed;
    match first {
        None if is_short(&program) => Ok(program),
        None => Err(TypeEnd::Memory),
        Some(o) => Err(TypeEnd::Refused(Refusal {
            lang: Lang::C,
            place: o.place,
            kind: o.kind,
        })),
    }
}
