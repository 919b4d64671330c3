//! A whole C file, typed: its program with its properties, or what is wrong first.
//!
//! Knows nothing of how an external declaration is typed, nor of the module that the mirror stands for.
#![tactic(auto)]

mod ends;
mod file;

ghost use Rattle.std.specs.Prelude.{◌≡◌, [], IfOk, OnOk, IfErr};
ghost use Rattle.c_types.specs.Files.{c_offences, program_of};
ghost use Rattle.c_types.specs.Ends.{IsEnd, IsShort};

use crate::ends::judged;
use crate::file::run;
use c_tree::CTree;
pub use ends::TypeEnd;
use joint_ir::CProgram;
use std::alloc::Global;

/// The typed program of a file, or the first of what is wrong in it, by place and then by number.
pub fn typed(alloc: Global, tree: &CTree) -> Result<CProgram, TypeEnd>
    ensures typed { IfOk result (λ p. p ≡ program_of tree.now) }
    ensures none { OnOk result (c_offences tree.now ≡ []) }
    ensures short { IfOk result IsShort }
    ensures refused { IfErr result (IsEnd (c_offences tree.now)) }
{
    match run(alloc, tree) {
        Err(_) => Err(TypeEnd::Memory),
        Ok(typed) => judged(typed),
    }
}
