//! A C program, a flat Verilog module and what binds them, as one pair that may be run.
#![tactic(auto)]

ghost use Rattle.std.specs.Prelude.{◌≡◌, [], All, IfOk, OnOk, IfErr};
ghost use Rattle.joint_ir.specs.Views.{members_of};
ghost use Rattle.joint_ir.specs.WellFormed.{FitsProgram, FitsModule, IsWellFormed};
ghost use Rattle.bind_struct.specs.Binding.{binding_groups};
ghost use Rattle.bind_struct.specs.Ends.{IsEnd};
ghost use Rattle.bound_pairs.specs.Bound.{ArePathsApart, pair_of};

use bind_struct::{BindEnd, bind};
use joint_ir::{CProgram, FlatModule, Pair};
use std::alloc::Global;

/// The pair of a program and a module, with a link from each member of the mirror that is no struct to its signal. The pair
/// is well-formed, so it may be weighed and judged. It refuses what is wrong first between the two (kinds 90 to 94), at a
/// place of the C file; want of memory is the only other error.
pub fn bound_pair(alloc: Global, program: CProgram, flat: FlatModule) -> Result<Pair, BindEnd>
    requires program_fits { FitsProgram program }
    requires module_fits { FitsModule flat }
    requires apart { ArePathsApart (members_of program.mirror) }
    ensures pair { IfOk result (λ pair. pair ≡ pair_of program flat) }
    ensures well { IfOk result IsWellFormed }
    ensures clean { OnOk result (All (λ group. group ≡ []) (binding_groups program flat)) }
    ensures refused { IfErr result (IsEnd (binding_groups program flat)) }
{
    let binding = bind(alloc, &program, &flat)?;
    Ok(Pair {
        program,
        module: flat,
        binding,
    })
}
