//! A C program beside a Verilog module that has no signals.
#![tactic(auto)]

ghost use Rattle.std.specs.Prelude.{◌≡◌, IfOk};
ghost use Rattle.joint_ir.specs.WellFormed.{FitsProgram, IsWellFormed};
ghost use Rattle.bare_pairs.specs.Bare.{bare, pair_of};

use joint_ir::{Binding, CProgram, FlatModule, Pair};
use sqlite_items::Items;
use src_text::Name;
use std::alloc::{AllocError, Global};
use word_eqs::Terms;

/// A module of this name without ports, signals and items (IEEE 1364-2005 12.1). Want of memory is the only error.
pub fn bare_module(alloc: Global, top: &Name) -> Result<FlatModule, AllocError>
    ensures { IfOk result (λ m. m ≡ bare top.now) }
{
    Ok(FlatModule {
        top: top.clone()?,
        instances: Items::new(alloc),
        signals: Items::new(alloc),
        firsts: Items::new(alloc),
        settle_terms: Terms::new(alloc),
        settled: Items::new(alloc),
        edge_terms: Terms::new(alloc),
        next: Items::new(alloc),
        settle_weight: 0,
        edge_weight: 0,
        settle_sites: Items::new(alloc),
        edge_sites: Items::new(alloc),
    })
}

/// A program that mirrors nothing, and a module of this name that has nothing. The pair is well-formed, so it may be judged.
/// Want of memory is the only error.
pub fn bare_pair(alloc: Global, program: CProgram, top: &Name) -> Result<Pair, AllocError>
    requires fits { FitsProgram program }
    requires plain { program.mirror ≡ None }
    ensures pair { IfOk result (λ pair. pair ≡ pair_of program top.now) }
    ensures well { IfOk result IsWellFormed }
{
    let module = bare_module(alloc, top)?;
    let binding = Binding {
        links: Items::new(alloc),
    };
    Ok(Pair {
        program,
        module,
        binding,
    })
}
