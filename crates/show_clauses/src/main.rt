//! An arena after a walk over all of its calls; how many models the clauses of small nets have; and the nodes of gates that need
//! no node of their own.
#![tactic(auto)]

mod arenas;
mod nets;

use anyhow::Result;

fn main(rt: HostRuntime) -> Result<()> {
    arenas::rows(&rt, rt.alloc())?;
    nets::rows(&rt, rt.alloc())
}
