//! Whether the root of a net can be 1.

use anyhow::{Result, bail};
use bitblast::Blasted;
use cdcl::{Chooser, Solved, has_vars_below, solve};
use clause_arena::{Bits, ClauseArena};
use gate_net::to_clauses;
use std::alloc::Global;

/// Far more clauses than the small lists need.
const BUDGET: u64 = 100_000;

/// What is known of the runs of a list.
#[derive(Drop)]
pub enum Answer {
    /// Some run breaks a property: a value for each node of the net.
    Broken(Bits),
    /// No run breaks one.
    Kept,
    /// The budget did not reach.
    Open,
}

/// The clauses of a net, satisfied exactly where its root is 1.
fn clauses_of(alloc: Global, blasted: &Blasted) -> Result<ClauseArena> {
    let nodes = blasted.net.count();
    if nodes > 10_000 || blasted.root.node >= nodes {
        bail!("no such net");
    }
    let mut arena = ClauseArena::new(alloc);
    to_clauses(&blasted.net, blasted.root, &mut arena)?;
    Ok(arena)
}

/// Whether some values of the inputs make the root 1.
pub fn solve_root(
    alloc: Global,
    blasted: &Blasted,
    chooser: &mut Box<dyn Chooser>,
) -> Result<Answer> {
    let mut arena = clauses_of(alloc, blasted)?;
    let nodes = blasted.net.count();
    if arena.count() > 100_000 || !has_vars_below(&arena, nodes) {
        bail!("no such clauses");
    }
    match solve(alloc, &mut arena, nodes, chooser, BUDGET)? {
        Solved::Model(model) => Ok(Answer::Broken(model)),
        Solved::Refuted(_) => Ok(Answer::Kept),
        Solved::Spent(_) => Ok(Answer::Open),
    }
}
