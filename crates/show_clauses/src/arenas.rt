//! Clauses that are stored, reordered, killed and compacted.

use anyhow::Result;
use clause_arena::{ClauseArena, ClauseId, Lit, is_each_once};
use std::alloc::Global;

const A: Lit = Lit {
    var: 0,
    negative: false,
};

const B: Lit = Lit {
    var: 1,
    negative: true,
};

const C: Lit = Lit {
    var: 2,
    negative: false,
};

/// A call of the arena.
#[derive(Clone, Copy)]
enum Step {
    Store(usize),
    StoreReserved(usize),
    Swap(u32, u32, u32),
    Kill(u32),
    Compact,
}

/// The clause that a step names by a number of literals.
fn clause_of(len: usize) -> &'static [Lit] {
    match len {
        0 => &[],
        1 => &[C],
        2 => &[A, B],
        _ => &[A, B, C],
    }
}

fn store(arena: &mut ClauseArena, lits: &[Lit], reserved: bool) -> Result<()> {
    if arena.count() == u32::MAX || lits.len() > 3 || !is_each_once(lits) {
        return Ok(());
    }
    if reserved {
        arena.reserve(1, 3)?;
        arena.push_reserved(lits);
    } else {
        arena.push(lits)?;
    }
    Ok(())
}

fn exchange(arena: &mut ClauseArena, id: ClauseId, i: u32, j: u32) {
    if arena.is_live(id) {
        let len = arena.lits(id).len();
        if (i as usize) < len && (j as usize) < len {
            arena.swap(id, i, j);
        }
    }
}

fn kill(arena: &mut ClauseArena, id: ClauseId) {
    if id.0 < arena.count() {
        arena.set_dead(id);
    }
}

fn take(arena: &mut ClauseArena, step: Step) -> Result<()> {
    match step {
        Step::Store(len) => store(arena, clause_of(len), false)?,
        Step::StoreReserved(len) => store(arena, clause_of(len), true)?,
        Step::Swap(id, i, j) => exchange(arena, ClauseId(id), i, j),
        Step::Kill(id) => kill(arena, ClauseId(id)),
        Step::Compact => arena.compact(),
    }
    Ok(())
}

/// The literal as the DIMACS format writes it: variables from 1 on, negated ones below 0.
fn number_of(lit: Lit) -> i64 {
    let number = i64::from(lit.var) + 1;
    if lit.negative { -number } else { number }
}

fn row<R: Print>(rt: &R, arena: &ClauseArena, id: ClauseId) -> Result<()> {
    print!(rt; "clause {}:", id.0)?;
    if arena.is_live(id) {
        for &lit in arena.lits(id) {
            print!(rt; " {}", number_of(lit))?;
        }
    } else {
        print!(rt; " dead")?;
    }
    println!(rt;)?;
    Ok(())
}

/// A row for each clause, after all steps.
pub fn rows<R: Print>(rt: &R, alloc: Global) -> Result<()> {
    let steps = [
        Step::Store(2),
        Step::StoreReserved(3),
        Step::Store(0),
        Step::Store(3),
        Step::Swap(1, 0, 2),
        Step::Kill(0),
        Step::Compact,
        Step::StoreReserved(1),
        Step::Swap(3, 1, 2),
        Step::Kill(2),
        Step::Compact,
    ];
    let mut arena = ClauseArena::new(alloc);
    for step in steps {
        take(&mut arena, step)?;
    }
    for id in 0..arena.count() {
        row(rt, &arena, ClauseId(id))?;
    }
    Ok(())
}
