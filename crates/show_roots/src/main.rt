//! Small lists of steps, taken through gates and clauses to an answer: whether some run breaks a property.
//! The rows that are printed were worked out by hand.
#![tactic(auto)]

// Whether a net can be 1.
mod answers;

// The lists.
mod lists;

// Terms and steps.
mod source;

use answers::{Answer, solve_root};
use anyhow::{Context, Result};
use bitblast::Blasted;
use cdcl::{Chooser, OrderChooser};
use clause_arena::Bits;
use lists::{LISTS, Name, make};
use std::alloc::Global;

/// The value of the bit, which is the first variable of each list.
fn bit_of(blasted: &Blasted, model: &Bits) -> Result<u8> {
    let wire = blasted.wires.get(0).context("no variable")?;
    let edge = wire.as_slice().first().copied().context("no bit")?;
    let value = model.get(edge.node as usize).copied().context("no value")?;
    Ok(u8::from(value != edge.negated))
}

/// The row of a list.
fn row<R: Print>(rt: &R, alloc: Global, name: Name, chooser: &mut Box<dyn Chooser>) -> Result<()> {
    let blasted = make(alloc, name)?.net(alloc)?;
    let title = name.title();
    match solve_root(alloc, &blasted, chooser)? {
        Answer::Broken(model) => {
            let bit = bit_of(&blasted, &model)?;
            println!(rt; "{title}: broken where the bit is {bit}")?;
        }
        Answer::Kept => println!(rt; "{title}: no run breaks it")?,
        Answer::Open => println!(rt; "{title}: not decided")?,
    }
    Ok(())
}

fn main(rt: HostRuntime) -> Result<()> {
    let alloc = rt.alloc();
    let mut chooser: Box<dyn Chooser> = Box::new(alloc, OrderChooser::new(alloc))?;
    for name in LISTS {
        row(&rt, alloc, name, &mut chooser)?;
    }
    Ok(())
}
