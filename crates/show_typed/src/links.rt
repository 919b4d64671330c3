//! The links of typed programs' mirrors to a module that is made by hand:
//!
//! ```verilog
//! module top(input clk, input [7:0] in, input sel, output [32:0] out);
//!     reg [15:0] count; reg [7:0] mem [0:3];
//!     part sub(...);  // input [7:0] in; reg [3:0] state; reg [15:0] data [0:1]; leaf low(...)
//! endmodule       // leaf: wire bit
//! ```

use bind_struct::{BindEnd, bind};
use joint_ir::{CProgram, FlatModule, LinkList, Member, Role, Signal, SignalList};
use sqlite_items::Items;
use src_text::{Name, Refusal};
use std::alloc::{AllocError, Global};
use std::io;
use word_eqs::Terms;

/// The signals in flat order: path, bits, words (0 for no memory) and role.
const SIGNALS: [(&str, u8, u32, Role); 10] = [
    ("top.clk", 1, 0, Role::Clock),
    ("top.in", 8, 0, Role::Input),
    ("top.sel", 1, 0, Role::Input),
    ("top.out", 33, 0, Role::Wire),
    ("top.count", 16, 0, Role::Register),
    ("top.mem", 8, 4, Role::Register),
    ("top.sub.in", 8, 0, Role::Wire),
    ("top.sub.state", 4, 0, Role::Register),
    ("top.sub.data", 16, 2, Role::Register),
    ("top.sub.low.bit", 1, 0, Role::Wire),
];

/// The instances below the top, in flat order.
const INSTANCES: [&str; 2] = ["top.sub", "top.sub.low"];

fn signals(alloc: Global) -> Result<SignalList, AllocError> {
    let mut signals = SignalList::new(alloc);
    for (path, bits, words, role) in SIGNALS {
        signals.push(Signal {
            path: Name::new(alloc, path)?,
            bits,
            signed: false,
            low: 0,
            words,
            role,
        })?;
    }
    Ok(signals)
}

fn instances(alloc: Global) -> Result<Items<Name>, AllocError> {
    let mut instances = Items::new(alloc);
    for path in INSTANCES {
        instances.push(Name::new(alloc, path)?)?;
    }
    Ok(instances)
}

/// The module, without terms and first values, which `bind` doesn't look at.
fn flat_module(alloc: Global) -> Result<FlatModule, AllocError> {
    Ok(FlatModule {
        top: Name::new(alloc, "top")?,
        instances: instances(alloc)?,
        signals: signals(alloc)?,
        firsts: Items::new(alloc),
        settle_terms: Terms::new(alloc),
        settled: Items::new(alloc),
        edge_terms: Terms::new(alloc),
        next: Items::new(alloc),
        settle_weight: 0,
        edge_weight: 0,
        settle_sites: Items::new(alloc),
        edge_sites: Items::new(alloc),
    })
}

fn print_links<R: Print>(
    rt: &R,
    members: &[Member],
    flat: &FlatModule,
    links: &LinkList,
) -> io::Result<()> {
    for link in links.as_slice() {
        let member = members.get(link.member as usize);
        let signal = flat.signals.as_slice().get(link.signal as usize);
        if let (Some(member), Some(signal)) = (member, signal) {
            println!(rt;
                "  member{} {} is signal{} {}",
                link.member,
                member.path.text(),
                link.signal,
                signal.path.text()
            )?;
        }
    }
    println!(rt; "  {} links", links.as_slice().len())
}

/// The links of a program's mirror, or what is wrong first between it and the module.
pub fn print_mirror<R: Print + AllocGlobal>(rt: &R, program: &CProgram) -> io::Result<()> {
    let flat = flat_module(rt.alloc())?;
    let members = match &program.mirror {
        Some(mirror) => mirror.members.as_slice(),
        None => &[],
    };
    match bind(rt.alloc(), program, &flat) {
        Ok(binding) => print_links(rt, members, &flat, &binding.links),
        Err(BindEnd::Refused(Refusal { place, kind, .. })) => {
            println!(rt; "  {}:{} {}", place.line, place.column, kind.text())
        }
        Err(BindEnd::Memory) => Err(AllocError.into()),
    }
}
