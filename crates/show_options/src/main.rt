//! Prints worked words of the command, and the options that they give. What it has to print was worked out by hand.
#![tactic(auto)]

use command_options::{Decide, Options, UsageEnd, options};
use joint_ir::NamedLimit;
use std::alloc::{AllocError, Global};
use std::io;

/// Words, parted by one blank.
const ROWS: [&str; 46] = [
    "",
    "c1.c",
    "c1.c counter.v",
    "c1.c counter.v more.v",
    "c1.c ",
    "--bound 10000 c1.c counter.v",
    "--bound 10001 c1.c counter.v",
    "--bound 0 c1.c counter.v",
    "--bound -1 c1.c counter.v",
    "--bound=-1 c1.c counter.v",
    "--bound 1 --bound 2 c1.c counter.v",
    "--bound=002 -- c1.c counter.v",
    "--bound 00000000000000000002 c1.c counter.v",
    "--bound 000000000000000000002 c1.c counter.v",
    "--bound 18446744073709551616 c1.c counter.v",
    "--bound 0x2 c1.c counter.v",
    "--bound= c1.c counter.v",
    "--unwind 0 c1.c counter.v",
    "c1.c --unwind 1 counter.v",
    "--unwind 10000 c1.c counter.v",
    "--unwind 10001 c1.c counter.v",
    "--budget 0 c1.c counter.v",
    "--budget 2000000000 c1.c counter.v",
    "--budget 2000000001 c1.c counter.v",
    "--decide fast c1.c counter.v",
    "--decide order c1.c counter.v",
    "c1.c counter.v --decide=activity",
    "--check-bound c1.c counter.v",
    "--check-bound= c1.c counter.v",
    "--module top_1$x c1.c counter.v",
    "--module always c1.c counter.v",
    "--module 1top c1.c counter.v",
    "--module= c1.c counter.v",
    "--help",
    "--unwind 2 --unwindset main.unwind.1:3 c1.c counter.v",
    "--unwindset main.unwind.4294967295:00010000,f.recursion.1:1 c1.c counter.v",
    "--unwindset main.unwind.1:0 c1.c counter.v",
    "--unwindset main:3 c1.c counter.v",
    "--unwindset main.unwind.01:2 c1.c counter.v",
    "--unwindset main.unwind.1:2,main.unwind.1:3 c1.c counter.v",
    "--unwindset main.unwind.4294967296:2 c1.c counter.v",
    "--unwindset f.recursion.2:2 c1.c counter.v",
    "--unwindset main.unwind.1:10001 c1.c counter.v",
    "--unwindset main.unwind.1:2, c1.c counter.v",
    "--unwindset int.unwind.1:2 c1.c counter.v",
    "--unwindset= c1.c counter.v",
];

fn words(alloc: Global, row: &str) -> Result<Vec<String>, AllocError> {
    let mut words = Vec::new(alloc);
    if row.is_empty() {
        return Ok(words);
    }
    for word in row.split(' ') {
        words.push(String::from_str(alloc, word)?)?;
    }
    Ok(words)
}

fn decision(decide: Decide) -> &'static str {
    match decide {
        Decide::Order => "in order",
        Decide::Activity => "by activity",
    }
}

fn show_limits<R: Print>(rt: &R, limits: &[NamedLimit]) -> io::Result<()> {
    for limit in limits {
        let name = limit.name.text();
        print!(rt; ", {name} {}", limit.count)?;
    }
    Ok(())
}

/// Prints options in one line, those of the bounds first.
fn show<R: Print>(rt: &R, options: &Options) -> io::Result<()> {
    let bounds = &options.bounds;
    print!(rt; "{} edges, {} turns", bounds.frames, bounds.unwind)?;
    show_limits(rt, options.limits.as_slice())?;
    if bounds.check_bound {
        print!(rt; ", bound checked")?;
    }
    print!(rt; ", {} clauses {}", options.budget, decision(options.decide))?;
    if let Some(top) = &options.top {
        print!(rt; ", top {}", top.text())?;
    }
    println!(rt; ", {} and {}", options.c_file.text(), options.v_file.text())
}

fn main(rt: HostRuntime) -> io::Result<()> {
    for row in ROWS {
        print!(rt; "{row:?}: ")?;
        let words = words(rt.alloc(), row)?;
        match options(rt.alloc(), &words) {
            Ok(options) => show(&rt, &options)?,
            Err(UsageEnd::Usage) => println!(rt; "usage")?,
            Err(UsageEnd::Memory) => return Err(AllocError.into()),
        }
    }
    Ok(())
}
