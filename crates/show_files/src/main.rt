//! What comes of reading and writing devices of the system: an empty one, an endless one, a name below a file, and a full one.
#![tactic(auto)]

use anyhow::Result;
use io_edge::{ReadEnd, RealFiles, RealSink, read_all, write_all};
use std::fs::OpenOptions;

/// One line on what is read under a name.
fn say_read(rt: &HostRuntime, name: &str) -> Result<()> {
    let mut files = RealFiles::new(rt.clone()?);
    match read_all(rt.alloc(), &mut files, name) {
        Ok(bytes) => println!(rt; "{name}: {} bytes", bytes.len())?,
        Err(ReadEnd::TooLong) => println!(rt; "{name}: too long")?,
        Err(ReadEnd::Failed) => println!(rt; "{name}: a fault")?,
        Err(ReadEnd::Memory) => println!(rt; "{name}: no memory")?,
    }
    Ok(())
}

/// One line on whether four bytes are written under a name.
fn say_written(rt: &HostRuntime, name: &str) -> Result<()> {
    let file = OpenOptions::new().write(true).open(rt, name)?;
    if write_all(&mut RealSink::new(file), b"text").is_ok() {
        println!(rt; "{name}: written")?;
    } else {
        println!(rt; "{name}: a fault")?;
    }
    Ok(())
}

fn main(rt: HostRuntime) -> Result<()> {
    for name in ["/dev/null", "/dev/zero", "/dev/null/none"] {
        say_read(&rt, name)?;
    }
    for name in ["/dev/full", "/dev/null"] {
        say_written(&rt, name)?;
    }
    Ok(())
}
