//! The command `hwcbmc` over the system's files and streams.
#![tactic(auto)]

use cdcl::{ActivityChooser, Chooser, Choosers, OrderChooser};
use hwcbmc_core::run;
use io_edge::{RealFiles, RealSink};
use std::alloc::AllocError;
use std::env;
use std::io::{self, ErrorKind};
use std::process::ExitCode;

/// The status where no memory is found before the command runs.
const STATUS_MEMORY: u8 = 9;

/// The status where a word isn't UTF-8.
const STATUS_NOT_TEXT: u8 = 65;

fn main(rt: HostRuntime) -> ExitCode {
    let status = match run_words(&rt) {
        Ok(status) => status,
        Err(error) if error.kind() == ErrorKind::OutOfMemory => STATUS_MEMORY,
        Err(_) => STATUS_NOT_TEXT,
    };
    ExitCode::from(status)
}

/// Runs the command on the words after the program's name. An error comes before it runs.
fn run_words(rt: &HostRuntime) -> io::Result<u8> {
    let alloc = rt.alloc();
    let mut words = Vec::new(alloc);
    for word in env::args(rt)?.skip(1) {
        words.push(word).map_err(AllocError::from)?;
    }
    let order: Box<dyn Chooser> = Box::new(alloc, OrderChooser::new(alloc))?;
    let activity: Box<dyn Chooser> = Box::new(alloc, ActivityChooser::new(alloc))?;
    let choosers = Choosers { order, activity };
    let mut files = RealFiles::new(rt.clone()?);
    let mut out = RealSink::new(rt.stdout());
    let mut err = RealSink::new(rt.stderr());
    let ran = run(
        alloc,
        words.as_slice(),
        &mut files,
        &mut out,
        &mut err,
        choosers,
    );
    Ok(ran.status)
}
