//! The trusted edge: the files and streams of the system. They tell no content. Every error of the
//! system counts as a fault.

ghost use Rattle.std.specs.Prelude.{◌≡◌, None};

use crate::files::{Failed, Files};
use crate::read_faults::ReadFaults;
use crate::sink::Sink;
use src_text::Name;
use std::io::{Read, Write};
use std::{fs, rt};

/// The system's files.
#[derive(Drop)]
pub struct RealFiles<R: rt::Files> {
    runtime: R,
    file: Option<R::File>,
    started: Option<Name>,
    taken: u64,
    faults: ReadFaults,
}

impl<R: rt::Files + Drop> RealFiles<R> {
    /// No file is started yet.
    pub fn new(runtime: R) -> RealFiles<R>
        ensures none_started { result.started ≡ None }
        ensures no_fault { result.faults.total ≡ 0 }
    {
        RealFiles {
            runtime,
            file: None,
            started: None,
            taken: 0,
            faults: ReadFaults::new(),
        }
    }
}

impl<R: rt::Files + Drop> Files for RealFiles<R> {
    ghost told = { λ _ _. None };

    ghost reading = { λ f. record { started = f.started; taken = f.taken; faults_since_start = f.faults.since_start; faults = f.faults.total } };

    fn start(&mut self, name: Name) -> Result<(), Failed> {
        let opened = fs::open(&self.runtime, name.text());
        self.started = Some(name);
        self.taken = 0;
        self.faults.since_start = 0;
        self.file = opened.ok();
        if self.file.is_none() {
            return Err(self.faults.count());
        }
        Ok(())
    }

    fn read(&mut self, buf: &mut [u8]) -> Result<usize, Failed> {
        let Some(file) = &mut self.file else {
            return Err(self.faults.count());
        };
        let Ok(count) = file.read(buf) else {
            return Err(self.faults.count());
        };
        self.taken += count as u64;
        Ok(count)
    }
}

/// A stream of the system. Each piece is flushed before it counts as written.
#[derive(Drop)]
pub struct RealSink<W: Write> {
    stream: W,
    faults: u64,
}

impl<W: Write + Drop> RealSink<W> {
    /// A sink over a stream of the system.
    pub fn new(stream: W) -> RealSink<W>
        ensures no_fault { result.faults ≡ 0 }
    {
        RealSink { stream, faults: 0 }
    }
}

impl<W: Write + Drop> Sink for RealSink<W> {
    ghost stream = { λ s. record { written = None; faults = s.faults } };

    fn put(&mut self, bytes: &[u8]) -> Result<usize, Failed> {
        let count = self.stream.write(bytes).unwrap_or(0);
        if count == 0 || self.stream.flush().is_err() {
            self.faults = self.faults.saturating_add(1);
            return Err(Failed);
        }
        Ok(count)
    }
}
