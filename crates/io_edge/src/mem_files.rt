//! Files in memory, whose calls fail where they are told to.

ghost use Rattle.std.specs.Prelude.{◌≡◌, ℕ, ◌+◌, ◌-◌, ◌^◌, ◌<◌, ◌≤◌, ◌↔◌, List, [], ◌∷◌, ◌++◌, true, false, length, take, min, None, Some, IfOk, IsOk, OnOk, OnErr, IsSome, IfSome};
ghost use Rattle.std.specs.Option.{option_copied};
ghost use Rattle.io_edge.specs.Calls.{fails_next};
ghost use Rattle.io_edge.specs.Faults.{Rose};
ghost use Rattle.io_edge.specs.Files.{started_file, IsNextPiece};
ghost use Rattle.io_edge.specs.MemFiles.{text_under, IsPut, open_text};

use crate::calls::Calls;
use crate::files::{Failed, Files};
use crate::piece::Piece;
use crate::read_faults::ReadFaults;
use src_text::Name;
use std::alloc::{AllocError, Global};

/// A text under a name.
#[derive(Debug, Drop)]
pub struct MemFile {
    name: Name,
    text: Vec<u8>,
}

/// Files in memory. They tell their bytes.
#[derive(Debug, Drop)]
pub struct MemFiles {
    /// The newest first.
    files: Vec<MemFile>,
    piece: Piece,
    calls: Calls,
    started: Option<Name>,
    /// Whether the last `start` found its file.
    is_open: bool,
    taken: usize,
    faults: ReadFaults,
}

/// The text that was added last under the name.
fn find<'a>(files: &'a [MemFile], name: &str) -> Option<&'a [u8]>
    ensures { option_copied result ≡ text_under files.now name.now }
{
    for file in files {
        if file.name.text() == name {
            return Some(file.text.as_slice());
        }
    }
    None
}

impl MemFiles {
    /// No files yet. Calls move at most `piece` bytes.
    pub fn new(alloc: Global, piece: usize) -> MemFiles
        requires { 1 ≤ piece }
        ensures none { (name : List ℕ) → text_under result.files.items name ≡ None }
        ensures none_started { result.started ≡ None }
        ensures piece { result.piece.bytes ≡ piece }
        ensures calls { (result.calls.made ≡ 0) × (result.calls.failing.items ≡ []) }
    {
        MemFiles {
            files: Vec::new(alloc),
            piece: Piece { bytes: piece },
            calls: Calls::new(alloc),
            started: None,
            is_open: false,
            taken: 0,
            faults: ReadFaults::new(),
        }
    }

    /// Puts a text under a name, in the place of an older one.
    pub fn add(&mut self, name: &str, text: &[u8]) -> Result<(), AllocError>
        ensures put { OnOk result (IsPut self.old.files.items self.new.files.items name.now text.now) }
        ensures err { OnErr result (self.new.files.items ≡ self.old.files.items) }
        ensures same { self.new ≡ record self.old { files = self.new.files } }
    {
        let alloc = *self.files.allocator();
        let file = MemFile {
            name: Name::new(alloc, name)?,
            text: Vec::from_slice(alloc, text)?,
        };
        self.files.insert(0, file)?;
        Ok(())
    }

    /// Lets the call of `start` or `read` of that number fail. They are numbered from 1, together.
    pub fn fail_at(&mut self, call: u64) -> Result<(), AllocError>
        ensures listed { OnOk result (self.new.calls.failing.items ≡ self.old.calls.failing.items ++ call ∷ []) }
        ensures made { self.new.calls.made ≡ self.old.calls.made }
        ensures files { self.new.files ≡ self.old.files }
        ensures same { self.new ≡ record self.old { calls = self.new.calls } }
    {
        self.calls.fail_at(call)
    }
}

impl Files for MemFiles {
    ghost told = { λ m name. text_under m.files.items name };

    ghost reading = { λ m. record { started = m.started; taken = m.taken; faults_since_start = m.faults.since_start; faults = m.faults.total } };

    fn start(&mut self, name: Name) -> Result<(), Failed>
        // It fails exactly where the call is listed or the name is missing.
        ensures exact { IsOk result ↔ ((fails_next self.old.calls ≡ false) × IsSome (text_under self.old.files.items name)) }

        ensures started { self.new.started ≡ Some name }
        ensures taken { self.new.taken ≡ 0 }
        ensures told { self.new.files ≡ self.old.files }
        ensures same_count { OnOk result (self.new.faults.total ≡ self.old.faults.total) }
        ensures no_fault { OnOk result (self.new.faults.since_start ≡ 0) }
        ensures rose { OnErr result (Rose self.old.faults.total self.new.faults.total) }
        ensures fault { OnErr result (0 < self.new.faults.since_start) }
    {
        let is_failing = self.calls.is_failing();
        self.is_open = !is_failing && find(&self.files, name.text()).is_some();
        self.started = Some(name);
        self.taken = 0;
        self.faults.since_start = 0;
        if !self.is_open {
            return Err(self.faults.count());
        }
        Ok(())
    }

    fn read(&mut self, buf: &mut [u8]) -> Result<usize, Failed>
        requires room { 0 < length buf.old }
        requires not_many { self.old.taken < 2 ^ 63 }

        // It fails exactly where the call is listed or no file is started.
        ensures exact { IsOk result ↔ ((fails_next self.old.calls ≡ false) × IsSome (open_text self.old)) }

        // It moves as many bytes as the piece, the buffer and what is left allow.
        ensures moved { IfOk result (λ n. IfSome (open_text self.old) (λ text.
            n ≡ min (min self.old.piece.bytes (length buf.old)) (length text - self.old.taken))) }

        ensures within { IfOk result (λ n. n ≤ length buf.new) }
        ensures taken { IfOk result (λ n. self.new.taken ≡ self.old.taken + n) }
        ensures bytes { IfOk result (λ n. IfSome (started_file (text_under self.old.files.items) self.old.started) (λ bytes.
            IsNextPiece bytes self.old.taken n (take n buf.new))) }
        ensures started { self.new.started ≡ self.old.started }
        ensures told { self.new.files ≡ self.old.files }
        ensures same_count { OnOk result (self.new.faults.total ≡ self.old.faults.total) }
        ensures same_since { OnOk result (self.new.faults.since_start ≡ self.old.faults.since_start) }
        ensures rose { OnErr result (Rose self.old.faults.total self.new.faults.total) }
        ensures fault { OnErr result (0 < self.new.faults.since_start) }
        ensures none_taken { OnErr result (self.new.taken ≡ self.old.taken) }
    {
        let is_failing = self.calls.is_failing();
        let Some(name) = &self.started else {
            return Err(self.faults.count());
        };
        let Some(text) = find(&self.files, name.text()) else {
            return Err(self.faults.count());
        };
        if is_failing || !self.is_open {
            return Err(self.faults.count());
        }
        let count = self.piece.copy(text, self.taken, buf);
        self.taken += count;
        Ok(count)
    }
}
