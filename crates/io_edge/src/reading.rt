//! A whole file.

ghost use Rattle.std.specs.Prelude.{◌≡◌, ◌≢◌, ℕ, ◌+◌, ◌<◌, ◌≤◌, length, Some, IfOk, OnOk, IfSome, IsErrOf, max};
ghost use Rattle.io_edge.specs.Faults.{Rose};

use crate::files::{Failed, Files};
use src_text::Name;
use std::alloc::{AllocError, Global};

/// How many bytes a file may have: 2^20.
pub const MAX_FILE_BYTES: usize = 1_048_576;

/// How many bytes one call of `read` is offered.
const BUFFER_BYTES: usize = 4_096;

/// Why a file isn't there as a whole.
#[derive(Clone, Copy, Debug, PartialEq, Eq)]
pub enum ReadEnd {
    /// A read or the start failed.
    Failed,
    /// The file has more than `MAX_FILE_BYTES` bytes.
    TooLong,
    /// Want of memory.
    Memory,
}

impl From<Failed> for ReadEnd {
    ghost use Rattle.io_edge.specs.declared.reading.ReadEnd.TheVariants as ends;

    ghost from_gives = { λ _ e. e ≡ ends.Failed };

    fn from(_fault: Failed) -> ReadEnd {
        ReadEnd::Failed
    }
}

impl From<AllocError> for ReadEnd {
    ghost use Rattle.io_edge.specs.declared.reading.ReadEnd.TheVariants as ends;

    ghost from_gives = { λ _ e. e ≡ ends.Memory };

    fn from(_want: AllocError) -> ReadEnd {
        ReadEnd::Memory
    }
}

/// Reads the whole file of that name. It takes at most one byte more than a file may have, and finds
/// by that byte that the file is too long. Want of memory may come at any point.
pub fn read_all<F: Files>(alloc: Global, files: &mut F, name: &str) -> Result<Vec<u8>, ReadEnd>
    // What is told under the name is what is read, all of it.
    ensures whole { IfOk result (λ text. IfSome (F.told files.old name.now) (λ bytes. text.items ≡ bytes)) }
    ensures not_long { IfOk result (λ text. length text.items ≤ MAX_FILE_BYTES) }
    ensures all_taken { IfOk result (λ text. (F.reading files.new).taken ≡ length text.items) }

    // A file is too long exactly where one byte more was taken and no read failed.
    ensures too_long { IsErrOf result ReadEnd.TooLong → (F.reading files.new).taken ≡ MAX_FILE_BYTES + 1 }
    ensures told_long { IsErrOf result ReadEnd.TooLong → IfSome (F.told files.old name.now) (λ bytes. MAX_FILE_BYTES < length bytes) }
    ensures at_most { (F.reading files.new).taken ≤ max (F.reading files.old).taken (MAX_FILE_BYTES + 1) }

    // A failure has its cause: a fault of this file, which the count tells.
    ensures rose { IsErrOf result ReadEnd.Failed → Rose (F.reading files.old).faults (F.reading files.new).faults }
    ensures fault { IsErrOf result ReadEnd.Failed → 0 < (F.reading files.new).faults_since_start }
    ensures same_count { result ≢ Err ReadEnd.Failed → (F.reading files.new).faults ≡ (F.reading files.old).faults }
    ensures no_fault { result ≢ Err ReadEnd.Failed → result ≢ Err ReadEnd.Memory → (F.reading files.new).faults_since_start ≡ 0 }

    ensures started { result ≢ Err ReadEnd.Memory → (F.reading files.new).started ≡ Some name.now }
    ensures told { F.told files.new ≡ F.told files.old }
{
    let mut text = Vec::new(alloc);
    files.start(Name::new(alloc, name)?)?;
    let mut buffer = [0; BUFFER_BYTES];
    while text.len() <= MAX_FILE_BYTES {
        let room = BUFFER_BYTES.min(MAX_FILE_BYTES + 1 - text.len());
        let count = files.read(&mut buffer[..room])?;
        if count == 0 {
            return Ok(text);
        }
        text.extend_from_slice(&buffer[..count])?;
    }
    Err(ReadEnd::TooLong)
}
