//! Files that are read by name, one after the other.

ghost use Rattle.std.specs.Prelude.{◌≡◌, ℕ, ◌+◌, ◌^◌, ◌<◌, ◌≤◌, List, length, take, Option, Some, IfOk, OnOk, OnErr, IfSome};
ghost use Rattle.io_edge.specs.Faults.{Rose};
ghost use Rattle.io_edge.specs.Files.{Reading, started_file, IsNextPiece};

use src_text::Name;

/// A call on the outside world failed.
#[derive(Clone, Copy, Debug, PartialEq, Eq)]
pub struct Failed;

/// Files that are read in pieces, one at a time. A missing file is a fault of `start`.
pub trait Files {
    /// The bytes under each name, where they are told.
    ghost told: { Self → List ℕ → Option (List ℕ) };

    /// The name last started, the bytes taken and the faults. The count of all faults never falls.
    ghost reading: { Self → Reading };

    /// Goes to the beginning of the file of that name.
    fn start(&mut self, name: Name) -> Result<(), Failed>
        ensures started { (reading self.new).started ≡ Some name }
        ensures taken { (reading self.new).taken ≡ 0 }
        ensures told { told self.new ≡ told self.old }
        ensures same_count { OnOk result ((reading self.new).faults ≡ (reading self.old).faults) }
        ensures no_fault { OnOk result ((reading self.new).faults_since_start ≡ 0) }
        ensures rose { OnErr result (Rose (reading self.old).faults (reading self.new).faults) }
        ensures fault { OnErr result (0 < (reading self.new).faults_since_start) };

    /// Takes the next bytes of the file into the front of the buffer, and answers how many. 0 is the
    /// end of the file.
    fn read(&mut self, buf: &mut [u8]) -> Result<usize, Failed>
        requires room { 0 < length buf.old }
        requires not_many { (reading self.old).taken < 2 ^ 63 }
        ensures within { IfOk result (λ n. n ≤ length buf.new) }
        ensures taken { IfOk result (λ n. (reading self.new).taken ≡ (reading self.old).taken + n) }
        ensures bytes { IfOk result (λ n. IfSome (started_file (told self.old) (reading self.old).started) (λ bytes.
            IsNextPiece bytes (reading self.old).taken n (take n buf.new))) }
        ensures started { (reading self.new).started ≡ (reading self.old).started }
        ensures told { told self.new ≡ told self.old }
        ensures same_count { OnOk result ((reading self.new).faults ≡ (reading self.old).faults) }
        ensures same_since { OnOk result ((reading self.new).faults_since_start ≡ (reading self.old).faults_since_start) }
        ensures rose { OnErr result (Rose (reading self.old).faults (reading self.new).faults) }
        ensures fault { OnErr result (0 < (reading self.new).faults_since_start) }
        ensures none_taken { OnErr result ((reading self.new).taken ≡ (reading self.old).taken) };
}
