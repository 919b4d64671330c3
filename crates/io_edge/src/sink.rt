//! A stream that is written to.

ghost use Rattle.std.specs.Prelude.{◌≡◌, ◌<◌, ◌≤◌, length, take, IfOk, OnOk, OnErr};
ghost use Rattle.io_edge.specs.Faults.{Rose};
ghost use Rattle.io_edge.specs.Sink.{Stream, Appends};

use crate::files::Failed;

/// A stream that takes bytes at its end.
pub trait Sink {
    /// The bytes written so far, where they are told, and the faults, whose count never falls.
    ghost stream: { Self → Stream };

    /// Writes the front of the piece, and answers how many bytes that is: at least 1.
    fn put(&mut self, bytes: &[u8]) -> Result<usize, Failed>
        requires { 0 < length bytes.now }
        ensures some { IfOk result (λ n. 0 < n) }
        ensures within { IfOk result (λ n. n ≤ length bytes.now) }
        ensures written { IfOk result (λ n. Appends (stream self.old).written (stream self.new).written (take n bytes.now)) }
        ensures same_count { OnOk result ((stream self.new).faults ≡ (stream self.old).faults) }
        ensures rose { OnErr result (Rose (stream self.old).faults (stream self.new).faults) }
        ensures none_written { OnErr result ((stream self.new).written ≡ (stream self.old).written) };
}
