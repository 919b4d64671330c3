//! A stream in memory, whose calls fail where they are told to.

ghost use Rattle.std.specs.Prelude.{◌≡◌, ◌+◌, ◌-◌, ◌<◌, ◌≤◌, ◌↔◌, [], ◌∷◌, ◌++◌, false, length, take, min, Some, IfOk, OnOk, OnErr, IsOk, vec_capacity};
ghost use Rattle.io_edge.specs.Calls.{fails_next};
ghost use Rattle.io_edge.specs.Faults.{Rose};

use crate::calls::Calls;
use crate::files::Failed;
use crate::piece::Piece;
use crate::sink::Sink;
use std::alloc::{AllocError, Global};

/// A stream in memory with room for so many bytes. It tells its bytes.
#[derive(Debug, Drop)]
pub struct MemSink {
    bytes: Vec<u8>,
    /// How many bytes it holds at most.
    room: usize,
    piece: Piece,
    calls: Calls,
    faults: u64,
    ghost reserved: { room ≤ vec_capacity bytes },
}

impl MemSink {
    /// Takes the memory for all of `room`. Calls move at most `piece` bytes.
    pub fn new(alloc: Global, piece: usize, room: usize) -> Result<MemSink, AllocError>
        requires { 1 ≤ piece }
        ensures empty { IfOk result (λ sink. sink.bytes.items ≡ []) }
        ensures room { IfOk result (λ sink. sink.room ≡ room) }
        ensures piece { IfOk result (λ sink. sink.piece.bytes ≡ piece) }
        ensures calls { IfOk result (λ sink. (sink.calls.made ≡ 0) × (sink.calls.failing.items ≡ [])) }
    {
        Ok(MemSink {
            bytes: Vec::with_capacity(alloc, room)?,
            room,
            piece: Piece { bytes: piece },
            calls: Calls::new(alloc),
            faults: 0,
        })
    }

    /// Lets the call of `put` of that number fail. They are numbered from 1.
    pub fn fail_at(&mut self, call: u64) -> Result<(), AllocError>
        ensures listed { OnOk result (self.new.calls.failing.items ≡ self.old.calls.failing.items ++ call ∷ []) }
        ensures made { self.new.calls.made ≡ self.old.calls.made }
        ensures bytes { self.new.bytes ≡ self.old.bytes }
        ensures same { self.new ≡ record self.old { calls = self.new.calls } }
    {
        self.calls.fail_at(call)
    }

    /// The bytes written so far.
    pub fn bytes(&self) -> &[u8]
        ensures { result.now ≡ self.now.bytes.items }
    {
        self.bytes.as_slice()
    }
}

impl Sink for MemSink {
    ghost stream = { λ s. record { written = Some s.bytes.items; faults = s.faults } };

    fn put(&mut self, bytes: &[u8]) -> Result<usize, Failed>
        requires { 0 < length bytes.now }

        // It fails exactly where the call is listed or no room is left.
        ensures exact { IsOk result ↔ ((fails_next self.old.calls ≡ false) × (length self.old.bytes.items < self.old.room)) }
        // It takes as many bytes as the piece, what is handed in and the room allow.
        ensures moved { IfOk result (λ n. n ≡ min (min self.old.piece.bytes (length bytes.now)) (self.old.room - length self.old.bytes.items)) }

        ensures some { IfOk result (λ n. 0 < n) }
        ensures within { IfOk result (λ n. n ≤ length bytes.now) }
        ensures written { IfOk result (λ n. self.new.bytes.items ≡ self.old.bytes.items ++ take n bytes.now) }
        ensures same_count { OnOk result (self.new.faults ≡ self.old.faults) }
        ensures rose { OnErr result (Rose self.old.faults self.new.faults) }
        ensures none_written { OnErr result (self.new.bytes.items ≡ self.old.bytes.items) }
    {
        let is_failing = self.calls.is_failing();
        let free = self.room.saturating_sub(self.bytes.len());
        let count = self.piece.bytes.min(bytes.len()).min(free);
        if is_failing || free == 0 || self.bytes.extend_from_slice(&bytes[..count]).is_err() {
            self.faults = self.faults.saturating_add(1);
            return Err(Failed);
        }
        Ok(count)
    }
}
