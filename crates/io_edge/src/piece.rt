//! How much a call in memory moves.

ghost use Rattle.std.specs.Prelude.{◌≡◌, ◌+◌, ◌<◌, ◌≤◌, length, take, max, min, ◌-◌};
ghost use Rattle.io_edge.specs.Files.{IsNextPiece};

/// How many bytes a call moves at most.
#[derive(Clone, Copy, Debug)]
pub struct Piece {
    pub bytes: usize,
    ghost some: { 1 ≤ bytes },
}

impl Piece {
    /// Copies the next bytes of the text, after those taken, to the front of the buffer.
    pub fn copy(self, text: &[u8], taken: usize, buf: &mut [u8]) -> usize
        requires { 0 < length buf.old }
        ensures within { result ≤ length buf.new }
        ensures next { IsNextPiece text.now taken result (take result buf.new) }
        ensures moved { result ≡ min (min self.bytes (length buf.old)) (length text.now - taken) }
        ensures fits { taken + result ≤ max taken (length text.now) }
    {
        if taken >= text.len() {
            return 0;
        }
        let rest = &text[taken..];
        let count = self.bytes.min(buf.len()).min(rest.len());
        buf[..count].copy_from_slice(&rest[..count]);
        count
    }
}
