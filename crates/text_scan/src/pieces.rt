//! What a text begins with: a blank, a comment, a line that counts as blank, a token, or a byte that begins none.

ghost use Rattle.std.specs.Prelude.{◌≡◌, ◌<◌, ℕ, Bool, List, Option, IfSome, ◌+◌, ◌≤◌, drop, length, position};
ghost use Rattle.text_scan.specs.Pieces.{is_blank, is_line_end, line_len, close_of, longest_of, skipped, token, comment, piece_of};

/// The kind of a byte that begins no token, and of a comment that isn't closed. No language has a token of this kind.
pub const STRAY: u8 = 127;

/// The rules by which a language makes bytes to tokens. Blanks and comments aren't its business.
pub trait TokenRules {
    /// The kind of token that the bytes are as a whole, if they are one.
    ghost kind_of: { List ℕ → Option ℕ };

    /// A line counts as blank to its end where it begins so, after blanks.
    ghost is_blank_line: { List ℕ → Bool };

    /// The kind and the length of the longest token that the bytes begin with.
    fn longest(&self, bytes: &[u8]) -> Option<(u8, usize)>
        ensures { result ≡ longest_of kind_of bytes.now };

    /// Whether a line that begins so, after blanks, counts as blank to its end.
    fn is_blank_line(&self, bytes: &[u8]) -> bool
        ensures { result ≡ is_blank_line bytes.now };
}

/// The first part of a text: a token of this kind, or nothing that counts, and its length in bytes.
#[derive(Clone, Copy, Debug, PartialEq, Eq)]
pub struct Piece {
    pub kind: Option<u8>,
    pub len: usize,
}

/// Space, tab, line feed, form feed or carriage return.
fn is_blank(byte: u8) -> bool
    ensures { result ≡ is_blank byte }
{
    byte == b' ' || byte == b'\t' || byte == b'\n' || byte == 12 || byte == b'\r'
}

fn line_end(bytes: &[u8]) -> Option<usize>
    ensures { result ≡ position is_line_end bytes.now }
{
    bytes.iter().position(|byte| *byte == b'\n')
}

/// How many bytes come before the end of the line.
fn line_len(bytes: &[u8]) -> usize
    ensures { result ≡ line_len bytes.now }
{
    line_end(bytes).unwrap_or(bytes.len())
}

/// Where the first `*/` begins.
fn close_of(bytes: &[u8]) -> Option<usize>
    ensures exact { result ≡ close_of bytes.now }
    ensures within { IfSome result (λ close. close + 2 ≤ length bytes.now) }
{
    bytes
        .iter()
        .zip(bytes.iter().skip(1))
        .position(|(first, second)| *first == b'*' && *second == b'/')
}

fn skipped(len: usize) -> Piece
    ensures { result ≡ skipped len }
{
    Piece { kind: None, len }
}

fn token(kind: u8, len: usize) -> Piece
    ensures { result ≡ token kind len }
{
    Piece {
        kind: Some(kind),
        len,
    }
}

/// What a text begins with that begins with `/*`.
fn comment(bytes: &[u8]) -> Piece
    requires { 1 < length bytes.now }
    ensures exact { result ≡ comment (close_of (drop 2 bytes.now)) (length bytes.now) }
    ensures some { 0 < result.len }
    ensures within { result.len ≤ length bytes.now }
{
    match close_of(&bytes[2..]) {
        Some(close) => skipped(close + 4),
        None => token(STRAY, bytes.len()),
    }
}

/// The first part of bytes that aren't empty, where only blanks come before them on their line if `fresh`.
pub fn piece_at<R: TokenRules>(rules: &R, fresh: bool, bytes: &[u8]) -> Piece
    requires { 0 < length bytes.now }
    ensures exact { result ≡ piece_of R.kind_of R.is_blank_line fresh bytes.now }
    ensures some { 0 < result.len }
    ensures within { result.len ≤ length bytes.now }
{
    if is_blank(bytes[0]) {
        return skipped(1);
    }
    if bytes.starts_with(b"//") {
        return skipped(line_len(bytes));
    }
    if bytes.starts_with(b"/*") {
        return comment(bytes);
    }
    if fresh && rules.is_blank_line(bytes) {
        return skipped(line_len(bytes));
    }
    match rules.longest(bytes) {
        Some((kind, len)) => token(kind, len),
        None => token(STRAY, 1),
    }
}
