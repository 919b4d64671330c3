//! The bytes of a token.

ghost use Rattle.std.specs.Prelude.{◌≡◌, take, drop, slice_index};
ghost use Rattle.v_actions.specs.Tokens.{bytes_at};

use text_scan::Token;

/// The byte at a position, or 0 behind the last.
pub fn byte_at(bytes: &[u8], at: usize) -> u8
    ensures { result ≡ slice_index bytes.now at }
{
    match bytes.get(at) {
        Some(byte) => *byte,
        None => 0,
    }
}

/// All but the first bytes.
pub fn without_first(bytes: &[u8], count: usize) -> &[u8]
    ensures { result.now ≡ drop count bytes.now }
{
    if count < bytes.len() {
        &bytes[count..]
    } else {
        &[]
    }
}

/// The first bytes.
fn first(bytes: &[u8], count: usize) -> &[u8]
    ensures { result.now ≡ take count bytes.now }
{
    if count < bytes.len() {
        &bytes[..count]
    } else {
        bytes
    }
}

/// The bytes of a token, or none if there is no such token.
pub fn bytes_at<'t>(text: &'t [u8], tokens: &[Token], at: usize) -> &'t [u8]
    ensures { result.now ≡ bytes_at text.now tokens.now at }
{
    match tokens.get(at) {
        Some(token) => first(
            without_first(text, token.start as usize),
            token.len as usize,
        ),
        None => &[],
    }
}
