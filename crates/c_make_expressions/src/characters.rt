//! The value of a character constant.

ghost use Rattle.std.specs.Prelude.{◌≡◌, slice_index};
ghost use Rattle.c_actions.specs.Characters.{escaped, character_value};

fn escaped(byte: u8) -> u8
    ensures { result ≡ escaped byte }
{
    match byte {
        b'n' => b'\n',
        b't' => b'\t',
        b'r' => b'\r',
        b'0' => 0,
        _ => byte,
    }
}

fn byte_at(bytes: &[u8], at: usize) -> u8
    ensures { result ≡ slice_index bytes.now at }
{
    match bytes.get(at) {
        Some(byte) => *byte,
        None => 0,
    }
}

/// The value of a character constant by its spelling (C99 6.4.4.4).
pub fn character_value(spelling: &[u8]) -> u8
    ensures { result ≡ character_value spelling.now }
{
    let first = byte_at(spelling, 1);
    if first == b'\\' {
        return escaped(byte_at(spelling, 2));
    }
    first
}
