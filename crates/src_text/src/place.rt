//! From the number of a byte in a text to its line and column.

ghost use Rattle.std.specs.Prelude.{◌≡◌, ◌+◌, ◌^◌, ◌<◌, ◌≤◌, length};
ghost use Rattle.src_text.specs.Place.{place_at};

use crate::refusal::Place;

/// The place of the byte `at`, or, where `at` is the length, the place after the last byte. The text has fewer than
/// 2^32 - 1 bytes.
pub fn place_of(text: &[u8], at: usize) -> Place
    requires within { at ≤ length text.now }
    requires short { length text.now + 1 < 2 ^ 32 }
    ensures { result ≡ place_at text.now at }
{
    let mut line = 1;
    let mut column = 1;
    for byte in &text[..at] {
        if *byte == b'\n' {
            line += 1;
            column = 1;
        } else {
            column += 1;
        }
    }
    Place { line, column }
}

#[cfg(test)]
mod tests {
    use super::*;
    use std::test::Fail;

    #[test]
    fn lines_end_with_byte_10_alone(rt: HostRuntime) -> Result<(), Fail> {
        let text = b"ab\n\r\n\tc\n";
        let cases = [
            (0, 1, 1),
            (2, 1, 3),
            (3, 2, 1),
            (4, 2, 2),
            (5, 3, 1),
            (6, 3, 2),
            (7, 3, 3),
            (8, 4, 1),
        ];
        for (at, line, column) in cases {
            assert!(rt; at <= text.len());
            assert_eq!(rt; place_of(text, at), Place { line, column });
        }
        assert_eq!(rt; place_of(b"", 0), Place { line: 1, column: 1 });
        Ok(())
    }
}
