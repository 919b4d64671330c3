//! A byte of a text, with its line and column.

ghost use Rattle.std.specs.Prelude.{◌≡◌, ◌+◌, ◌^◌, ◌<◌, ◌≤◌, length};
ghost use Rattle.src_text.specs.Place.{place_at};

use src_text::Place;

/// Stands before the byte `at` of a text of fewer than 2^32 - 1 bytes, and knows its place.
#[derive(Clone, Copy)]
pub struct Walker<'t> {
    text: &'t [u8],
    at: usize,
    pub place: Place,
    ghost short: { length text.now + 1 < 2 ^ 32 },
    ghost within: { at ≤ length text.now },
    ghost is: { place ≡ place_at text.now at },
}

impl<'t> Walker<'t> {
    /// Before the text's first byte.
    pub fn new(text: &'t [u8]) -> Walker<'t>
        requires { length text.now + 1 < 2 ^ 32 }
        ensures whole { result.text.now ≡ text.now }
        ensures first { result.at ≡ 0 }
    {
        Walker {
            text,
            at: 0,
            place: Place { line: 1, column: 1 },
        }
    }

    /// One byte further.
    fn next(self) -> Walker<'t>
        requires { self.at < length self.text.now }
        ensures same { result.text.now ≡ self.entry.text.now }
        ensures further { result.at ≡ self.entry.at + 1 }
    {
        let Place { line, column } = self.place;
        let place = if self.text[self.at] == b'\n' {
            Place {
                line: line + 1,
                column: 1,
            }
        } else {
            Place {
                line,
                column: column + 1,
            }
        };
        Walker {
            text: self.text,
            at: self.at + 1,
            place,
        }
    }

    /// Before the byte `at`: on from here, or from the text's first byte where `at` lies before here.
    pub fn moved_to(self, at: usize) -> Walker<'t>
        requires { at ≤ length self.text.now }
        ensures same { result.text.now ≡ self.entry.text.now }
        ensures there { result.at ≡ at }
    {
        let mut walker = if at < self.at {
            Walker::new(self.text)
        } else {
            self
        };
        while walker.at < at {
            walker = walker.next();
        }
        walker
    }
}
