//! From the starts of a text's tokens to their lines and columns.
#![tactic(auto)]

mod walker;

ghost use Rattle.std.specs.Prelude.{◌≡◌, ◌+◌, ◌^◌, ◌<◌, ◌≤◌, IfOk, length, map};
ghost use Rattle.std.specs.List.{All};
ghost use Rattle.src_text.specs.Place.{place_at};

use src_text::Place;
use std::alloc::{AllocError, Global};
use walker::Walker;

/// The place of each start, in the order of the starts.
///
/// A start is the number of a byte of the text, or the text's length for the place after its last byte. The text has
/// fewer than 2^32 - 1 bytes. The starts may come in any order, but each that lies before its forerunner costs a walk
/// from the text's first byte, so let them rise where there are many. Refuses only where memory is refused.
pub fn places(alloc: Global, text: &[u8], starts: &[u32]) -> Result<Vec<Place>, AllocError>
    requires short { length text.now + 1 < 2 ^ 32 }
    requires within { All (λ start. start ≤ length text.now) starts.now }
    ensures { IfOk result (λ v. v.items ≡ map (place_at text.now) starts.now) }
{
    let mut places = Vec::with_capacity(alloc, starts.len())?;
    let mut walker = Walker::new(text);
    for start in starts {
        walker = walker.moved_to(*start as usize);
        places.push(walker.place)?;
    }
    Ok(places)
}

#[cfg(test)]
mod tests {
    use super::*;
    use std::test::Fail;

    #[test]
    fn starts_may_come_in_any_order(rt: HostRuntime) -> Result<(), Fail> {
        let text = b"ab\n\r\n\tc\n";
        let cases: [(&[u32], &[(u32, u32)]); 4] = [
            (&[], &[]),
            (&[0, 2, 3, 6, 8], &[(1, 1), (1, 3), (2, 1), (3, 2), (4, 1)]),
            (&[7, 7, 1, 5], &[(3, 3), (3, 3), (1, 2), (3, 1)]),
            (&[8, 4, 2, 0], &[(4, 1), (2, 2), (1, 3), (1, 1)]),
        ];
        for (starts, wanted) in cases {
            assert!(rt; starts.iter().all(|start| *start <= 8));
            let found = places(rt.alloc(), text, starts)?;
            assert_eq!(rt; found.len(), wanted.len());
            for (place, (line, column)) in found.iter().zip(wanted) {
                assert_eq!(rt;
                    *place,
                    Place {
                        line: *line,
                        column: *column
                    }
                );
            }
        }
        Ok(())
    }
}
