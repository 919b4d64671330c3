ghost use Rattle.std.specs.Prelude.{◌≡◌};
ghost use Rattle.text_scan.specs.Words.{words_of, kind_in};
ghost use Rattle.text_scan.specs.Sample.{MARKS, is_line_mark};

use super::*;
use crate::pieces::STRAY;
use crate::words::{Word, longest_in};
use std::test::Fail;

static WORDS: [Word; 3] = [
    Word {
        text: "<<",
        kind: 1,
    },
    Word { text: "<", kind: 2 },
    Word { text: "/", kind: 3 },
];

fn words() -> &'static [Word]
    ensures { words_of result.now ≡ MARKS }
{
    &WORDS
}

struct Marks;

impl TokenRules for Marks {
    ghost kind_of = { kind_in MARKS };

    ghost is_blank_line = { is_line_mark };

    fn longest(&self, bytes: &[u8]) -> Option<(u8, usize)> {
        longest_in(words(), bytes)
    }

    fn is_blank_line(&self, bytes: &[u8]) -> bool {
        bytes.starts_with(b"`line")
    }
}

#[test]
fn tokens_are_the_longest_and_stand_at_their_bytes(rt: HostRuntime) -> Result<(), Fail> {
    let cases: [(&[u8], &[(u8, u32, u32)]); 12] = [
        (b"", &[]),
        (b" \t\r\x0c\n", &[]),
        (b"<<<", &[(1, 0, 2), (2, 2, 1)]),
        (b"< /<", &[(2, 0, 1), (3, 2, 1), (2, 3, 1)]),
        (b"<//<<\n<", &[(2, 0, 1), (2, 6, 1)]),
        (b"<//<<", &[(2, 0, 1)]),
        (b"/**/<", &[(2, 4, 1)]),
        (b"/*/<", &[(STRAY, 0, 4)]),
        (b"a<", &[(STRAY, 0, 1), (2, 1, 1)]),
        (b"/* \n */ `line <\n<", &[(2, 16, 1)]),
        (
            b"< `line",
            &[
                (2, 0, 1),
                (STRAY, 2, 1),
                (STRAY, 3, 1),
                (STRAY, 4, 1),
                (STRAY, 5, 1),
                (STRAY, 6, 1),
            ],
        ),
        (b"< /*\n*/ `line", &[(2, 0, 1)]),
    ];
    for (text, expected) in cases {
        let tokens = tokens_of(rt.alloc(), &Marks, text)?;
        assert_eq!(rt; tokens.len(), expected.len(), "{text:?}");
        for (token, wanted) in tokens.iter().zip(expected) {
            assert_eq!(rt; (token.kind, token.start, token.len), *wanted, "{text:?}");
        }
    }
    Ok(())
}
