use super::*;
use std::test::Fail;

const ID: u8 = TokenKind::Identifier as u8;

const INT: u8 = TokenKind::Integer as u8;

const CHAR: u8 = TokenKind::Character as u8;

const STRING: u8 = TokenKind::StringLiteral as u8;

const HASH: u8 = TokenKind::Hash as u8;

const MINUS: u8 = TokenKind::Minus as u8;

const PLUS: u8 = TokenKind::Plus as u8;

#[test]
fn tokens_are_reported_where_they_stand(rt: HostRuntime) -> Result<(), Fail> {
    let cases: [(&[u8], &[(u8, u32, u32, u32)]); 33] = [
        (b"", &[]),
        // A name that is defined stands for its constant, at the name's place.
        (
            b"#define N 3\nint t[N];",
            &[
                (TokenKind::Int as u8, 12, 12, 3),
                (ID, 16, 16, 1),
                (TokenKind::OpenBracket as u8, 17, 17, 1),
                (INT, 18, 10, 1),
                (TokenKind::CloseBracket as u8, 19, 19, 1),
                (TokenKind::Semicolon as u8, 20, 20, 1),
            ],
        ),
        (
            b"#define N - 3 // c\nN+N",
            &[
                (MINUS, 19, 10, 1),
                (INT, 19, 12, 1),
                (PLUS, 20, 20, 1),
                (MINUS, 21, 10, 1),
                (INT, 21, 12, 1),
            ],
        ),
        (
            b"#define A (-1u)\nA",
            &[
                (TokenKind::OpenParenthesis as u8, 16, 10, 1),
                (MINUS, 16, 11, 1),
                (INT, 16, 12, 2),
                (TokenKind::CloseParenthesis as u8, 16, 14, 1),
            ],
        ),
        // Only after its directive, and only identifiers.
        (b"A\n#define A 1\nA", &[(ID, 0, 0, 1), (INT, 14, 12, 1)]),
        (b"#define AB 1\nA", &[(ID, 13, 13, 1)]),
        // No name inside a directive is replaced, and none is defined twice.
        (
            b"#define A 1\n#define B A\nB",
            &[(STRAY, 12, 12, 1), (ID, 24, 24, 1)],
        ),
        (
            b"#define A 1\n#define A 2\nA",
            &[(STRAY, 12, 12, 1), (INT, 24, 10, 1)],
        ),
        (b"#define h 1\n#include <stdint.h>\nh", &[(INT, 32, 10, 1)]),
        // Three headers, with blanks and comments anywhere on the line.
        (
            b"#include <assert.h>\n#include<stdbool.h> // c\n # include /* */ < stdint . h >\n",
            &[],
        ),
        (
            b"#include <stdio.h>\nx",
            &[(STRAY, 0, 0, 1), (ID, 19, 19, 1)],
        ),
        (b"#include \"assert.h\"", &[(STRAY, 0, 0, 1)]),
        (b"#include <assert.h> x", &[(STRAY, 0, 0, 1)]),
        // A token stands on the line of its first byte.
        (b"#define N 1 /* \n */ N", &[(INT, 20, 10, 1)]),
        (b"#define N /*\n*/ 1", &[(STRAY, 0, 0, 1), (INT, 16, 16, 1)]),
        (b"/*\n*/ #define N 1\nN", &[(INT, 18, 16, 1)]),
        (
            b"x # define N 1",
            &[
                (ID, 0, 0, 1),
                (HASH, 2, 2, 1),
                (ID, 4, 4, 6),
                (ID, 11, 11, 1),
                (INT, 13, 13, 1),
            ],
        ),
        // Other directives are refused at their `#`.
        (b"#", &[(STRAY, 0, 0, 1)]),
        (b"# $", &[(STRAY, 0, 0, 1)]),
        (b"#define int 1", &[(STRAY, 0, 0, 1)]),
        (b"#define N 08", &[(STRAY, 0, 0, 1)]),
        (b"#define N (1", &[(STRAY, 0, 0, 1)]),
        (b"#define N", &[(STRAY, 0, 0, 1)]),
        (b"x\n#define M 2 /*\nM", &[(ID, 0, 0, 1), (STRAY, 2, 2, 1)]),
        // A byte that begins no token, and a comment without end.
        (
            b"int main(void) { $ }",
            &[
                (TokenKind::Int as u8, 0, 0, 3),
                (ID, 4, 4, 4),
                (TokenKind::OpenParenthesis as u8, 8, 8, 1),
                (TokenKind::Void as u8, 9, 9, 4),
                (TokenKind::CloseParenthesis as u8, 13, 13, 1),
                (TokenKind::OpenBrace as u8, 15, 15, 1),
                (STRAY, 17, 17, 1),
                (TokenKind::CloseBrace as u8, 19, 19, 1),
            ],
        ),
        (b"x /* y", &[(ID, 0, 0, 1), (STRAY, 2, 2, 4)]),
        // Integers go on as long as they can.
        (
            b"5lL 09 0x 0x1Full 0ULL 1a",
            &[
                (INT, 0, 0, 2),
                (ID, 2, 2, 1),
                (INT, 4, 4, 1),
                (INT, 5, 5, 1),
                (INT, 7, 7, 1),
                (ID, 8, 8, 1),
                (INT, 10, 10, 7),
                (INT, 18, 18, 4),
                (INT, 23, 23, 1),
                (ID, 24, 24, 1),
            ],
        ),
        (b"'a''\\n'", &[(CHAR, 0, 0, 3), (CHAR, 3, 3, 4)]),
        (b"''", &[(STRAY, 0, 0, 1), (STRAY, 1, 1, 1)]),
        (
            b"'ab'",
            &[(STRAY, 0, 0, 1), (ID, 1, 1, 2), (STRAY, 3, 3, 1)],
        ),
        (b"\"a b\"x", &[(STRING, 0, 0, 5), (ID, 5, 5, 1)]),
        (
            b"\"\\n\"",
            &[
                (STRAY, 0, 0, 1),
                (STRAY, 1, 1, 1),
                (ID, 2, 2, 1),
                (STRAY, 3, 3, 1),
            ],
        ),
        (
            b"a<<=b>>c+++d",
            &[
                (ID, 0, 0, 1),
                (TokenKind::ShiftLeftBecomes as u8, 1, 1, 3),
                (ID, 4, 4, 1),
                (TokenKind::ShiftRight as u8, 5, 5, 2),
                (ID, 7, 7, 1),
                (TokenKind::Increment as u8, 8, 8, 2),
                (PLUS, 10, 10, 1),
                (ID, 11, 11, 1),
            ],
        ),
    ];
    for (text, expected) in cases {
        assert!(rt; text.len() < 100);
        let tokens = c_tokens(rt.alloc(), text)?;
        assert_eq!(rt; tokens.len(), expected.len(), "{text:?}");
        for (token, wanted) in tokens.iter().zip(expected) {
            assert_eq!(rt;
                (token.kind, token.at, token.start, token.len),
                *wanted,
                "{text:?}"
            );
        }
    }
    Ok(())
}

#[test]
fn kinds_are_numbered_in_order(rt: HostRuntime) -> Result<(), Fail> {
    let each_kind =
        b"x 1 'a' \"s\" struct extern static const void _Bool bool char short int long signed unsigned \
int8_t int16_t int32_t int64_t uint8_t uint16_t uint32_t uint64_t if else while do for switch case default break continue return \
assert __CPROVER_assert __CPROVER_assume true false + - * / % ! ~ & | ^ && || == != < <= > >= << >> ? : = \
+= -= *= /= %= &= |= ^= <<= >>= ++ -- ( ) [ ] { } ; , . # auto";
    let tokens = c_tokens(rt.alloc(), each_kind)?;
    assert_eq!(rt; tokens.len(), 87);
    for (i, token) in tokens.iter().enumerate() {
        assert_eq!(rt; token.kind as usize, i + 1);
    }
    Ok(())
}
