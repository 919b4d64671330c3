//! Which bytes are a token of C.

ghost use Rattle.std.specs.Prelude.{◌≡◌, ◌||◌, Some};
ghost use Rattle.text_scan.specs.Words.{run_len};
ghost use Rattle.text_scan.specs.Fronts.{IsLongestFront};
ghost use Rattle.c_tokens.specs.Rules.{begins_word, is_decimal, is_letter_digit, is_digit, is_word, is_suffix, is_digits, is_x, is_after_x, is_after_zero, is_after_digit, is_printable, is_only, is_escape, is_after_backslash, is_plain, is_after_quote, is_text, is_after_double_quote, word_kind, kind_of, is_blank_line};

use crate::kinds::{TokenKind, keywords, marks, suffixes};
use text_scan::{TokenRules, kind_in, longest_in};

/// What the digits of an integer may be (6.4.4.1).
#[derive(Clone, Copy, Debug, PartialEq, Eq)]
enum Base {
    Octal,
    Decimal,
    Hexadecimal,
}

fn begins_word(byte: u8) -> bool
    ensures { result ≡ begins_word byte }
{
    byte.is_ascii_alphabetic() || byte == b'_'
}

fn is_decimal(byte: u8) -> bool
    ensures { result ≡ is_decimal byte }
{
    byte.is_ascii_digit()
}

fn is_letter_digit(byte: u8) -> bool
    ensures { result ≡ is_letter_digit byte }
{
    (b'a' <= byte && byte <= b'f') || (b'A' <= byte && byte <= b'F')
}

fn is_digit(base: Base, byte: u8) -> bool
    ensures { result ≡ is_digit base byte }
{
    match base {
        Base::Octal => b'0' <= byte && byte <= b'7',
        Base::Decimal => is_decimal(byte),
        Base::Hexadecimal => is_decimal(byte) || is_letter_digit(byte),
    }
}

fn is_word(byte: u8) -> bool
    ensures { result ≡ is_word byte }
{
    begins_word(byte) || is_decimal(byte)
}

fn is_x(byte: u8) -> bool
    ensures { result ≡ is_x byte }
{
    byte == b'x' || byte == b'X'
}

fn is_printable(byte: u8) -> bool
    ensures { result ≡ is_printable byte }
{
    b' ' <= byte && byte <= b'~'
}

fn is_escape(byte: u8) -> bool
    ensures { result ≡ is_escape byte }
{
    byte == b'n'
        || byte == b't'
        || byte == b'r'
        || byte == b'0'
        || byte == b'\\'
        || byte == b'\''
        || byte == b'"'
}

fn is_plain(byte: u8) -> bool
    ensures { result ≡ is_plain byte }
{
    is_printable(byte) && byte != b'\'' && byte != b'\\'
}

fn is_text(byte: u8) -> bool
    ensures { result ≡ is_text byte }
{
    is_printable(byte) && byte != b'"' && byte != b'\\'
}

fn word_len(bytes: &[u8]) -> usize
    ensures { result ≡ run_len is_word bytes.now }
{
    bytes.iter().take_while(|byte| is_word(**byte)).count()
}

fn digit_run(base: Base, bytes: &[u8]) -> usize
    ensures { result ≡ run_len (is_digit base) bytes.now }
{
    bytes
        .iter()
        .take_while(|byte| is_digit(base, **byte))
        .count()
}

fn text_run(bytes: &[u8]) -> usize
    ensures { result ≡ run_len is_text bytes.now }
{
    bytes.iter().take_while(|byte| is_text(**byte)).count()
}

fn word_kind(word: &[u8]) -> u8
    ensures { result ≡ word_kind word.now }
{
    kind_in(keywords(), word).unwrap_or(TokenKind::Identifier as u8)
}

/// How many bytes the suffix at the front has, or 0.
fn suffix_len(bytes: &[u8]) -> usize
    ensures { IsLongestFront is_suffix bytes.now (Some result) }
{
    match longest_in(suffixes(), bytes) {
        Some((_, len)) => len,
        None => 0,
    }
}

/// How many bytes the digits at the front have, with their suffix.
fn digits_len(base: Base, bytes: &[u8]) -> usize
    ensures { IsLongestFront (is_digits base) bytes.now (Some result) }
{
    let run = digit_run(base, bytes);
    let suffix = suffix_len(&bytes[run..]);
    suffix + run
}

/// How many bytes belong to a hexadecimal constant after its `0x`.
fn after_x_len(bytes: &[u8]) -> Option<usize>
    ensures { IsLongestFront is_after_x bytes.now result }
{
    let Some((first, rest)) = bytes.split_first() else {
        return None;
    };
    if is_digit(Base::Hexadecimal, *first) {
        return Some(digits_len(Base::Hexadecimal, rest) + 1);
    }
    None
}

/// How many bytes belong to an integer after its `0`.
fn after_zero_len(bytes: &[u8]) -> usize
    ensures { IsLongestFront is_after_zero bytes.now (Some result) }
{
    let Some((first, rest)) = bytes.split_first() else {
        return 0;
    };
    if is_x(*first) {
        return match after_x_len(rest) {
            Some(len) => len + 1,
            None => 0,
        };
    }
    digits_len(Base::Octal, bytes)
}

/// How many bytes belong to an integer after its first digit.
fn after_digit_len(first: u8, bytes: &[u8]) -> usize
    ensures { IsLongestFront (is_after_digit first) bytes.now (Some result) }
{
    if first == b'0' {
        return after_zero_len(bytes);
    }
    digits_len(Base::Decimal, bytes)
}

/// 1 where the bytes begin with this one.
fn only_len(byte: u8, bytes: &[u8]) -> Option<usize>
    ensures { IsLongestFront (is_only byte) bytes.now result }
{
    let Some((first, _)) = bytes.split_first() else {
        return None;
    };
    if *first == byte {
        return Some(1);
    }
    None
}

/// How many bytes belong to a character constant after its `\`.
fn after_backslash_len(bytes: &[u8]) -> Option<usize>
    ensures { IsLongestFront is_after_backslash bytes.now result }
{
    let Some((first, rest)) = bytes.split_first() else {
        return None;
    };
    if is_escape(*first) {
        return match only_len(b'\'', rest) {
            Some(len) => Some(len + 1),
            None => None,
        };
    }
    None
}

/// How many bytes belong to a character constant after its opening `'`.
fn after_quote_len(bytes: &[u8]) -> Option<usize>
    ensures { IsLongestFront is_after_quote bytes.now result }
{
    let Some((first, rest)) = bytes.split_first() else {
        return None;
    };
    if *first == b'\\' {
        return match after_backslash_len(rest) {
            Some(len) => Some(len + 1),
            None => None,
        };
    }
    if is_plain(*first) {
        return match only_len(b'\'', rest) {
            Some(len) => Some(len + 1),
            None => None,
        };
    }
    None
}

/// How many bytes belong to a string after its opening `"`.
fn after_double_quote_len(bytes: &[u8]) -> Option<usize>
    ensures { IsLongestFront is_after_double_quote bytes.now result }
{
    let run = text_run(bytes);
    match only_len(b'"', &bytes[run..]) {
        Some(len) => Some(len + run),
        None => None,
    }
}

/// The rules of C.
pub struct C;

impl TokenRules for C {
    ghost kind_of = { kind_of };

    ghost is_blank_line = { is_blank_line };

    fn longest(&self, bytes: &[u8]) -> Option<(u8, usize)> {
        let Some((first, rest)) = bytes.split_first() else {
            return None;
        };
        if begins_word(*first) {
            let len = 1 + word_len(rest);
            return Some((word_kind(&bytes[..len]), len));
        }
        if is_decimal(*first) {
            let len = after_digit_len(*first, rest) + 1;
            return Some((TokenKind::Integer as u8, len));
        }
        if *first == b'\'' {
            return match after_quote_len(rest) {
                Some(len) => Some((TokenKind::Character as u8, len + 1)),
                None => None,
            };
        }
        if *first == b'"' {
            return match after_double_quote_len(rest) {
                Some(len) => Some((TokenKind::StringLiteral as u8, len + 1)),
                None => None,
            };
        }
        longest_in(marks(), bytes)
    }

    fn is_blank_line(&self, _bytes: &[u8]) -> bool {
        false
    }
}
