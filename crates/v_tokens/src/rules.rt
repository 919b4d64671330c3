//! Which bytes are a token of Verilog.

ghost use Rattle.std.specs.Prelude.{◌≡◌, ◌<◌, ◌+◌, ◌||◌, ◌==◌, ◌∷◌, length, true, false, slice_index, Some, drop};
ghost use Rattle.text_scan.specs.Pieces.{longest_of};
ghost use Rattle.text_scan.specs.Words.{run_len};
ghost use Rattle.text_scan.specs.Fronts.{IsLongestFront};
ghost use Rattle.v_tokens.specs.Rules.{is_between, begins_word, is_decimal, is_word, is_number, is_unknown, is_base_ten, is_base_sixteen, is_base, is_digit_after, is_space, is_sign, goes_on_after, is_digits, is_spaced, is_unsigned, is_based, word_kind, kind_of, is_blank_line};

use crate::kinds::{TokenKind, keywords, marks};
use text_scan::{TokenRules, kind_in, longest_in};

fn begins_word(byte: u8) -> bool
    ensures { result ≡ begins_word byte }
{
    byte.is_ascii_alphabetic() || byte == b'_'
}

fn is_decimal(byte: u8) -> bool
    ensures { result ≡ is_decimal byte }
{
    byte.is_ascii_digit()
}

fn is_word(byte: u8) -> bool
    ensures { result ≡ is_word byte }
{
    begins_word(byte) || is_decimal(byte) || byte == b'$'
}

fn is_number(byte: u8) -> bool
    ensures { result ≡ is_number byte }
{
    is_decimal(byte) || byte == b'_'
}

fn is_unknown(byte: u8) -> bool
    ensures { result ≡ is_unknown byte }
{
    byte == b'x' || byte == b'X' || byte == b'z' || byte == b'Z' || byte == b'?'
}

fn is_base_ten(byte: u8) -> bool
    ensures { result ≡ is_base_ten byte }
{
    byte == b'd' || byte == b'D'
}

fn is_base_sixteen(byte: u8) -> bool
    ensures { result ≡ is_base_sixteen byte }
{
    byte == b'h' || byte == b'H'
}

fn is_base(byte: u8) -> bool
    ensures { result ≡ is_base byte }
{
    is_base_ten(byte)
        || is_base_sixteen(byte)
        || byte == b'b'
        || byte == b'B'
        || byte == b'o'
        || byte == b'O'
}

fn is_letter_digit(byte: u8) -> bool
    ensures { result ≡ (is_between 97 102 byte || is_between 65 70 byte) }
{
    (b'a' <= byte && byte <= b'f') || (b'A' <= byte && byte <= b'F')
}

fn is_digit_after(base: u8, byte: u8) -> bool
    ensures { result ≡ is_digit_after base byte }
{
    is_decimal(byte)
        || (is_base_sixteen(base) && is_letter_digit(byte))
        || (!is_base_ten(base) && is_unknown(byte))
}

fn is_space(byte: u8) -> bool
    ensures { result ≡ is_space byte }
{
    byte == b' ' || byte == b'\t'
}

fn word_len(bytes: &[u8]) -> usize
    ensures { result ≡ run_len is_word bytes.now }
{
    bytes.iter().take_while(|byte| is_word(**byte)).count()
}

fn number_len(bytes: &[u8]) -> usize
    ensures { result ≡ run_len is_number bytes.now }
{
    bytes.iter().take_while(|byte| is_number(**byte)).count()
}

fn word_kind(word: &[u8]) -> u8
    ensures { result ≡ word_kind word.now }
{
    kind_in(keywords(), word).unwrap_or(TokenKind::Identifier as u8)
}

fn is_sign(byte: u8) -> bool
    ensures { result ≡ is_sign byte }
{
    byte == b's' || byte == b'S'
}

fn goes_on_after(base: u8, byte: u8) -> bool
    ensures { result ≡ goes_on_after base byte }
{
    is_digit_after(base, byte) || byte == b'_'
}

fn digit_run(base: u8, bytes: &[u8]) -> usize
    ensures { result ≡ run_len (goes_on_after base) bytes.now }
{
    bytes
        .iter()
        .take_while(|byte| goes_on_after(base, **byte))
        .count()
}

fn space_run(bytes: &[u8]) -> usize
    ensures { result ≡ run_len is_space bytes.now }
{
    bytes.iter().take_while(|byte| is_space(**byte)).count()
}

/// How many bytes the digits at the front have, with `_` after the first.
fn digits_len(base: u8, bytes: &[u8]) -> Option<usize>
    ensures { IsLongestFront (is_digits base) bytes.now result }
{
    let Some((first, rest)) = bytes.split_first() else {
        return None;
    };
    if is_digit_after(base, *first) {
        let run = digit_run(base, rest);
        return Some(1 + run);
    }
    None
}

/// The same with spaces before them.
fn spaced_len(base: u8, bytes: &[u8]) -> Option<usize>
    ensures { IsLongestFront (is_spaced base) bytes.now result }
{
    let spaces = space_run(bytes);
    match digits_len(base, &bytes[spaces..]) {
        Some(len) => Some(len + spaces),
        None => None,
    }
}

/// The same with a base before them.
fn unsigned_len(bytes: &[u8]) -> Option<usize>
    ensures { IsLongestFront is_unsigned bytes.now result }
{
    let Some((base, rest)) = bytes.split_first() else {
        return None;
    };
    if is_base(*base) {
        return match spaced_len(*base, rest) {
            Some(len) => Some(len + 1),
            None => None,
        };
    }
    None
}

/// How many bytes belong to a based number after its `'`.
fn based_len(bytes: &[u8]) -> Option<usize>
    ensures { IsLongestFront is_based bytes.now result }
{
    let Some((sign, rest)) = bytes.split_first() else {
        return None;
    };
    if is_sign(*sign) {
        return match unsigned_len(rest) {
            Some(len) => Some(len + 1),
            None => None,
        };
    }
    unsigned_len(bytes)
}

/// The rules of Verilog.
pub struct Verilog;

impl TokenRules for Verilog {
    ghost kind_of = { kind_of };

    ghost is_blank_line = { is_blank_line };

    fn longest(&self, bytes: &[u8]) -> Option<(u8, usize)> {
        let Some((first, rest)) = bytes.split_first() else {
            return None;
        };
        if begins_word(*first) {
            let len = 1 + word_len(rest);
            return Some((word_kind(&bytes[..len]), len));
        }
        if is_decimal(*first) {
            return Some((TokenKind::Decimal as u8, 1 + number_len(rest)));
        }
        if *first == b'\'' {
            return match based_len(rest) {
                Some(len) => Some((TokenKind::Based as u8, len + 1)),
                None => None,
            };
        }
        longest_in(marks(), bytes)
    }

    fn is_blank_line(&self, bytes: &[u8]) -> bool {
        bytes.starts_with(b"`timescale") || bytes.starts_with(b"`default_nettype")
    }
}
