//! Based numbers (IEEE 1364-2005, 3.5.1).

ghost use Rattle.std.specs.Prelude.{◌≡◌, ◌≤◌, IfOk, length};
ghost use Rattle.std.specs.Str.Lossy.{utf8_lossy};
ghost use Rattle.text_scan.specs.Words.{run_len};
ghost use Rattle.v_tokens.specs.Rules.{is_sign, is_space};
ghost use Rattle.v_actions.specs.Tokens.{is_signed, based_part, base_of, without_spaces, based_number};

use crate::bytes::{byte_at, without_first};
use src_text::{Name, Place};
use std::alloc::{AllocError, Global};
use v_tree::{Base, BasedNumber};

/// The text that the bytes are.
pub fn name_of(alloc: Global, bytes: &[u8]) -> Result<Name, AllocError>
    ensures { IfOk result (λ name. name ≡ utf8_lossy bytes.now) }
{
    let text = String::from_utf8_lossy(alloc, bytes)?;
    Name::new(alloc, text.as_str())
}

fn is_sign(byte: u8) -> bool
    ensures { result ≡ is_sign byte }
{
    byte == b's' || byte == b'S'
}

fn is_space(byte: u8) -> bool
    ensures { result ≡ is_space byte }
{
    byte == b' ' || byte == b'\t'
}

fn is_signed(bytes: &[u8]) -> bool
    ensures { result ≡ is_signed bytes.now }
{
    is_sign(byte_at(bytes, 1))
}

/// The base and what follows it.
fn based_part(bytes: &[u8]) -> &[u8]
    ensures { result.now ≡ based_part bytes.now }
{
    if is_signed(bytes) {
        without_first(bytes, 2)
    } else {
        without_first(bytes, 1)
    }
}

fn base_of(byte: u8) -> Base
    ensures { result ≡ base_of byte }
{
    match byte {
        b'b' | b'B' => Base::Binary,
        b'o' | b'O' => Base::Octal,
        b'd' | b'D' => Base::Decimal,
        _ => Base::Hexadecimal,
    }
}

fn count_spaces(bytes: &[u8]) -> usize
    ensures { result ≡ run_len is_space bytes.now }
{
    bytes.iter().take_while(|byte| is_space(**byte)).count()
}

fn without_spaces(bytes: &[u8]) -> &[u8]
    ensures { result.now ≡ without_spaces bytes.now }
{
    without_first(bytes, count_spaces(bytes))
}

/// A base and its digits, by the bytes of the token.
pub fn based_number(alloc: Global, place: Place, bytes: &[u8]) -> Result<BasedNumber, AllocError>
    ensures { IfOk result (λ number. number ≡ based_number place bytes.now) }
{
    let part = based_part(bytes);
    let digits = name_of(alloc, without_spaces(without_first(part, 1)))?;
    Ok(BasedNumber {
        place,
        signed: is_signed(bytes),
        base: base_of(byte_at(part, 0)),
        digits,
    })
}
