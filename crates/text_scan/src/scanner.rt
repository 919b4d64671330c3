//! From a text to its tokens.

ghost use Rattle.std.specs.Prelude.{◌≡◌, ◌^◌, ◌<◌, ◌≤◌, ◌+◌, ◌++◌, List, IfOk, length};
ghost use Rattle.std.specs.List.{list_any};
ghost use Rattle.text_scan.specs.Pieces.{is_line_end};
ghost use Rattle.text_scan.specs.Tokens.{with_piece, fresh_after, tokens_of};
ghost use Rattle.text_scan.specs.declared.scanner.Token.{Token};

use crate::pieces::{Piece, TokenRules, piece_at};
use std::alloc::{AllocError, Global};

/// A token: its kind, its first byte, and its length in bytes.
#[derive(Clone, Copy, Debug, PartialEq, Eq)]
pub struct Token {
    pub kind: u8,
    pub start: u32,
    pub len: u32,
}

fn has_line_end(bytes: &[u8]) -> bool
    ensures { result ≡ list_any is_line_end bytes.now }
{
    bytes.iter().any(|byte| *byte == b'\n')
}

/// Puts the token of a part that begins at a byte behind the others, if it is one.
fn push_piece(tokens: &mut Vec<Token>, piece: Piece, at: usize) -> Result<(), AllocError>
    requires { at + piece.len < 2 ^ 32 }
    ensures { IfOk result (λ _. (rest : List Token) → tokens.new.items ++ rest ≡ tokens.old.items ++ with_piece piece.kind piece.len at rest) }
{
    if let Some(kind) = piece.kind {
        tokens.push(Token {
            kind,
            start: at as u32,
            len: piece.len as u32,
        })?;
    }
    Ok(())
}

/// Whether only blanks come, on its line, before what follows the first part of these bytes.
fn is_fresh_after(piece: Piece, fresh: bool, bytes: &[u8]) -> bool
    requires { piece.len ≤ length bytes.now }
    ensures { result ≡ fresh_after piece.kind piece.len fresh bytes.now }
{
    match piece.kind {
        Some(_) => false,
        None => fresh || has_line_end(&bytes[..piece.len]),
    }
}

/// The tokens of a text of fewer than 2^32 - 1 bytes.
pub fn tokens_of<R: TokenRules>(
    alloc: Global,
    rules: &R,
    text: &[u8],
) -> Result<Vec<Token>, AllocError>
    requires { length text.now + 1 < 2 ^ 32 }
    ensures { IfOk result (λ v. v.items ≡ tokens_of R.kind_of R.is_blank_line text.now) }
{
    let mut tokens = Vec::new(alloc);
    let mut at = 0;
    let mut fresh = true;
    while at < text.len() {
        let rest = &text[at..];
        let piece = piece_at(rules, fresh, rest);
        push_piece(&mut tokens, piece, at)?;
        fresh = is_fresh_after(piece, fresh, rest);
        at += piece.len;
    }
    Ok(tokens)
}

#[cfg(test)]
mod tests;
