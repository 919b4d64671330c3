//! The tokens of a text and their places.

ghost use Rattle.std.specs.Prelude.{◌≡◌, ◌+◌, ◌^◌, ◌<◌, ◌≤◌, IfOk, length};
ghost use Rattle.std.specs.List.{All};
ghost use Rattle.v_actions.specs.Reading.{tokens_in};
ghost use Rattle.v_build.specs.Sources.{IsInside};
ghost use Rattle.v_depth.specs.Depth.{place_of_token};

use src_text::{Place, place_of};
use std::alloc::{AllocError, Global};
use text_scan::Token;
use v_tokens::Verilog;

/// The tokens of a text.
pub fn tokens_in(alloc: Global, text: &[u8]) -> Result<Vec<Token>, AllocError>
    requires { length text.now + 1 < 2 ^ 32 }
    ensures exact { IfOk result (λ v. v.items ≡ tokens_in text.now) }
    ensures inside { IfOk result (λ v. All (IsInside text.now) v.items) }
    // A token has a byte at least.
    ensures few { IfOk result (λ v. length v.items ≤ length text.now) }
{
    text_scan::tokens_of(alloc, &Verilog, text)
}

/// The place of a token, or that after the last byte where there is none.
pub fn place_of_token(text: &[u8], tokens: &[Token], token: usize) -> Place
    requires short { length text.now + 1 < 2 ^ 32 }
    requires inside { All (IsInside text.now) tokens.now }
    ensures { result ≡ place_of_token text.now tokens.now token }
{
    match tokens.get(token) {
        Some(found) => place_of(text, found.start as usize),
        None => place_of(text, text.len()),
    }
}
