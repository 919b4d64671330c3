//! From the tokens of a text to the steps of its derivation.

ghost use Rattle.std.specs.Prelude.{◌≡◌, ◌+◌, ◌^◌, ◌<◌, IfErr, IfOk, length};
ghost use Rattle.std.specs.List.{All};
ghost use Rattle.ll_parse.specs.Grammar.{Refuses};
ghost use Rattle.c_tokens.specs.Reading.{IsTokenOf};
ghost use Rattle.c_actions.specs.Reading.{C, kinds_of, place_of_token};
ghost use Rattle.c_parse.specs.Ends.{AreSteps};

use c_grammar::{MARKS, table};
use c_tokens::CToken;
use ll_actions::{Step, steps};
use ll_parse::{parse, places};
use src_text::{Place, place_of};
use std::alloc::{AllocError, Global};

fn kinds_of(alloc: Global, tokens: &[CToken]) -> Result<Vec<u8>, AllocError>
    ensures { IfOk result (λ v. v.items ≡ kinds_of tokens.now) }
{
    tokens.iter().map(|token| token.kind).collect(alloc)
}

/// The steps of the derivation of these tokens, or the first token with which they begin no text of the grammar. There it is
/// their number where only the end is wrong.
pub fn derive(alloc: Global, tokens: &[CToken]) -> Result<Result<Vec<Step>, usize>, AllocError>
    requires { length tokens.now < 2 ^ 32 }
    ensures derived { IfOk result (λ r. IfOk r (λ v. AreSteps tokens.now v.items)) }
    ensures refused { IfOk result (λ r. IfErr r (λ i. Refuses C (kinds_of tokens.now) i)) }
{
    let table = table();
    let kinds = kinds_of(alloc, tokens)?;
    match parse(alloc, &table, &kinds)? {
        Ok(productions) => {
            let placed = places(alloc, &table, &kinds, &productions)?;
            Ok(Ok(steps(alloc, &MARKS, &placed)?))
        }
        Err(token) => Ok(Err(token)),
    }
}

/// The place of a token, or that after the last byte where there is none.
pub fn place_of_token(text: &[u8], tokens: &[CToken], token: usize) -> Place
    requires short { length text.now + 1 < 2 ^ 32 }
    requires tokens { All (IsTokenOf text.now) tokens.now }
    ensures { result ≡ place_of_token text.now tokens.now token }
{
    match tokens.get(token) {
        Some(found) => place_of(text, found.at as usize),
        None => place_of(text, text.len()),
    }
}
