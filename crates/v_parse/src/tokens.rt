//! From the tokens of a text to the steps of its derivation.

ghost use Rattle.std.specs.Prelude.{◌≡◌, ◌^◌, ◌<◌, IfErr, IfOk, length};
ghost use Rattle.ll_parse.specs.Grammar.{Refuses};
ghost use Rattle.v_actions.specs.Reading.{V, kinds_of};
ghost use Rattle.v_parse.specs.Ends.{AreSteps};

use ll_actions::{Step, steps};
use ll_parse::{parse, places};
use std::alloc::{AllocError, Global};
use text_scan::Token;
use v_grammar::{MARKS, table};

fn kinds_of(alloc: Global, tokens: &[Token]) -> Result<Vec<u8>, AllocError>
    ensures { IfOk result (λ v. v.items ≡ kinds_of tokens.now) }
{
    tokens.iter().map(|token| token.kind).collect(alloc)
}

/// The steps of the derivation of these tokens, or the first token with which they begin no text of the grammar. There it is
/// their number where only the end is wrong.
pub fn derive(alloc: Global, tokens: &[Token]) -> Result<Result<Vec<Step>, usize>, AllocError>
    requires { length tokens.now < 2 ^ 32 }
    ensures derived { IfOk result (λ r. IfOk r (λ v. AreSteps tokens.now v.items)) }
    ensures refused { IfOk result (λ r. IfErr r (λ i. Refuses V (kinds_of tokens.now) i)) }
{
    let table = table();
    let kinds = kinds_of(alloc, tokens)?;
    match parse(alloc, &table, &kinds)? {
        Ok(productions) => {
            let placed = places(alloc, &table, &kinds, &productions)?;
            Ok(Ok(steps(alloc, &MARKS, &placed)?))
        }
        Err(token) => Ok(Err(token)),
    }
}
