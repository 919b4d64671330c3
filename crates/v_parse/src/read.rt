//! The tree of a text, or its refusal.

ghost use Rattle.std.specs.Prelude.{◌≡◌, ◌+◌, ◌^◌, ◌<◌, IfErr, IfOk, length};
ghost use Rattle.std.specs.List.{All};
ghost use Rattle.v_actions.specs.Reading.{tokens_in};
ghost use Rattle.v_parse.specs.declared.read.ParseEnd.TheVariants as ends;
ghost use Rattle.v_build.specs.Sources.{IsInside};
ghost use Rattle.v_depth.specs.Depth.{place_of_token};
ghost use Rattle.v_parse.specs.Ends.{AreSteps, EndsAt, HasTree, refusal_at};

use crate::lexemes::{place_of_token, tokens_in};
use crate::tokens::derive;
use ll_actions::Step;
use node_depth::too_deep;
use src_text::{Kind, Lang, Refusal};
use std::alloc::{AllocError, Global};
use text_scan::Token;
use v_build::build;
use v_grammar::WEAVES;
use v_tree::VTree;

/// How deep a node may stand: the source text stands 1 deep, and each other node one deeper than the one that it stands in.
pub const LIMIT: u16 = 256;

/// Why a text has no tree that is built.
#[derive(Debug, Drop)]
pub enum ParseEnd {
    /// The text is refused.
    Refused(Refusal),
    /// Memory was refused.
    Memory,
}

impl From<AllocError> for ParseEnd {
    ghost use Rattle.v_parse.specs.declared.read.ParseEnd.TheVariants as ends;

    ghost from_gives = { λ _ e. e ≡ ends.Memory };

    fn from(_want: AllocError) -> ParseEnd {
        ParseEnd::Memory
    }
}

/// A refusal at a token, or after the last byte where there is none.
fn refusal(text: &[u8], tokens: &[Token], token: usize, kind: Kind) -> ParseEnd
    requires short { length text.now + 1 < 2 ^ 32 }
    requires within { All (IsInside text.now) tokens.now }
    ensures { result ≡ ends.Refused (refusal_at (place_of_token text.now tokens.now token) kind) }
{
    ParseEnd::Refused(Refusal {
        lang: Lang::V,
        place: place_of_token(text, tokens, token),
        kind,
    })
}

/// The tree of a text from the steps of its derivation, or its refusal as too deep.
fn judge(alloc: Global, text: &[u8], tokens: &[Token], steps: &[Step]) -> Result<VTree, ParseEnd>
    requires short { length text.now + 1 < 2 ^ 32 }
    requires tokens { tokens.now ≡ tokens_in text.now }
    requires within { All (IsInside text.now) tokens.now }
    requires derived { AreSteps tokens.now steps.now }
    ensures read { IfOk result (λ tree. HasTree text.now tree) }
    ensures refused { IfErr result (λ end. EndsAt text.now end) }
{
    match too_deep(alloc, &WEAVES, steps, LIMIT)? {
        Some(token) => Err(refusal(text, tokens, token as usize, Kind::TooDeep)),
        None => Ok(build(alloc, text, tokens, steps)?),
    }
}

/// The tree of a Verilog text of fewer than 2^32 - 1 bytes, or why there is none.
///
/// It is refused for its syntax at the first token with which the tokens so far begin no text of the grammar, or after its
/// last byte where only the end is wrong; and as too deep where it has a tree, at the first node that stands deeper than
/// [`LIMIT`]. The tree is the only one that the text has.
pub fn parse_v(alloc: Global, text: &[u8]) -> Result<VTree, ParseEnd>
    requires { length text.now + 1 < 2 ^ 32 }
    ensures read { IfOk result (λ tree. HasTree text.now tree) }
    ensures refused { IfErr result (λ end. EndsAt text.now end) }
{
    let tokens = tokens_in(alloc, text)?;
    match derive(alloc, &tokens)? {
        Ok(steps) => judge(alloc, text, &tokens, &steps),
        Err(token) => Err(refusal(text, &tokens, token, Kind::Syntax)),
    }
}
