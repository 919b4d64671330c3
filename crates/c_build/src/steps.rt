//! The loop over the steps of a derivation.

ghost use Rattle.std.specs.Prelude.{◌≡◌, ◌+◌, ◌-◌, ◌^◌, ◌<◌, ◌≤◌, [], ◌∷◌, IfOk, Some, length, map, reverse, slice_index_or};
ghost use Rattle.std.specs.List.{All};
ghost use Rattle.src_text.specs.Place.{place_at};
ghost use Rattle.c_tokens.specs.Reading.{IsTokenOf};
ghost use Rattle.c_tokens.specs.declared.directives.CToken.{CToken};
ghost use Rattle.c_stack.specs.Values.{Fits};
ghost use Rattle.c_stack.specs.declared.values.Value.TheVariants as value;
ghost use Rattle.c_stack.specs.declared.values.FileValue.TheVariants as file_value;
ghost use Rattle.c_actions.specs.Reading.{BuildsTree, built, spelling, token_before};
ghost use Rattle.c_build.specs.Sources.{FIRST, IsRead, after_step};

use crate::dispatch::act;
use c_actions::action_of;
use c_stack::{Value, take_tree};
use c_tokens::CToken;
use c_tree::CTree;
use ll_actions::Step;
use src_text::{Place, place_of};
use std::alloc::{AllocError, Global};

/// A text with its tokens, the place of each, and the place after its last byte.
#[derive(Clone, Copy)]
struct Source<'t> {
    text: &'t [u8],
    tokens: &'t [CToken],
    places: &'t [Place],
    end: Place,
}

/// The token right before which `token` tokens come, less one.
fn token_before(tokens: &[CToken], token: u32) -> CToken
    ensures { result ≡ token_before tokens.now token }
{
    match tokens.get(token.saturating_sub(1) as usize) {
        Some(before) => *before,
        None => CToken {
            kind: 0,
            at: 0,
            start: 0,
            len: 0,
        },
    }
}

/// The place of that token.
fn place_before(places: &[Place], token: u32) -> Place
    ensures { result ≡ slice_index_or places.now (token - 1) FIRST }
{
    match places.get(token.saturating_sub(1) as usize) {
        Some(before) => *before,
        None => Place { line: 1, column: 1 },
    }
}

/// The bytes that spell a token.
fn spelling<'t>(text: &'t [u8], token: CToken) -> &'t [u8]
    requires { token.start + token.len ≤ length text.now }
    ensures { result.now ≡ spelling text.now token }
{
    let start = token.start as usize;
    &text[start..start + token.len as usize]
}

fn starts_of(alloc: Global, tokens: &[CToken]) -> Result<Vec<u32>, AllocError>
    ensures { IfOk result (λ v. v.items ≡ map (λ (t : CToken). t.at) tokens.now) }
{
    tokens.iter().map(|token| token.at).collect(alloc)
}

/// The places of all tokens.
fn places_of(alloc: Global, text: &[u8], tokens: &[CToken]) -> Result<Vec<Place>, AllocError>
    requires short { length text.now + 1 < 2 ^ 32 }
    requires tokens { All (IsTokenOf text.now) tokens.now }
    ensures { IfOk result (λ v. v.items ≡ map (λ (t : CToken). place_at text.now t.at) tokens.now) }
{
    let starts = starts_of(alloc, tokens)?;
    token_places::places(alloc, text, &starts)
}

/// Carries out the action of a step.
fn act_step(
    alloc: Global,
    stack: &mut Vec<Value>,
    source: &Source<'_>,
    step: Step,
) -> Result<bool, AllocError>
    requires { IsRead source.now }
    ensures { IfOk result (λ fits. Fits fits (reverse stack.new.items) (after_step source.now.text.now source.now.tokens.now step (reverse stack.old.items))) }
{
    let token = token_before(source.tokens, step.token);
    let place = place_before(source.places, step.token);
    let spelled = spelling(source.text, token);
    act(
        alloc,
        stack,
        action_of(step.action),
        source.end,
        place,
        spelled,
    )
}

/// The stack that the steps leave.
fn run(alloc: Global, source: &Source<'_>, steps: &[Step]) -> Result<Vec<Value>, AllocError>
    requires read { IsRead source.now }
    requires builds { BuildsTree (built source.now.text.now source.now.tokens.now steps.now []) }
    ensures { IfOk result (λ stack. built source.now.text.now source.now.tokens.now steps.now [] ≡ Some (reverse stack.items)) }
{
    let mut stack = Vec::new(alloc);
    for step in steps {
        let fits = act_step(alloc, &mut stack, source, *step)?;
        if !fits {
            unreachable!()
        }
    }
    Ok(stack)
}

/// The tree that the steps build of the tokens of a text of fewer than 2^32 - 1 bytes. They have to build one, as the steps of
/// a derivation do (`tree_law` of `c_actions`).
pub fn build(
    alloc: Global,
    text: &[u8],
    tokens: &[CToken],
    steps: &[Step],
) -> Result<CTree, AllocError>
    requires short { length text.now + 1 < 2 ^ 32 }
    requires tokens { All (IsTokenOf text.now) tokens.now }
    requires builds { BuildsTree (built text.now tokens.now steps.now []) }
    ensures { IfOk result (λ tree. built text.now tokens.now steps.now [] ≡ Some (value.File (file_value.Tree tree) ∷ [])) }
{
    let places = places_of(alloc, text, tokens)?;
    let source = Source {
        text,
        tokens,
        places: &places,
        end: place_of(text, text.len()),
    };
    let mut stack = run(alloc, &source, steps)?;
    match take_tree(&mut stack) {
        Some(tree) => Ok(tree),
        None => unreachable!(),
    }
}
