//! The loop over the steps of a derivation.

ghost use Rattle.std.specs.Prelude.{◌≡◌, ◌+◌, ◌^◌, ◌<◌, [], ◌∷◌, IfOk, Some, length, map, reverse};
ghost use Rattle.std.specs.List.{All};
ghost use Rattle.text_scan.specs.declared.scanner.Token.{Token};
ghost use Rattle.v_stack.specs.Values.{Fits};
ghost use Rattle.v_stack.specs.declared.values.Value.TheVariants as value;
ghost use Rattle.v_stack.specs.declared.values.ModuleValue.TheVariants as module_value;
ghost use Rattle.v_actions.specs.Acts.{act, after_action, built};
ghost use Rattle.v_actions.specs.Reading.{BuildsTree, places_of};
ghost use Rattle.v_actions.specs.declared.actions.Action.TheVariants as action_of_kind;
ghost use Rattle.v_build.specs.Sources.{IsInside, lexemes_of, read_as};

use crate::connections::act_connect;
use crate::declarations::act_declare;
use crate::expressions::act_expr;
use crate::modules::act_module;
use crate::statements::act_stmt;
use ll_actions::Step;
use src_text::Place;
use std::alloc::{AllocError, Global};
use text_scan::Token;
use v_actions::{Action, TokenAction, action_of};
use v_make_expressions::token_value;
use v_stack::{Value, put, take_source};
use v_tree::VTree;

/// A text with its tokens and the place of each.
#[derive(Clone, Copy)]
struct Source<'t> {
    text: &'t [u8],
    tokens: &'t [Token],
    places: &'t [Place],
}

/// Makes a value of the token right before an action.
fn act_token(
    alloc: Global,
    stack: &mut Vec<Value>,
    source: &Source<'_>,
    action: TokenAction,
    token: u32,
) -> Result<bool, AllocError>
    ensures { IfOk result (λ fits. Fits fits (reverse stack.new.items) (after_action (lexemes_of source.now) (action_of_kind.Token action) token (reverse stack.old.items))) }
{
    let Source {
        text,
        tokens,
        places,
    } = *source;
    let at = token.saturating_sub(1) as usize;
    let value = token_value(alloc, text, tokens, places, action, at)?;
    put(stack, value)?;
    Ok(true)
}

/// Carries out the action of a step. `false` says that the values that it takes are not on top of the stack; the stack is
/// then of no more use.
fn act(
    alloc: Global,
    stack: &mut Vec<Value>,
    source: &Source<'_>,
    step: Step,
) -> Result<bool, AllocError>
    ensures { IfOk result (λ fits. Fits fits (reverse stack.new.items) (act (lexemes_of source.now) step (reverse stack.old.items))) }
{
    match action_of(step.action) {
        Action::Token(action) => act_token(alloc, stack, source, action, step.token),
        Action::Expression(action) => act_expr(alloc, stack, action),
        Action::Statement(action) => act_stmt(alloc, stack, action),
        Action::Declaration(action) => act_declare(alloc, stack, action),
        Action::Connection(action) => act_connect(alloc, stack, action),
        Action::Module(action) => act_module(alloc, stack, action),
    }
}

/// The stack that the steps leave.
fn run(alloc: Global, source: &Source<'_>, steps: &[Step]) -> Result<Vec<Value>, AllocError>
    requires builds { BuildsTree (built (lexemes_of source.now) steps.now []) }
    ensures { IfOk result (λ stack. built (lexemes_of source.now) steps.now [] ≡ Some (reverse stack.items)) }
{
    let mut stack = Vec::new(alloc);
    for step in steps {
        let fits = act(alloc, &mut stack, source, *step)?;
        if !fits {
            unreachable!()
        }
    }
    Ok(stack)
}

/// The tree that the steps build of what is read.
fn build_of(alloc: Global, source: &Source<'_>, steps: &[Step]) -> Result<VTree, AllocError>
    requires builds { BuildsTree (built (lexemes_of source.now) steps.now []) }
    ensures { IfOk result (λ tree. built (lexemes_of source.now) steps.now [] ≡ Some (value.Module (module_value.Source tree) ∷ [])) }
{
    let mut stack = run(alloc, source, steps)?;
    match take_source(&mut stack) {
        Some(tree) => Ok(tree),
        None => unreachable!(),
    }
}

fn starts_of(alloc: Global, tokens: &[Token]) -> Result<Vec<u32>, AllocError>
    ensures { IfOk result (λ v. v.items ≡ map (λ (t : Token). t.start) tokens.now) }
{
    tokens.iter().map(|token| token.start).collect(alloc)
}

/// The places of all tokens.
fn places_of(alloc: Global, text: &[u8], tokens: &[Token]) -> Result<Vec<Place>, AllocError>
    requires short { length text.now + 1 < 2 ^ 32 }
    requires inside { All (IsInside text.now) tokens.now }
    ensures { IfOk result (λ v. v.items ≡ places_of text.now tokens.now) }
{
    let starts = starts_of(alloc, tokens)?;
    token_places::places(alloc, text, &starts)
}

/// The tree that the steps build of a text of fewer than 2^32 - 1 bytes that is read as these tokens. They have to build
/// one, as the steps of a derivation do (`tree_law` of `v_actions`).
pub fn build(
    alloc: Global,
    text: &[u8],
    tokens: &[Token],
    steps: &[Step],
) -> Result<VTree, AllocError>
    requires short { length text.now + 1 < 2 ^ 32 }
    requires inside { All (IsInside text.now) tokens.now }
    requires builds { BuildsTree (built (read_as text.now tokens.now) steps.now []) }
    ensures { IfOk result (λ tree. built (read_as text.now tokens.now) steps.now [] ≡ Some (value.Module (module_value.Source tree) ∷ [])) }
{
    let places = places_of(alloc, text, tokens)?;
    let source = Source {
        text,
        tokens,
        places: &places,
    };
    build_of(alloc, &source, steps)
}
