//! A value of a token by the action.

ghost use Rattle.std.specs.Prelude.{◌≡◌, IfOk};
ghost use Rattle.v_actions.specs.Tokens.{place_in, identifier_at, decimal_at, token_value};

use crate::bytes::bytes_at;
use crate::numbers::{based_number, name_of};
use src_text::Place;
use std::alloc::{AllocError, Global};
use text_scan::Token;
use v_actions::TokenAction;
use v_stack::{TokenValue, Value};
use v_tree::{BinaryOperator, DecimalNumber, Direction, Identifier, UnaryOperator};

fn place_in(places: &[Place], at: usize) -> Place
    ensures { result ≡ place_in places.now at }
{
    match places.get(at) {
        Some(place) => *place,
        None => Place { line: 1, column: 1 },
    }
}

fn identifier_at(
    alloc: Global,
    text: &[u8],
    tokens: &[Token],
    places: &[Place],
    at: usize,
) -> Result<Identifier, AllocError>
    ensures { IfOk result (λ name. name ≡ identifier_at (record { text = text.now; tokens = tokens.now; places = places.now }) at) }
{
    let name = name_of(alloc, bytes_at(text, tokens, at))?;
    Ok(Identifier {
        place: place_in(places, at),
        name,
    })
}

fn decimal_at(
    alloc: Global,
    text: &[u8],
    tokens: &[Token],
    places: &[Place],
    at: usize,
) -> Result<DecimalNumber, AllocError>
    ensures { IfOk result (λ number. number ≡ decimal_at (record { text = text.now; tokens = tokens.now; places = places.now }) at) }
{
    let digits = name_of(alloc, bytes_at(text, tokens, at))?;
    Ok(DecimalNumber {
        place: place_in(places, at),
        digits,
    })
}

/// The value that an action makes of token `at`. `places` has the place of each token.
pub fn token_value(
    alloc: Global,
    text: &[u8],
    tokens: &[Token],
    places: &[Place],
    action: TokenAction,
    at: usize,
) -> Result<Value, AllocError>
    ensures { IfOk result (λ value. value ≡ token_value (record { text = text.now; tokens = tokens.now; places = places.now }) action at) }
{
    let place = place_in(places, at);
    Ok(Value::Token(match action {
        TokenAction::Place => TokenValue::Place(place),
        TokenAction::Name => TokenValue::Name(identifier_at(alloc, text, tokens, places, at)?),
        TokenAction::Declared => {
            TokenValue::Declared(identifier_at(alloc, text, tokens, places, at)?)
        }
        TokenAction::Decimal => TokenValue::Decimal(decimal_at(alloc, text, tokens, places, at)?),
        TokenAction::Based => {
            TokenValue::Based(based_number(alloc, place, bytes_at(text, tokens, at))?)
        }
        TokenAction::Direction(kind) => TokenValue::Direction(Direction { place, kind }),
        TokenAction::Unary(op) => TokenValue::UnaryOperator(UnaryOperator { place, op }),
        TokenAction::Binary(op) => TokenValue::BinaryOperator(BinaryOperator { place, op }),
    }))
}
