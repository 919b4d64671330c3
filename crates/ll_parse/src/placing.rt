//! Where in the text each production of a parse tree begins.

ghost use Rattle.std.specs.Prelude.{◌^◌, ◌≡◌, ◌<◌, [], ◌∷◌, IfOk, length, reverse};
ghost use Rattle.ll_parse.specs.Grammar.{Parses};
ghost use Rattle.ll_parse.specs.Tables.{lists_of, grammar_of};
ghost use Rattle.ll_parse.specs.Conditions.{IsLl};
ghost use Rattle.ll_parse.specs.Places.{place_of, below, placed};

use crate::table::{FIRST_NONTERMINAL, Table, push_body};
use std::alloc::{AllocError, Global};

/// A production of a parse tree, and how many tokens come before what it stands for.
#[derive(Clone, Copy)]
pub struct Placed {
    pub production: u16,
    pub place: u32,
}

/// Takes the stack's tokens down to its first nonterminal, and that one too.
fn next_place(stack: &mut Vec<u16>, place: u32) -> u32
    requires { place_of place (reverse stack.old.items) < 2 ^ 32 }
    ensures place { result ≡ place_of place (reverse stack.old.items) }
    ensures rest { reverse stack.new.items ≡ below (reverse stack.old.items) }
{
    let mut at = place;
    'tokens: loop {
        let Some(symbol) = stack.pop() else {
            return at;
        };
        if symbol >= FIRST_NONTERMINAL {
            return at;
        }
        at += 1;
    }
}

/// The productions of the parse tree of these tokens, each with its place.
pub fn places(
    alloc: Global,
    table: &Table,
    tokens: &[u8],
    productions: &[u16],
) -> Result<Vec<Placed>, AllocError>
    requires ll { IsLl (lists_of table.now) }
    requires parses { Parses (grammar_of (lists_of table.now)) tokens.now productions.now }
    requires short { length tokens.now < 2 ^ 32 }
    ensures { IfOk result (λ v. v.items ≡ placed (grammar_of (lists_of table.now)) 0 ((lists_of table.now).start ∷ []) productions.now) }
{
    let mut stack = Vec::new(alloc);
    stack.push(table.start)?;
    let mut placed = Vec::new(alloc);
    let mut place = 0;
    for production in productions {
        place = next_place(&mut stack, place);
        push_body(table, &mut stack, *production)?;
        placed.push(Placed {
            production: *production,
            place,
        })?;
    }
    Ok(placed)
}
