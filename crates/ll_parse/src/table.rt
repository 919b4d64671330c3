//! Grammars as tables.

ghost use Rattle.std.specs.Prelude.{◌≡◌, ◌<◌, ◌≤◌, ◌++◌, IfOk, length, reverse};
ghost use Rattle.ll_parse.specs.Tables.{lists_of, grammar_of, cell_of};
ghost use Rattle.ll_parse.specs.Conditions.{IsLl};

use std::alloc::AllocError;

/// A symbol from here on is a nonterminal, any other one a kind of token.
pub const FIRST_NONTERMINAL: u16 = 256;

/// A grammar, and the production to use for each nonterminal before each kind of token.
///
/// The kinds of token that have a column are those below 128. Kind 0 stands for the end of the text.
#[derive(Clone, Copy)]
pub struct Table {
    /// The nonterminal that a whole text stands for.
    pub start: u16,
    /// The nonterminal of each production.
    pub heads: &'static [u16],
    /// Production p has the symbols from `bodies[p]` up to `bodies[p + 1]`.
    pub bodies: &'static [u16],
    /// The symbols of all bodies.
    pub symbols: &'static [u16],
    /// The kind of token before which the production isn't used; 255 for none.
    pub not_before: &'static [u16],
    /// For each nonterminal, one more than the production to use before each kind, or 0.
    pub rows: &'static [[u16; 128]],

    /// For proofs alone: 1 for the kinds that may follow each nonterminal.
    pub follows: &'static [[u8; 128]],
    /// For proofs alone: a production by which each nonterminal comes to an end.
    pub witnesses: &'static [u16],
    /// For proofs alone: nonterminals in the body of a witness have a lower rank than its head.
    pub ranks: &'static [u16],
    /// For proofs alone: how many productions each nonterminal may use besides those that its tokens pay for.
    pub costs: &'static [u16],
    /// For proofs alone: which nonterminals may stand for nothing.
    pub nullable: &'static [bool],
    /// For proofs alone: how many productions each token pays for.
    pub per_token: u16,
}

/// One more than the production to use for the nonterminal before a token of this kind, or 0.
pub fn cell(table: &Table, nonterminal: u16, kind: u8) -> u16
    requires { 256 ≤ nonterminal }
    ensures { result ≡ cell_of (lists_of table.now) nonterminal kind }
{
    match table.rows.get((nonterminal - FIRST_NONTERMINAL) as usize) {
        Some(row) => {
            match row.get(kind as usize) {
                Some(entry) => *entry,
                None => 0,
            }
        }
        None => 0,
    }
}

/// Puts the body of a production onto the stack, its first symbol on top.
pub fn push_body(table: &Table, stack: &mut Vec<u16>, production: u16) -> Result<(), AllocError>
    requires ll { IsLl (lists_of table.now) }
    requires production { production < length table.now.heads.now }
    ensures { IfOk result (λ _. stack.new.items ≡ stack.old.items ++ reverse ((grammar_of (lists_of table.now)).body production)) }
{
    let from = table.bodies[production as usize] as usize;
    let to = table.bodies[production as usize + 1] as usize;
    for symbol in table.symbols[from..to].iter().copied().rev() {
        stack.push(symbol)?;
    }
    Ok(())
}
