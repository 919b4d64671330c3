//! From the kinds of the tokens to the productions of their parse tree.

ghost use Rattle.std.specs.Prelude.{◌≡◌, ◌≤◌, ◌++◌, ℕ, List, IfOk, IfErr, length, reverse};
ghost use Rattle.ll_parse.specs.Grammar.{Parses, Refuses};
ghost use Rattle.ll_parse.specs.Tables.{lists_of, grammar_of, most_productions};
ghost use Rattle.ll_parse.specs.Conditions.{IsLl};
ghost use Rattle.ll_parse.specs.Machine.{IsKept, MatchTop};

use crate::table::{FIRST_NONTERMINAL, Table, cell, push_body};
use std::alloc::{AllocError, Global};

/// What lies on top of the stack once no production is left to use.
#[derive(Drop)]
pub enum Top {
    /// A token of this kind has to come.
    Token(u16),
    /// The text has to end.
    End,
    /// A nonterminal that can't begin with the next token.
    Stuck,
}

/// Uses productions on the top of the stack until it is no nonterminal, where the next token is of this kind.
fn expand(
    table: &Table,
    stack: &mut Vec<u16>,
    productions: &mut Vec<u16>,
    kind: u8,
) -> Result<Top, AllocError>
    requires ll { IsLl (lists_of table.now) }
    requires kept { IsKept (lists_of table.now) (reverse stack.old.items) }
    ensures { IfOk result (λ top. (qs : List ℕ) × (productions.new.items ≡ productions.old.items ++ qs) × MatchTop (lists_of table.now) kind (reverse stack.old.items) qs (reverse stack.new.items) top) }
{
    'productions: loop {
        let Some(symbol) = stack.pop() else {
            return Ok(Top::End);
        };
        if symbol < FIRST_NONTERMINAL {
            return Ok(Top::Token(symbol));
        }
        let entry = cell(table, symbol, kind);
        if entry == 0 {
            return Ok(Top::Stuck);
        }
        push_body(table, stack, entry - 1)?;
        productions.push(entry - 1)?;
    }
}

/// The productions of the parse tree of a text whose tokens are of these kinds, in preorder: each before those of the
/// trees below it. `Err` is the first token with which no text of the grammar goes on, or the number of tokens where
/// only the end is wrong.
pub fn parse(
    alloc: Global,
    table: &Table,
    tokens: &[u8],
) -> Result<Result<Vec<u16>, usize>, AllocError>
    requires { IsLl (lists_of table.now) }
    ensures parsed { IfOk result (λ r. IfOk r (λ v. Parses (grammar_of (lists_of table.now)) tokens.now v.items)) }
    // A text has one parse tree.
    ensures only { IfOk result (λ r. IfOk r (λ v. (ps : List ℕ) → Parses (grammar_of (lists_of table.now)) tokens.now ps → ps ≡ v.items)) }
    ensures refused { IfOk result (λ r. IfErr r (λ i. Refuses (grammar_of (lists_of table.now)) tokens.now i)) }
    ensures linear { IfOk result (λ r. IfOk r (λ v. length v.items ≤ most_productions (lists_of table.now) (length tokens.now))) }
{
    let mut stack = Vec::new(alloc);
    stack.push(table.start)?;
    let mut productions = Vec::new(alloc);
    for (i, kind) in tokens.iter().enumerate() {
        match expand(table, &mut stack, &mut productions, *kind)? {
            Top::Token(expected) => {
                if expected != *kind as u16 {
                    return Ok(Err(i));
                }
            }
            Top::End => return Ok(Err(i)),
            Top::Stuck => return Ok(Err(i)),
        }
    }
    match expand(table, &mut stack, &mut productions, 0)? {
        Top::End => Ok(Ok(productions)),
        Top::Token(_) => Ok(Err(tokens.len())),
        Top::Stuck => Ok(Err(tokens.len())),
    }
}

#[cfg(test)]
mod tests {
    use super::*;
    use crate::examples;
    use std::process::Abort;
    use std::test::Fail;

    fn check(
        rt: &(impl Abort + AllocGlobal),
        table: &Table,
        tokens: &[u8],
        expected: Result<&[u16], usize>,
    ) -> Result<(), Fail>
        requires { IsLl (lists_of table.now) }
    {
        match (parse(rt.alloc(), table, tokens)?, expected) {
            (Ok(found), Ok(wanted)) => assert_eq!(rt; found.as_slice(), wanted),
            (Err(found), Err(wanted)) => assert_eq!(rt; found, wanted),
            _ => assert!(rt; false, "{tokens:?}"),
        }
        Ok(())
    }

    #[test]
    fn parentheses_are_read_or_refused_at_the_first_wrong_token(
        rt: HostRuntime,
    ) -> Result<(), Fail> {
        let table = examples::nested();
        check(&rt, &table, &[3], Ok(&[1]))?;
        check(&rt, &table, &[1, 1, 3, 2, 2], Ok(&[0, 0, 1]))?;
        check(&rt, &table, &[], Err(0))?;
        check(&rt, &table, &[2], Err(0))?;
        check(&rt, &table, &[1], Err(1))?;
        check(&rt, &table, &[1, 3], Err(2))?;
        check(&rt, &table, &[1, 3, 3], Err(2))?;
        check(&rt, &table, &[1, 3, 2, 2], Err(3))?;
        check(&rt, &table, &[1, 200], Err(1))?;
        check(&rt, &table, &[3, 0], Err(1))
    }

    #[test]
    fn an_else_belongs_to_the_nearest_if(rt: HostRuntime) -> Result<(), Fail> {
        let table = examples::conditional();
        check(&rt, &table, &[1, 2], Ok(&[0, 1, 3]))?;
        check(&rt, &table, &[1, 1, 2, 3, 2], Ok(&[0, 0, 1, 2, 1, 3]))?;
        check(&rt, &table, &[1, 2, 3, 2, 3, 2], Err(4))?;
        check(&rt, &table, &[1, 2, 3], Err(3))
    }
}
