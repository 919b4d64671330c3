//! Prints the grammars of both profiles as the readers' tables hold them, without the actions.
#![tactic(auto)]

mod words;

use ll_parse::Table;
use std::io;
use words::{C_NAMES, C_TOKENS, VERILOG_NAMES, VERILOG_TOKENS};

/// A symbol from here on is a nonterminal, any other one a kind of token.
const FIRST_NONTERMINAL: u16 = 256;

/// The words for the symbols of a grammar; an action has none.
#[derive(Drop)]
struct Names {
    /// Those of the kinds of token, from kind 1 on.
    tokens: &'static [&'static str],
    nonterminals: &'static [&'static str],
}

impl Names {
    fn word(&self, symbol: u16) -> Option<&'static str> {
        if symbol >= FIRST_NONTERMINAL {
            let place = (symbol - FIRST_NONTERMINAL) as usize;
            return self.nonterminals.get(place).copied();
        }
        let place = symbol.checked_sub(1)? as usize;
        self.tokens.get(place).copied()
    }
}

/// The symbols of a production's body, or none where there is no such production.
fn body(table: &Table, production: usize) -> &'static [u16] {
    let Some(end) = production.checked_add(1) else {
        return &[];
    };
    match (table.bodies.get(production), table.bodies.get(end)) {
        (Some(from), Some(to)) => table
            .symbols
            .get(*from as usize..*to as usize)
            .unwrap_or(&[]),
        _ => &[],
    }
}

/// Prints the words of a body, or that it has none.
fn print_body<R: Print>(rt: &R, names: &Names, body: &[u16]) -> io::Result<()> {
    let mut is_empty = true;
    for symbol in body {
        if let Some(word) = names.word(*symbol) {
            print!(rt; " {word}")?;
            is_empty = false;
        }
    }
    if is_empty {
        print!(rt; " nothing")?;
    }
    Ok(())
}

/// Prints the productions, a line for each nonterminal that is no action.
fn print_grammar<R: Print>(rt: &R, table: &Table, names: &Names) -> io::Result<()> {
    let mut last = 0;
    for (production, head) in table.heads.iter().enumerate() {
        let Some(name) = names.word(*head) else {
            continue;
        };
        if *head == last {
            print!(rt; " |")?;
        } else {
            print!(rt; "\n{name} =")?;
        }
        last = *head;
        print_body(rt, names, body(table, production))?;
        if let Some(barred) = table.not_before.get(production) {
            if let Some(word) = names.word(*barred) {
                print!(rt; " (not before {word})")?;
            }
        }
    }
    println!(rt; "")
}

fn main(rt: HostRuntime) -> io::Result<()> {
    let c = Names {
        tokens: &C_TOKENS,
        nonterminals: &C_NAMES,
    };
    let verilog = Names {
        tokens: &VERILOG_TOKENS,
        nonterminals: &VERILOG_NAMES,
    };
    print!(rt; "The C profile\n")?;
    print_grammar(&rt, &c_grammar::table(), &c)?;
    print!(rt; "\nThe Verilog profile\n")?;
    print_grammar(&rt, &v_grammar::table(), &verilog)
}
