//! The tokens of small Verilog texts, a line for each text. A token stands as it is spelled, behind `id`, `dec` or `based`
//! if it is a name or a number, behind `reserved` if it is a keyword that the profile has no use for, and behind `stray`
//! if it is none.
#![tactic(auto)]

use std::io;
use text_scan::{STRAY, Token, tokens_of};
use v_tokens::{TokenKind, Verilog};

static TEXTS: [&str; 30] = [
    "",
    "module m; endmodule",
    "a$b _c A9 modules",
    "9_9 0 1__",
    "8'hFf_0",
    "4 'b1",
    "'sb 1x_z?",
    "'SO\t7 'Bz",
    "'d1x",
    "'b12",
    "'hg",
    "'d_1",
    "'",
    "a<<<=b",
    "a>>>b>>c>=d>e",
    "~&&x",
    "~||~^^~^",
    "a!==b",
    "a===b",
    "$signed(x)$unsignedy",
    "$display",
    "m[3+:2]-:q",
    ".a(b),#@{;}?:",
    "`timescale 1ns/1ps\nwire w;",
    " /* c */ `default_nettype none\nx",
    "x `timescale 1",
    "/* a */ // b\n c /**/d",
    "x /* open",
    "casex wait signed or",
    "a-b*c/d%e!f&g|h^i",
];

/// The word before a token of this kind, if it needs one.
fn label(kind: u8) -> &'static str {
    if kind == TokenKind::Identifier as u8 {
        "id "
    } else if kind == TokenKind::Decimal as u8 {
        "dec "
    } else if kind == TokenKind::Based as u8 {
        "based "
    } else if kind == TokenKind::Reserved as u8 {
        "reserved "
    } else if kind == STRAY {
        "stray "
    } else {
        ""
    }
}

/// The bytes of a token as text.
fn spelling<'a>(text: &'a str, token: &Token) -> &'a str {
    let start = token.start as usize;
    let end = start.saturating_add(token.len as usize);
    text.get(start..end).unwrap_or("")
}

fn print_tokens<R: Print + AllocGlobal>(rt: &R, text: &str) -> io::Result<()> {
    if text.len() > 1 << 20 {
        return Ok(());
    }
    for (i, token) in tokens_of(rt.alloc(), &Verilog, text.as_bytes())?
        .iter()
        .enumerate()
    {
        if i > 0 {
            print!(rt; " | ")?;
        }
        print!(rt; "{}{}", label(token.kind), spelling(text, token))?;
    }
    println!(rt; "")
}

fn main(rt: HostRuntime) -> io::Result<()> {
    for text in TEXTS {
        print_tokens(&rt, text)?;
    }
    Ok(())
}
