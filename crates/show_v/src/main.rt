//! Prints what is read of worked texts, as the grammar of the Verilog profile has it: `show_v FILE..` reads each file, and
//! then texts of its own. What it has to print was worked out by hand.
#![tactic(auto)]

ghost use Rattle.std.specs.Prelude.{◌+◌, ◌^◌, ◌<◌, length};

use io_edge::{RealFiles, read_all};
use src_text::Refusal;
use std::alloc::{AllocError, Global};
use std::{env, io};
use v_parse::{ParseEnd, parse_v};
use v_tree::VTree;

/// The pairs of parentheses that are too deep.
const PAIRS: usize = 500_000;

const ROWS: [&str; 23] = [
    "",
    "module m(input a;",
    "module m(a, input b);",
    "module m; endmodule x",
    "module m",
    "module m(); endmodule module n; endmodule",
    "module m(a, b); input [3:0] a; output reg signed b; endmodule",
    "module m(input signed [1:0] a, b, output reg c = 1); endmodule",
    "module m #(parameter W = 8, V = 2, parameter signed [3:0] S = 1)(); endmodule",
    "module m; localparam A = 12, B = 'hf, C = 4'b1x_z?, D = 8 'sh 7F, E = 'd 9; endmodule",
    "module m; wire x = a[3], y = a[7:0], z = a[i +: 4], w = a[i -: 4]; endmodule",
    "module m; wire x = {a, b, 2'd1}, y = {4{a, b}}, z = {{2{a}}, b}; endmodule",
    "module m; wire x = a + b * c - d, y = a ? b : c ? d : e; endmodule",
    "module m; wire x = a | b ^ c & d == e < f << g, y = a || b && c; endmodule",
    "module m; wire x = ~&a & !b, y = -(a - b) - c, z = $signed(a) + $unsigned(b); endmodule",
    "module m; sub u(x, y), v(), w(.a(x), .b()); endmodule",
    "module m; sub #(8) u(x); sub #(.W(8)) v(x); endmodule",
    "module m; reg [7:0] a = 1, t [0:2]; integer i, j; parameter P = 1; endmodule",
    "module m; always @* if (a) if (b) x = 1; else x = 2; endmodule",
    "module m; always @(a or b, c) begin : named {x, y[1]} <= a; ; end endmodule",
    "module m; always @(*) for (i = 0; i < 4; i = i + 1) t[i] = 0; endmodule",
    "module m; always @(posedge c) casez (a) 2'b1?, 0: x = 1; default x = 2; endcase endmodule",
    "`timescale 1ns/1ps\nmodule m; // a comment\n /* and\n another */ assign x = 1, y = 2; endmodule",
];

/// The tree of a text, or its refusal. A text of 2^30 bytes or more is none.
fn read(alloc: Global, text: &[u8]) -> Result<Option<Result<VTree, Refusal>>, AllocError> {
    if text.len() >= 1 << 30 {
        return Ok(None);
    }
    match parse_v(alloc, text) {
        Ok(tree) => Ok(Some(Ok(tree))),
        Err(ParseEnd::Refused(refusal)) => Ok(Some(Err(refusal))),
        Err(ParseEnd::Memory) => Err(AllocError),
    }
}

/// Prints what comes of a text.
fn report<R: Print + AllocGlobal>(rt: &R, name: &str, text: &[u8]) -> io::Result<()> {
    match read(rt.alloc(), text)? {
        Some(Ok(_tree)) => println!(rt; "{name}: read"),
        Some(Err(Refusal { place, kind, .. })) => {
            let why = kind.text();
            println!(rt; "{name}: {why} at {}:{}", place.line, place.column)
        }
        None => println!(rt; "{name}: too long"),
    }
}

/// `module m; wire w = `, opening parentheses, `1`, closing ones, and `; endmodule`.
fn nested(alloc: Global, opened: usize, closed: usize) -> Result<String, AllocError> {
    let mut text = String::from_str(alloc, "module m; wire w = ")?;
    for _ in 0..opened {
        text.push_str("(")?;
    }
    text.push_str("1")?;
    for _ in 0..closed {
        text.push_str(")")?;
    }
    text.push_str("; endmodule")?;
    Ok(text)
}

fn report_file(rt: &HostRuntime, name: &str) -> io::Result<()> {
    let mut files = RealFiles::new(rt.clone()?);
    let Ok(text) = read_all(rt.alloc(), &mut files, name) else {
        return println!(rt; "{name}: not there");
    };
    report(rt, name, &text)
}

fn main(rt: HostRuntime) -> io::Result<()> {
    for name in env::args(&rt)?.skip(1) {
        report_file(&rt, name.as_str())?;
    }
    for row in ROWS {
        let name = format!(in rt.alloc(); "{row:?}")?;
        report(&rt, name.as_str(), row.as_bytes())?;
    }
    for (opened, closed) in [
        (251, 251),
        (252, 252),
        (300, 300),
        (PAIRS, PAIRS),
        (PAIRS, 0),
    ] {
        let text = nested(rt.alloc(), opened, closed)?;
        let name = format!(in rt.alloc(); "{opened} open, {closed} closed")?;
        report(&rt, name.as_str(), text.as_bytes())?;
    }
    Ok(())
}
