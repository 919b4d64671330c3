//! Two small grammars and their tables, for tests and benchmarks: nested parentheses, and conditionals with an `else`
//! that belongs to the nearest `if`. A third table isn't LL(1).

ghost use Rattle.std.specs.Prelude.{◌≡◌, false};
ghost use Rattle.ll_parse.specs.Tables.{lists_of};
ghost use Rattle.ll_parse.specs.Conditions.{IsLl};
ghost use Rattle.ll_parse.specs.Test.{is_ll};
ghost use Rattle.ll_parse.specs.Examples.{NESTED, CONDITIONAL};

use crate::table::Table;

// 0: Text = ( Text )
// 1: Text = x
// the start symbol is 256, and each token pays for 1 productions
static NESTED_HEADS: [u16; 2] = [256, 256];

static NESTED_BODIES: [u16; 3] = [0, 3, 4];

static NESTED_SYMBOLS: [u16; 4] = [1, 256, 2, 3];

static NESTED_NOT_BEFORE: [u16; 2] = [255, 255];

static NESTED_ROWS: [[u16; 128]; 1] = [[
    0, 1, 0, 2, 0, 0, 0, 0, 0, 0, 0, 0, 0, 0, 0, 0, 0, 0, 0, 0, 0, 0, 0, 0, 0, 0, 0, 0, 0, 0, 0, 0,
    0, 0, 0, 0, 0, 0, 0, 0, 0, 0, 0, 0, 0, 0, 0, 0, 0, 0, 0, 0, 0, 0, 0, 0, 0, 0, 0, 0, 0, 0, 0, 0,
    0, 0, 0, 0, 0, 0, 0, 0, 0, 0, 0, 0, 0, 0, 0, 0, 0, 0, 0, 0, 0, 0, 0, 0, 0, 0, 0, 0, 0, 0, 0, 0,
    0, 0, 0, 0, 0, 0, 0, 0, 0, 0, 0, 0, 0, 0, 0, 0, 0, 0, 0, 0, 0, 0, 0, 0, 0, 0, 0, 0, 0, 0, 0, 0,
]];

static NESTED_FOLLOWS: [[u8; 128]; 1] = [[
    1, 0, 1, 0, 0, 0, 0, 0, 0, 0, 0, 0, 0, 0, 0, 0, 0, 0, 0, 0, 0, 0, 0, 0, 0, 0, 0, 0, 0, 0, 0, 0,
    0, 0, 0, 0, 0, 0, 0, 0, 0, 0, 0, 0, 0, 0, 0, 0, 0, 0, 0, 0, 0, 0, 0, 0, 0, 0, 0, 0, 0, 0, 0, 0,
    0, 0, 0, 0, 0, 0, 0, 0, 0, 0, 0, 0, 0, 0, 0, 0, 0, 0, 0, 0, 0, 0, 0, 0, 0, 0, 0, 0, 0, 0, 0, 0,
    0, 0, 0, 0, 0, 0, 0, 0, 0, 0, 0, 0, 0, 0, 0, 0, 0, 0, 0, 0, 0, 0, 0, 0, 0, 0, 0, 0, 0, 0, 0, 0,
]];

static NESTED_WITNESSES: [u16; 1] = [1];

static NESTED_RANKS: [u16; 1] = [1];

static NESTED_COSTS: [u16; 1] = [1];

static NESTED_NULLABLE: [bool; 1] = [false];

/// `Text = "(" Text ")" | "x"`, where `(` has kind 1, `)` 2 and `x` 3.
pub fn nested() -> Table
    ensures is { lists_of result ≡ NESTED }
    ensures ll { IsLl (lists_of result) }
{
    Table {
        start: 256,
        heads: &NESTED_HEADS,
        bodies: &NESTED_BODIES,
        symbols: &NESTED_SYMBOLS,
        not_before: &NESTED_NOT_BEFORE,
        rows: &NESTED_ROWS,
        follows: &NESTED_FOLLOWS,
        witnesses: &NESTED_WITNESSES,
        ranks: &NESTED_RANKS,
        costs: &NESTED_COSTS,
        nullable: &NESTED_NULLABLE,
        per_token: 1,
    }
}

// 0: Statement = if Statement Else
// 1: Statement = x
// 2: Else = else Statement
// 3: Else =  (not before else)
// the start symbol is 256, and each token pays for 2 productions
static CONDITIONAL_HEADS: [u16; 4] = [256, 256, 257, 257];

static CONDITIONAL_BODIES: [u16; 5] = [0, 3, 4, 6, 6];

static CONDITIONAL_SYMBOLS: [u16; 6] = [1, 256, 257, 2, 3, 256];

static CONDITIONAL_NOT_BEFORE: [u16; 4] = [255, 255, 255, 3];

static CONDITIONAL_ROWS: [[u16; 128]; 2] = [
    [
        0, 1, 2, 0, 0, 0, 0, 0, 0, 0, 0, 0, 0, 0, 0, 0, 0, 0, 0, 0, 0, 0, 0, 0, 0, 0, 0, 0, 0, 0,
        0, 0, 0, 0, 0, 0, 0, 0, 0, 0, 0, 0, 0, 0, 0, 0, 0, 0, 0, 0, 0, 0, 0, 0, 0, 0, 0, 0, 0, 0,
        0, 0, 0, 0, 0, 0, 0, 0, 0, 0, 0, 0, 0, 0, 0, 0, 0, 0, 0, 0, 0, 0, 0, 0, 0, 0, 0, 0, 0, 0,
        0, 0, 0, 0, 0, 0, 0, 0, 0, 0, 0, 0, 0, 0, 0, 0, 0, 0, 0, 0, 0, 0, 0, 0, 0, 0, 0, 0, 0, 0,
        0, 0, 0, 0, 0, 0, 0, 0,
    ],
    [
        4, 0, 0, 3, 0, 0, 0, 0, 0, 0, 0, 0, 0, 0, 0, 0, 0, 0, 0, 0, 0, 0, 0, 0, 0, 0, 0, 0, 0, 0,
        0, 0, 0, 0, 0, 0, 0, 0, 0, 0, 0, 0, 0, 0, 0, 0, 0, 0, 0, 0, 0, 0, 0, 0, 0, 0, 0, 0, 0, 0,
        0, 0, 0, 0, 0, 0, 0, 0, 0, 0, 0, 0, 0, 0, 0, 0, 0, 0, 0, 0, 0, 0, 0, 0, 0, 0, 0, 0, 0, 0,
        0, 0, 0, 0, 0, 0, 0, 0, 0, 0, 0, 0, 0, 0, 0, 0, 0, 0, 0, 0, 0, 0, 0, 0, 0, 0, 0, 0, 0, 0,
        0, 0, 0, 0, 0, 0, 0, 0,
    ],
];

static CONDITIONAL_FOLLOWS: [[u8; 128]; 2] = [
    [
        1, 0, 0, 1, 0, 0, 0, 0, 0, 0, 0, 0, 0, 0, 0, 0, 0, 0, 0, 0, 0, 0, 0, 0, 0, 0, 0, 0, 0, 0,
        0, 0, 0, 0, 0, 0, 0, 0, 0, 0, 0, 0, 0, 0, 0, 0, 0, 0, 0, 0, 0, 0, 0, 0, 0, 0, 0, 0, 0, 0,
        0, 0, 0, 0, 0, 0, 0, 0, 0, 0, 0, 0, 0, 0, 0, 0, 0, 0, 0, 0, 0, 0, 0, 0, 0, 0, 0, 0, 0, 0,
        0, 0, 0, 0, 0, 0, 0, 0, 0, 0, 0, 0, 0, 0, 0, 0, 0, 0, 0, 0, 0, 0, 0, 0, 0, 0, 0, 0, 0, 0,
        0, 0, 0, 0, 0, 0, 0, 0,
    ],
    [
        1, 0, 0, 1, 0, 0, 0, 0, 0, 0, 0, 0, 0, 0, 0, 0, 0, 0, 0, 0, 0, 0, 0, 0, 0, 0, 0, 0, 0, 0,
        0, 0, 0, 0, 0, 0, 0, 0, 0, 0, 0, 0, 0, 0, 0, 0, 0, 0, 0, 0, 0, 0, 0, 0, 0, 0, 0, 0, 0, 0,
        0, 0, 0, 0, 0, 0, 0, 0, 0, 0, 0, 0, 0, 0, 0, 0, 0, 0, 0, 0, 0, 0, 0, 0, 0, 0, 0, 0, 0, 0,
        0, 0, 0, 0, 0, 0, 0, 0, 0, 0, 0, 0, 0, 0, 0, 0, 0, 0, 0, 0, 0, 0, 0, 0, 0, 0, 0, 0, 0, 0,
        0, 0, 0, 0, 0, 0, 0, 0,
    ],
];

static CONDITIONAL_WITNESSES: [u16; 2] = [1, 3];

static CONDITIONAL_RANKS: [u16; 2] = [1, 1];

static CONDITIONAL_COSTS: [u16; 2] = [1, 1];

static CONDITIONAL_NULLABLE: [bool; 2] = [false, true];

/// `Statement = "if" Statement Else | "x"`, `Else = "else" Statement | nothing, but not before "else"`, where `if` has
/// kind 1, `x` 2 and `else` 3.
pub fn conditional() -> Table
    ensures is { lists_of result ≡ CONDITIONAL }
    ensures ll { IsLl (lists_of result) }
{
    Table {
        start: 256,
        heads: &CONDITIONAL_HEADS,
        bodies: &CONDITIONAL_BODIES,
        symbols: &CONDITIONAL_SYMBOLS,
        not_before: &CONDITIONAL_NOT_BEFORE,
        rows: &CONDITIONAL_ROWS,
        follows: &CONDITIONAL_FOLLOWS,
        witnesses: &CONDITIONAL_WITNESSES,
        ranks: &CONDITIONAL_RANKS,
        costs: &CONDITIONAL_COSTS,
        nullable: &CONDITIONAL_NULLABLE,
        per_token: 2,
    }
}

static OPEN_BARS: [u16; 4] = [255, 255, 255, 255];

/// The same without the rule for the nearest `if`: two productions may come before an `else`, so the test fails.
pub fn undecided() -> Table
    ensures { is_ll (lists_of result) ≡ false }
{
    Table {
        start: 256,
        heads: &CONDITIONAL_HEADS,
        bodies: &CONDITIONAL_BODIES,
        symbols: &CONDITIONAL_SYMBOLS,
        not_before: &OPEN_BARS,
        rows: &CONDITIONAL_ROWS,
        follows: &CONDITIONAL_FOLLOWS,
        witnesses: &CONDITIONAL_WITNESSES,
        ranks: &CONDITIONAL_RANKS,
        costs: &CONDITIONAL_COSTS,
        nullable: &CONDITIONAL_NULLABLE,
        per_token: 2,
    }
}
