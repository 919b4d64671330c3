//! The kinds of token of Verilog, and the words that are given by their text.

ghost use Rattle.std.specs.Prelude.{◌≡◌};
ghost use Rattle.text_scan.specs.Words.{words_of};
ghost use Rattle.v_tokens.specs.Kinds.{MARKS, KEYWORDS};

use text_scan::Word;

/// The kinds of token (IEEE 1364-2005, clause 3 and Annex B). Kind 0 stands for the end of the text.
#[derive(Clone, Copy, Debug, PartialEq, Eq)]
pub enum TokenKind {
    /// A letter or `_`, then letters, digits, `_` and `$` (3.7).
    Identifier = 1,
    /// A digit, then digits and `_` (3.5.1).
    Decimal = 2,
    /// `'`, perhaps `s`, a base, spaces, and digits of the base (3.5.1).
    Based = 3,
    /// `always`
    Always = 4,
    /// `assign`
    Assign = 5,
    /// `begin`
    Begin = 6,
    /// `case`
    Case = 7,
    /// `casez`
    Casez = 8,
    /// `default`
    Default = 9,
    /// `else`
    Else = 10,
    /// `end`
    End = 11,
    /// `endcase`
    Endcase = 12,
    /// `endmodule`
    Endmodule = 13,
    /// `for`
    For = 14,
    /// `if`
    If = 15,
    /// `initial`
    Initial = 16,
    /// `input`
    Input = 17,
    /// `integer`
    Integer = 18,
    /// `localparam`
    Localparam = 19,
    /// `module`
    Module = 20,
    /// `or`
    Or = 21,
    /// `output`
    Output = 22,
    /// `parameter`
    Parameter = 23,
    /// `posedge`
    Posedge = 24,
    /// `reg`
    Reg = 25,
    /// `signed`
    Signed = 26,
    /// `wire`
    Wire = 27,
    /// `+`
    Plus = 28,
    /// `-`
    Minus = 29,
    /// `*`
    Star = 30,
    /// `/`
    Slash = 31,
    /// `%`
    Percent = 32,
    /// `!`
    Bang = 33,
    /// `~`
    Tilde = 34,
    /// `&`
    Ampersand = 35,
    /// `|`
    Bar = 36,
    /// `^`
    Caret = 37,
    /// `~&`
    TildeAmpersand = 38,
    /// `~|`
    TildeBar = 39,
    /// `~^`
    TildeCaret = 40,
    /// `^~`
    CaretTilde = 41,
    /// `&&`
    LogicalAnd = 42,
    /// `||`
    LogicalOr = 43,
    /// `==`
    Equal = 44,
    /// `!=`
    NotEqual = 45,
    /// `<`
    Less = 46,
    /// `<=`
    LessEqual = 47,
    /// `>`
    Greater = 48,
    /// `>=`
    GreaterEqual = 49,
    /// `<<`
    ShiftLeft = 50,
    /// `>>`
    ShiftRight = 51,
    /// `<<<`
    ArithmeticShiftLeft = 52,
    /// `>>>`
    ArithmeticShiftRight = 53,
    /// `?`
    Question = 54,
    /// `:`
    Colon = 55,
    /// `=`
    Becomes = 56,
    /// `+:`
    PlusColon = 57,
    /// `-:`
    MinusColon = 58,
    /// `(`
    OpenParenthesis = 59,
    /// `)`
    CloseParenthesis = 60,
    /// `[`
    OpenBracket = 61,
    /// `]`
    CloseBracket = 62,
    /// `{`
    OpenBrace = 63,
    /// `}`
    CloseBrace = 64,
    /// `;`
    Semicolon = 65,
    /// `,`
    Comma = 66,
    /// `.`
    Dot = 67,
    /// `#`
    Hash = 68,
    /// `@`
    At = 69,
    /// `$signed`
    SignedCall = 70,
    /// `$unsigned`
    UnsignedCall = 71,
    /// A keyword that the profile has no use for (Annex B).
    Reserved = 72,
}

/// Operators and marks, longer ones first.
static MARKS: [Word; 44] = [
    Word {
        text: "$unsigned",
        kind: TokenKind::UnsignedCall as u8,
    },
    Word {
        text: "$signed",
        kind: TokenKind::SignedCall as u8,
    },
    Word {
        text: "<<<",
        kind: TokenKind::ArithmeticShiftLeft as u8,
    },
    Word {
        text: ">>>",
        kind: TokenKind::ArithmeticShiftRight as u8,
    },
    Word {
        text: "~&",
        kind: TokenKind::TildeAmpersand as u8,
    },
    Word {
        text: "~|",
        kind: TokenKind::TildeBar as u8,
    },
    Word {
        text: "~^",
        kind: TokenKind::TildeCaret as u8,
    },
    Word {
        text: "^~",
        kind: TokenKind::CaretTilde as u8,
    },
    Word {
        text: "&&",
        kind: TokenKind::LogicalAnd as u8,
    },
    Word {
        text: "||",
        kind: TokenKind::LogicalOr as u8,
    },
    Word {
        text: "==",
        kind: TokenKind::Equal as u8,
    },
    Word {
        text: "!=",
        kind: TokenKind::NotEqual as u8,
    },
    Word {
        text: "<=",
        kind: TokenKind::LessEqual as u8,
    },
    Word {
        text: ">=",
        kind: TokenKind::GreaterEqual as u8,
    },
    Word {
        text: "<<",
        kind: TokenKind::ShiftLeft as u8,
    },
    Word {
        text: ">>",
        kind: TokenKind::ShiftRight as u8,
    },
    Word {
        text: "+:",
        kind: TokenKind::PlusColon as u8,
    },
    Word {
        text: "-:",
        kind: TokenKind::MinusColon as u8,
    },
    Word {
        text: "+",
        kind: TokenKind::Plus as u8,
    },
    Word {
        text: "-",
        kind: TokenKind::Minus as u8,
    },
    Word {
        text: "*",
        kind: TokenKind::Star as u8,
    },
    Word {
        text: "/",
        kind: TokenKind::Slash as u8,
    },
    Word {
        text: "%",
        kind: TokenKind::Percent as u8,
    },
    Word {
        text: "!",
        kind: TokenKind::Bang as u8,
    },
    Word {
        text: "~",
        kind: TokenKind::Tilde as u8,
    },
    Word {
        text: "&",
        kind: TokenKind::Ampersand as u8,
    },
    Word {
        text: "|",
        kind: TokenKind::Bar as u8,
    },
    Word {
        text: "^",
        kind: TokenKind::Caret as u8,
    },
    Word {
        text: "<",
        kind: TokenKind::Less as u8,
    },
    Word {
        text: ">",
        kind: TokenKind::Greater as u8,
    },
    Word {
        text: "?",
        kind: TokenKind::Question as u8,
    },
    Word {
        text: ":",
        kind: TokenKind::Colon as u8,
    },
    Word {
        text: "=",
        kind: TokenKind::Becomes as u8,
    },
    Word {
        text: "(",
        kind: TokenKind::OpenParenthesis as u8,
    },
    Word {
        text: ")",
        kind: TokenKind::CloseParenthesis as u8,
    },
    Word {
        text: "[",
        kind: TokenKind::OpenBracket as u8,
    },
    Word {
        text: "]",
        kind: TokenKind::CloseBracket as u8,
    },
    Word {
        text: "{",
        kind: TokenKind::OpenBrace as u8,
    },
    Word {
        text: "}",
        kind: TokenKind::CloseBrace as u8,
    },
    Word {
        text: ";",
        kind: TokenKind::Semicolon as u8,
    },
    Word {
        text: ",",
        kind: TokenKind::Comma as u8,
    },
    Word {
        text: ".",
        kind: TokenKind::Dot as u8,
    },
    Word {
        text: "#",
        kind: TokenKind::Hash as u8,
    },
    Word {
        text: "@",
        kind: TokenKind::At as u8,
    },
];

/// All keywords, those that the profile has no use for too.
static KEYWORDS: [Word; 124] = [
    Word {
        text: "always",
        kind: TokenKind::Always as u8,
    },
    Word {
        text: "and",
        kind: TokenKind::Reserved as u8,
    },
    Word {
        text: "assign",
        kind: TokenKind::Assign as u8,
    },
    Word {
        text: "automatic",
        kind: TokenKind::Reserved as u8,
    },
    Word {
        text: "begin",
        kind: TokenKind::Begin as u8,
    },
    Word {
        text: "buf",
        kind: TokenKind::Reserved as u8,
    },
    Word {
        text: "bufif0",
        kind: TokenKind::Reserved as u8,
    },
    Word {
        text: "bufif1",
        kind: TokenKind::Reserved as u8,
    },
    Word {
        text: "case",
        kind: TokenKind::Case as u8,
    },
    Word {
        text: "casex",
        kind: TokenKind::Reserved as u8,
    },
    Word {
        text: "casez",
        kind: TokenKind::Casez as u8,
    },
    Word {
        text: "cell",
        kind: TokenKind::Reserved as u8,
    },
    Word {
        text: "cmos",
        kind: TokenKind::Reserved as u8,
    },
    Word {
        text: "config",
        kind: TokenKind::Reserved as u8,
    },
    Word {
        text: "deassign",
        kind: TokenKind::Reserved as u8,
    },
    Word {
        text: "default",
        kind: TokenKind::Default as u8,
    },
    Word {
        text: "defparam",
        kind: TokenKind::Reserved as u8,
    },
    Word {
        text: "design",
        kind: TokenKind::Reserved as u8,
    },
    Word {
        text: "disable",
        kind: TokenKind::Reserved as u8,
    },
    Word {
        text: "edge",
        kind: TokenKind::Reserved as u8,
    },
    Word {
        text: "else",
        kind: TokenKind::Else as u8,
    },
    Word {
        text: "end",
        kind: TokenKind::End as u8,
    },
    Word {
        text: "endcase",
        kind: TokenKind::Endcase as u8,
    },
    Word {
        text: "endconfig",
        kind: TokenKind::Reserved as u8,
    },
    Word {
        text: "endfunction",
        kind: TokenKind::Reserved as u8,
    },
    Word {
        text: "endgenerate",
        kind: TokenKind::Reserved as u8,
    },
    Word {
        text: "endmodule",
        kind: TokenKind::Endmodule as u8,
    },
    Word {
        text: "endprimitive",
        kind: TokenKind::Reserved as u8,
    },
    Word {
        text: "endspecify",
        kind: TokenKind::Reserved as u8,
    },
    Word {
        text: "endtable",
        kind: TokenKind::Reserved as u8,
    },
    Word {
        text: "endtask",
        kind: TokenKind::Reserved as u8,
    },
    Word {
        text: "event",
        kind: TokenKind::Reserved as u8,
    },
    Word {
        text: "for",
        kind: TokenKind::For as u8,
    },
    Word {
        text: "force",
        kind: TokenKind::Reserved as u8,
    },
    Word {
        text: "forever",
        kind: TokenKind::Reserved as u8,
    },
    Word {
        text: "fork",
        kind: TokenKind::Reserved as u8,
    },
    Word {
        text: "function",
        kind: TokenKind::Reserved as u8,
    },
    Word {
        text: "generate",
        kind: TokenKind::Reserved as u8,
    },
    Word {
        text: "genvar",
        kind: TokenKind::Reserved as u8,
    },
    Word {
        text: "highz0",
        kind: TokenKind::Reserved as u8,
    },
    Word {
        text: "highz1",
        kind: TokenKind::Reserved as u8,
    },
    Word {
        text: "if",
        kind: TokenKind::If as u8,
    },
    Word {
        text: "ifnone",
        kind: TokenKind::Reserved as u8,
    },
    Word {
        text: "incdir",
        kind: TokenKind::Reserved as u8,
    },
    Word {
        text: "include",
        kind: TokenKind::Reserved as u8,
    },
    Word {
        text: "initial",
        kind: TokenKind::Initial as u8,
    },
    Word {
        text: "inout",
        kind: TokenKind::Reserved as u8,
    },
    Word {
        text: "input",
        kind: TokenKind::Input as u8,
    },
    Word {
        text: "instance",
        kind: TokenKind::Reserved as u8,
    },
    Word {
        text: "integer",
        kind: TokenKind::Integer as u8,
    },
    Word {
        text: "join",
        kind: TokenKind::Reserved as u8,
    },
    Word {
        text: "large",
        kind: TokenKind::Reserved as u8,
    },
    Word {
        text: "liblist",
        kind: TokenKind::Reserved as u8,
    },
    Word {
        text: "library",
        kind: TokenKind::Reserved as u8,
    },
    Word {
        text: "localparam",
        kind: TokenKind::Localparam as u8,
    },
    Word {
        text: "macromodule",
        kind: TokenKind::Reserved as u8,
    },
    Word {
        text: "medium",
        kind: TokenKind::Reserved as u8,
    },
    Word {
        text: "module",
        kind: TokenKind::Module as u8,
    },
    Word {
        text: "nand",
        kind: TokenKind::Reserved as u8,
    },
    Word {
        text: "negedge",
        kind: TokenKind::Reserved as u8,
    },
    Word {
        text: "nmos",
        kind: TokenKind::Reserved as u8,
    },
    Word {
        text: "nor",
        kind: TokenKind::Reserved as u8,
    },
    Word {
        text: "noshowcancelled",
        kind: TokenKind::Reserved as u8,
    },
    Word {
        text: "not",
        kind: TokenKind::Reserved as u8,
    },
    Word {
        text: "notif0",
        kind: TokenKind::Reserved as u8,
    },
    Word {
        text: "notif1",
        kind: TokenKind::Reserved as u8,
    },
    Word {
        text: "or",
        kind: TokenKind::Or as u8,
    },
    Word {
        text: "output",
        kind: TokenKind::Output as u8,
    },
    Word {
        text: "parameter",
        kind: TokenKind::Parameter as u8,
    },
    Word {
        text: "pmos",
        kind: TokenKind::Reserved as u8,
    },
    Word {
        text: "posedge",
        kind: TokenKind::Posedge as u8,
    },
    Word {
        text: "primitive",
        kind: TokenKind::Reserved as u8,
    },
    Word {
        text: "pull0",
        kind: TokenKind::Reserved as u8,
    },
    Word {
        text: "pull1",
        kind: TokenKind::Reserved as u8,
    },
    Word {
        text: "pulldown",
        kind: TokenKind::Reserved as u8,
    },
    Word {
        text: "pullup",
        kind: TokenKind::Reserved as u8,
    },
    Word {
        text: "pulsestyle_onevent",
        kind: TokenKind::Reserved as u8,
    },
    Word {
        text: "pulsestyle_ondetect",
        kind: TokenKind::Reserved as u8,
    },
    Word {
        text: "rcmos",
        kind: TokenKind::Reserved as u8,
    },
    Word {
        text: "real",
        kind: TokenKind::Reserved as u8,
    },
    Word {
        text: "realtime",
        kind: TokenKind::Reserved as u8,
    },
    Word {
        text: "reg",
        kind: TokenKind::Reg as u8,
    },
    Word {
        text: "release",
        kind: TokenKind::Reserved as u8,
    },
    Word {
        text: "repeat",
        kind: TokenKind::Reserved as u8,
    },
    Word {
        text: "rnmos",
        kind: TokenKind::Reserved as u8,
    },
    Word {
        text: "rpmos",
        kind: TokenKind::Reserved as u8,
    },
    Word {
        text: "rtran",
        kind: TokenKind::Reserved as u8,
    },
    Word {
        text: "rtranif0",
        kind: TokenKind::Reserved as u8,
    },
    Word {
        text: "rtranif1",
        kind: TokenKind::Reserved as u8,
    },
    Word {
        text: "scalared",
        kind: TokenKind::Reserved as u8,
    },
    Word {
        text: "showcancelled",
        kind: TokenKind::Reserved as u8,
    },
    Word {
        text: "signed",
        kind: TokenKind::Signed as u8,
    },
    Word {
        text: "small",
        kind: TokenKind::Reserved as u8,
    },
    Word {
        text: "specify",
        kind: TokenKind::Reserved as u8,
    },
    Word {
        text: "specparam",
        kind: TokenKind::Reserved as u8,
    },
    Word {
        text: "strong0",
        kind: TokenKind::Reserved as u8,
    },
    Word {
        text: "strong1",
        kind: TokenKind::Reserved as u8,
    },
    Word {
        text: "supply0",
        kind: TokenKind::Reserved as u8,
    },
    Word {
        text: "supply1",
        kind: TokenKind::Reserved as u8,
    },
    Word {
        text: "table",
        kind: TokenKind::Reserved as u8,
    },
    Word {
        text: "task",
        kind: TokenKind::Reserved as u8,
    },
    Word {
        text: "time",
        kind: TokenKind::Reserved as u8,
    },
    Word {
        text: "tran",
        kind: TokenKind::Reserved as u8,
    },
    Word {
        text: "tranif0",
        kind: TokenKind::Reserved as u8,
    },
    Word {
        text: "tranif1",
        kind: TokenKind::Reserved as u8,
    },
    Word {
        text: "tri",
        kind: TokenKind::Reserved as u8,
    },
    Word {
        text: "tri0",
        kind: TokenKind::Reserved as u8,
    },
    Word {
        text: "tri1",
        kind: TokenKind::Reserved as u8,
    },
    Word {
        text: "triand",
        kind: TokenKind::Reserved as u8,
    },
    Word {
        text: "trior",
        kind: TokenKind::Reserved as u8,
    },
    Word {
        text: "trireg",
        kind: TokenKind::Reserved as u8,
    },
    Word {
        text: "unsigned",
        kind: TokenKind::Reserved as u8,
    },
    Word {
        text: "use",
        kind: TokenKind::Reserved as u8,
    },
    Word {
        text: "uwire",
        kind: TokenKind::Reserved as u8,
    },
    Word {
        text: "vectored",
        kind: TokenKind::Reserved as u8,
    },
    Word {
        text: "wait",
        kind: TokenKind::Reserved as u8,
    },
    Word {
        text: "wand",
        kind: TokenKind::Reserved as u8,
    },
    Word {
        text: "weak0",
        kind: TokenKind::Reserved as u8,
    },
    Word {
        text: "weak1",
        kind: TokenKind::Reserved as u8,
    },
    Word {
        text: "while",
        kind: TokenKind::Reserved as u8,
    },
    Word {
        text: "wire",
        kind: TokenKind::Wire as u8,
    },
    Word {
        text: "wor",
        kind: TokenKind::Reserved as u8,
    },
    Word {
        text: "xnor",
        kind: TokenKind::Reserved as u8,
    },
    Word {
        text: "xor",
        kind: TokenKind::Reserved as u8,
    },
];

/// Operators and marks.
pub fn marks() -> &'static [Word]
    ensures { words_of result.now ≡ MARKS }
{
    &MARKS
}

/// Keywords.
pub fn keywords() -> &'static [Word]
    ensures { words_of result.now ≡ KEYWORDS }
{
    &KEYWORDS
}
