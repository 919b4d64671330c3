//! The kinds of token of C, and the words that are given by their text.

ghost use Rattle.std.specs.Prelude.{◌≡◌};
ghost use Rattle.text_scan.specs.Words.{words_of};
ghost use Rattle.c_tokens.specs.Kinds.{MARKS, KEYWORDS, SUFFIXES};

use text_scan::Word;

/// The kinds of token (ISO C99, 6.4). Kind 0 stands for the end of the text.
#[derive(Clone, Copy, Debug, PartialEq, Eq)]
pub enum TokenKind {
    /// A letter or `_`, then letters, digits and `_` (6.4.2.1).
    Identifier = 1,
    /// A decimal, octal or hexadecimal constant, perhaps with a suffix (6.4.4.1).
    Integer = 2,
    /// A printable byte or an escape in single quotes (6.4.4.4).
    Character = 3,
    /// Printable bytes in double quotes (6.4.5).
    StringLiteral = 4,
    /// `struct`
    Struct = 5,
    /// `extern`
    Extern = 6,
    /// `static`
    Static = 7,
    /// `const`
    Const = 8,
    /// `void`
    Void = 9,
    /// `_Bool`
    UnderscoreBool = 10,
    /// `bool`
    Bool = 11,
    /// `char`
    Char = 12,
    /// `short`
    Short = 13,
    /// `int`
    Int = 14,
    /// `long`
    Long = 15,
    /// `signed`
    Signed = 16,
    /// `unsigned`
    Unsigned = 17,
    /// `int8_t`
    Int8 = 18,
    /// `int16_t`
    Int16 = 19,
    /// `int32_t`
    Int32 = 20,
    /// `int64_t`
    Int64 = 21,
    /// `uint8_t`
    Uint8 = 22,
    /// `uint16_t`
    Uint16 = 23,
    /// `uint32_t`
    Uint32 = 24,
    /// `uint64_t`
    Uint64 = 25,
    /// `if`
    If = 26,
    /// `else`
    Else = 27,
    /// `while`
    While = 28,
    /// `do`
    Do = 29,
    /// `for`
    For = 30,
    /// `switch`
    Switch = 31,
    /// `case`
    Case = 32,
    /// `default`
    Default = 33,
    /// `break`
    Break = 34,
    /// `continue`
    Continue = 35,
    /// `return`
    Return = 36,
    /// `assert`
    Assert = 37,
    /// `__CPROVER_assert`
    CproverAssert = 38,
    /// `__CPROVER_assume`
    CproverAssume = 39,
    /// `true`
    True = 40,
    /// `false`
    False = 41,
    /// `+`
    Plus = 42,
    /// `-`
    Minus = 43,
    /// `*`
    Star = 44,
    /// `/`
    Slash = 45,
    /// `%`
    Percent = 46,
    /// `!`
    Bang = 47,
    /// `~`
    Tilde = 48,
    /// `&`
    Ampersand = 49,
    /// `|`
    Bar = 50,
    /// `^`
    Caret = 51,
    /// `&&`
    LogicalAnd = 52,
    /// `||`
    LogicalOr = 53,
    /// `==`
    Equal = 54,
    /// `!=`
    NotEqual = 55,
    /// `<`
    Less = 56,
    /// `<=`
    LessEqual = 57,
    /// `>`
    Greater = 58,
    /// `>=`
    GreaterEqual = 59,
    /// `<<`
    ShiftLeft = 60,
    /// `>>`
    ShiftRight = 61,
    /// `?`
    Question = 62,
    /// `:`
    Colon = 63,
    /// `=`
    Becomes = 64,
    /// `+=`
    PlusBecomes = 65,
    /// `-=`
    MinusBecomes = 66,
    /// `*=`
    StarBecomes = 67,
    /// `/=`
    SlashBecomes = 68,
    /// `%=`
    PercentBecomes = 69,
    /// `&=`
    AmpersandBecomes = 70,
    /// `|=`
    BarBecomes = 71,
    /// `^=`
    CaretBecomes = 72,
    /// `<<=`
    ShiftLeftBecomes = 73,
    /// `>>=`
    ShiftRightBecomes = 74,
    /// `++`
    Increment = 75,
    /// `--`
    Decrement = 76,
    /// `(`
    OpenParenthesis = 77,
    /// `)`
    CloseParenthesis = 78,
    /// `[`
    OpenBracket = 79,
    /// `]`
    CloseBracket = 80,
    /// `{`
    OpenBrace = 81,
    /// `}`
    CloseBrace = 82,
    /// `;`
    Semicolon = 83,
    /// `,`
    Comma = 84,
    /// `.`
    Dot = 85,
    /// `#`
    Hash = 86,
    /// A keyword that the profile has no use for (6.4.1).
    Reserved = 87,
}

/// Operators and marks, longer ones first.
static MARKS: [Word; 45] = [
    Word {
        text: "<<=",
        kind: TokenKind::ShiftLeftBecomes as u8,
    },
    Word {
        text: ">>=",
        kind: TokenKind::ShiftRightBecomes as u8,
    },
    Word {
        text: "&&",
        kind: TokenKind::LogicalAnd as u8,
    },
    Word {
        text: "||",
        kind: TokenKind::LogicalOr as u8,
    },
    Word {
        text: "==",
        kind: TokenKind::Equal as u8,
    },
    Word {
        text: "!=",
        kind: TokenKind::NotEqual as u8,
    },
    Word {
        text: "<=",
        kind: TokenKind::LessEqual as u8,
    },
    Word {
        text: ">=",
        kind: TokenKind::GreaterEqual as u8,
    },
    Word {
        text: "<<",
        kind: TokenKind::ShiftLeft as u8,
    },
    Word {
        text: ">>",
        kind: TokenKind::ShiftRight as u8,
    },
    Word {
        text: "+=",
        kind: TokenKind::PlusBecomes as u8,
    },
    Word {
        text: "-=",
        kind: TokenKind::MinusBecomes as u8,
    },
    Word {
        text: "*=",
        kind: TokenKind::StarBecomes as u8,
    },
    Word {
        text: "/=",
        kind: TokenKind::SlashBecomes as u8,
    },
    Word {
        text: "%=",
        kind: TokenKind::PercentBecomes as u8,
    },
    Word {
        text: "&=",
        kind: TokenKind::AmpersandBecomes as u8,
    },
    Word {
        text: "|=",
        kind: TokenKind::BarBecomes as u8,
    },
    Word {
        text: "^=",
        kind: TokenKind::CaretBecomes as u8,
    },
    Word {
        text: "++",
        kind: TokenKind::Increment as u8,
    },
    Word {
        text: "--",
        kind: TokenKind::Decrement as u8,
    },
    Word {
        text: "+",
        kind: TokenKind::Plus as u8,
    },
    Word {
        text: "-",
        kind: TokenKind::Minus as u8,
    },
    Word {
        text: "*",
        kind: TokenKind::Star as u8,
    },
    Word {
        text: "/",
        kind: TokenKind::Slash as u8,
    },
    Word {
        text: "%",
        kind: TokenKind::Percent as u8,
    },
    Word {
        text: "!",
        kind: TokenKind::Bang as u8,
    },
    Word {
        text: "~",
        kind: TokenKind::Tilde as u8,
    },
    Word {
        text: "&",
        kind: TokenKind::Ampersand as u8,
    },
    Word {
        text: "|",
        kind: TokenKind::Bar as u8,
    },
    Word {
        text: "^",
        kind: TokenKind::Caret as u8,
    },
    Word {
        text: "<",
        kind: TokenKind::Less as u8,
    },
    Word {
        text: ">",
        kind: TokenKind::Greater as u8,
    },
    Word {
        text: "?",
        kind: TokenKind::Question as u8,
    },
    Word {
        text: ":",
        kind: TokenKind::Colon as u8,
    },
    Word {
        text: "=",
        kind: TokenKind::Becomes as u8,
    },
    Word {
        text: "(",
        kind: TokenKind::OpenParenthesis as u8,
    },
    Word {
        text: ")",
        kind: TokenKind::CloseParenthesis as u8,
    },
    Word {
        text: "[",
        kind: TokenKind::OpenBracket as u8,
    },
    Word {
        text: "]",
        kind: TokenKind::CloseBracket as u8,
    },
    Word {
        text: "{",
        kind: TokenKind::OpenBrace as u8,
    },
    Word {
        text: "}",
        kind: TokenKind::CloseBrace as u8,
    },
    Word {
        text: ";",
        kind: TokenKind::Semicolon as u8,
    },
    Word {
        text: ",",
        kind: TokenKind::Comma as u8,
    },
    Word {
        text: ".",
        kind: TokenKind::Dot as u8,
    },
    Word {
        text: "#",
        kind: TokenKind::Hash as u8,
    },
];

/// All reserved words, those that the profile has no use for too.
static KEYWORDS: [Word; 51] = [
    Word {
        text: "auto",
        kind: TokenKind::Reserved as u8,
    },
    Word {
        text: "break",
        kind: TokenKind::Break as u8,
    },
    Word {
        text: "case",
        kind: TokenKind::Case as u8,
    },
    Word {
        text: "char",
        kind: TokenKind::Char as u8,
    },
    Word {
        text: "const",
        kind: TokenKind::Const as u8,
    },
    Word {
        text: "continue",
        kind: TokenKind::Continue as u8,
    },
    Word {
        text: "default",
        kind: TokenKind::Default as u8,
    },
    Word {
        text: "do",
        kind: TokenKind::Do as u8,
    },
    Word {
        text: "double",
        kind: TokenKind::Reserved as u8,
    },
    Word {
        text: "else",
        kind: TokenKind::Else as u8,
    },
    Word {
        text: "enum",
        kind: TokenKind::Reserved as u8,
    },
    Word {
        text: "extern",
        kind: TokenKind::Extern as u8,
    },
    Word {
        text: "float",
        kind: TokenKind::Reserved as u8,
    },
    Word {
        text: "for",
        kind: TokenKind::For as u8,
    },
    Word {
        text: "goto",
        kind: TokenKind::Reserved as u8,
    },
    Word {
        text: "if",
        kind: TokenKind::If as u8,
    },
    Word {
        text: "inline",
        kind: TokenKind::Reserved as u8,
    },
    Word {
        text: "int",
        kind: TokenKind::Int as u8,
    },
    Word {
        text: "long",
        kind: TokenKind::Long as u8,
    },
    Word {
        text: "register",
        kind: TokenKind::Reserved as u8,
    },
    Word {
        text: "restrict",
        kind: TokenKind::Reserved as u8,
    },
    Word {
        text: "return",
        kind: TokenKind::Return as u8,
    },
    Word {
        text: "short",
        kind: TokenKind::Short as u8,
    },
    Word {
        text: "signed",
        kind: TokenKind::Signed as u8,
    },
    Word {
        text: "sizeof",
        kind: TokenKind::Reserved as u8,
    },
    Word {
        text: "static",
        kind: TokenKind::Static as u8,
    },
    Word {
        text: "struct",
        kind: TokenKind::Struct as u8,
    },
    Word {
        text: "switch",
        kind: TokenKind::Switch as u8,
    },
    Word {
        text: "typedef",
        kind: TokenKind::Reserved as u8,
    },
    Word {
        text: "union",
        kind: TokenKind::Reserved as u8,
    },
    Word {
        text: "unsigned",
        kind: TokenKind::Unsigned as u8,
    },
    Word {
        text: "void",
        kind: TokenKind::Void as u8,
    },
    Word {
        text: "volatile",
        kind: TokenKind::Reserved as u8,
    },
    Word {
        text: "while",
        kind: TokenKind::While as u8,
    },
    Word {
        text: "_Bool",
        kind: TokenKind::UnderscoreBool as u8,
    },
    Word {
        text: "_Complex",
        kind: TokenKind::Reserved as u8,
    },
    Word {
        text: "_Imaginary",
        kind: TokenKind::Reserved as u8,
    },
    Word {
        text: "bool",
        kind: TokenKind::Bool as u8,
    },
    Word {
        text: "true",
        kind: TokenKind::True as u8,
    },
    Word {
        text: "false",
        kind: TokenKind::False as u8,
    },
    Word {
        text: "assert",
        kind: TokenKind::Assert as u8,
    },
    Word {
        text: "__CPROVER_assert",
        kind: TokenKind::CproverAssert as u8,
    },
    Word {
        text: "__CPROVER_assume",
        kind: TokenKind::CproverAssume as u8,
    },
    Word {
        text: "int8_t",
        kind: TokenKind::Int8 as u8,
    },
    Word {
        text: "int16_t",
        kind: TokenKind::Int16 as u8,
    },
    Word {
        text: "int32_t",
        kind: TokenKind::Int32 as u8,
    },
    Word {
        text: "int64_t",
        kind: TokenKind::Int64 as u8,
    },
    Word {
        text: "uint8_t",
        kind: TokenKind::Uint8 as u8,
    },
    Word {
        text: "uint16_t",
        kind: TokenKind::Uint16 as u8,
    },
    Word {
        text: "uint32_t",
        kind: TokenKind::Uint32 as u8,
    },
    Word {
        text: "uint64_t",
        kind: TokenKind::Uint64 as u8,
    },
];

/// The suffixes of an integer (6.4.4.1), longer ones first.
static SUFFIXES: [Word; 22] = [
    Word {
        text: "ull",
        kind: TokenKind::Integer as u8,
    },
    Word {
        text: "uLL",
        kind: TokenKind::Integer as u8,
    },
    Word {
        text: "Ull",
        kind: TokenKind::Integer as u8,
    },
    Word {
        text: "ULL",
        kind: TokenKind::Integer as u8,
    },
    Word {
        text: "llu",
        kind: TokenKind::Integer as u8,
    },
    Word {
        text: "llU",
        kind: TokenKind::Integer as u8,
    },
    Word {
        text: "LLu",
        kind: TokenKind::Integer as u8,
    },
    Word {
        text: "LLU",
        kind: TokenKind::Integer as u8,
    },
    Word {
        text: "ul",
        kind: TokenKind::Integer as u8,
    },
    Word {
        text: "uL",
        kind: TokenKind::Integer as u8,
    },
    Word {
        text: "Ul",
        kind: TokenKind::Integer as u8,
    },
    Word {
        text: "UL",
        kind: TokenKind::Integer as u8,
    },
    Word {
        text: "lu",
        kind: TokenKind::Integer as u8,
    },
    Word {
        text: "lU",
        kind: TokenKind::Integer as u8,
    },
    Word {
        text: "Lu",
        kind: TokenKind::Integer as u8,
    },
    Word {
        text: "LU",
        kind: TokenKind::Integer as u8,
    },
    Word {
        text: "ll",
        kind: TokenKind::Integer as u8,
    },
    Word {
        text: "LL",
        kind: TokenKind::Integer as u8,
    },
    Word {
        text: "u",
        kind: TokenKind::Integer as u8,
    },
    Word {
        text: "U",
        kind: TokenKind::Integer as u8,
    },
    Word {
        text: "l",
        kind: TokenKind::Integer as u8,
    },
    Word {
        text: "L",
        kind: TokenKind::Integer as u8,
    },
];

/// Operators and marks.
pub fn marks() -> &'static [Word]
    ensures { words_of result.now ≡ MARKS }
{
    &MARKS
}

/// Reserved words.
pub fn keywords() -> &'static [Word]
    ensures { words_of result.now ≡ KEYWORDS }
{
    &KEYWORDS
}

/// The suffixes of an integer.
pub fn suffixes() -> &'static [Word]
    ensures { words_of result.now ≡ SUFFIXES }
{
    &SUFFIXES
}
