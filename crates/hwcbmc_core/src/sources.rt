//! The two written forms of source that are read so far.

ghost use Rattle.std.specs.Prelude.{◌≡◌, ◌≢◌, ℕ, ◌<◌, ◌≤◌, List, ◌++◌, length, take, drop, IfSome, IfNone, decimal};
ghost use Rattle.std.specs.Str.Parse.{AllDigits};
ghost use Rattle.hwcbmc_core.specs.Numbers.{BeginsWithNoDigit, has_plain_digits};
ghost use Rattle.hwcbmc_core.specs.Sources.{edge_line, edge_lines, IsProgram, IsCounter};

/// The C program: so many clock edges, and then the assertion that the count is this.
#[derive(Clone, Copy, Debug)]
pub struct Program {
    pub edges: usize,
    pub expected: u8,
}

/// The Verilog module: a register of 8 bits that counts up from `first` by `step`.
#[derive(Clone, Copy, Debug)]
pub struct Counter {
    pub first: u8,
    pub step: u8,
}

const C_HEAD: &[u8] =
    b"#include <assert.h>\nstruct counter { unsigned char count; };\nextern struct counter counter;\nint main(void) {\n";

const EDGE_LINE: &[u8] = b"  next_timeframe();\n";

const ASSERT: &[u8] = b"  assert(counter.count == ";

const C_TAIL: &[u8] = b");\n  return 0;\n}\n";

const V_HEAD: &[u8] = b"module counter(input clk, output reg [7:0] count); initial count = ";

const V_MIDDLE: &[u8] = b"; always @(posedge clk) count <= count + ";

const V_TAIL: &[u8] = b"; endmodule\n";

/// The C program of this text, if it is of the form.
pub fn read_c(text: &[u8]) -> Option<Program>
    ensures found { IfSome result (IsProgram text.now) }
    ensures few { IfSome result (λ program. program.edges ≤ length text.now) }
    ensures none { IfNone result ((program : _) → ¬ (IsProgram text.now program)) }
{
    let (edges, rest) = strip_edges(strip(text, C_HEAD)?);
    let (expected, rest) = split_number(strip(rest, ASSERT)?)?;
    if rest != C_TAIL {
        return None;
    }
    Some(Program { edges, expected })
}

/// The Verilog module of this text, if it is of the form.
pub fn read_v(text: &[u8]) -> Option<Counter>
    ensures found { IfSome result (IsCounter text.now) }
    ensures none { IfNone result ((counter : _) → ¬ (IsCounter text.now counter)) }
{
    let (first, rest) = split_number(strip(text, V_HEAD)?)?;
    let (step, rest) = split_number(strip(rest, V_MIDDLE)?)?;
    if rest != V_TAIL {
        return None;
    }
    Some(Counter { first, step })
}

/// What follows this front, if the text begins with it.
fn strip<'a>(text: &'a [u8], front: &[u8]) -> Option<&'a [u8]>
    ensures found { IfSome result (λ rest. text.now ≡ front.now ++ rest.now) }
    ensures none { IfNone result ((rest : List ℕ) → text.now ≢ front.now ++ rest) }
{
    text.strip_prefix(front)
}

/// How many lines at the front are calls of `next_timeframe`, and what follows them.
fn strip_edges(text: &[u8]) -> (usize, &[u8])
    ensures lines { text.now ≡ edge_lines result.0 ++ result.1.now }
    ensures all { (rest : List ℕ) → result.1.now ≢ edge_line ++ rest }
    ensures few { result.0 ≤ length text.now }
{
    let mut edges = 0;
    let mut rest = text;
    while let Some(next) = strip(rest, EDGE_LINE) {
        rest = next;
        edges += 1;
    }
    (edges, rest)
}

/// The decimal number from 0 to 255 at the front, without leading zeros, and what follows it.
fn split_number(text: &[u8]) -> Option<(u8, &[u8])>
    ensures found { IfSome result (λ found. text.now ≡ decimal found.0 ++ found.1.now) }
    ensures byte { IfSome result (λ found. found.0 < 256) }
    ensures ends { IfSome result (λ found. BeginsWithNoDigit found.1.now) }
    ensures none { IfNone result ((n : ℕ) (rest : List ℕ) → n < 256 → BeginsWithNoDigit rest → text.now ≢ decimal n ++ rest) }
{
    let (digits, rest) = text.split_at(count_digits(text));
    let number = number_of(digits)?;
    Some((number, rest))
}

/// What the digits say, if that is at most 255 and there is no leading zero.
fn number_of(digits: &[u8]) -> Option<u8>
    requires { AllDigits 10 digits.now }
    ensures found { IfSome result (λ n. digits.now ≡ decimal n) }
    ensures none { IfNone result ((n : ℕ) → n < 256 → digits.now ≢ decimal n) }
{
    if !is_plain(digits) {
        return None;
    }
    let mut number: u16 = 0;
    for digit in digits {
        number = 10 * number + u16::from(*digit - b'0');
        if number > 255 {
            return None;
        }
    }
    Some(number as u8)
}

/// Whether there are digits, without a leading zero.
fn is_plain(digits: &[u8]) -> bool
    ensures { result ≡ has_plain_digits digits.now }
{
    match digits {
        [] => false,
        [first, _, ..] => *first != b'0',
        [_] => true,
    }
}

/// How many digits stand at the front.
fn count_digits(text: &[u8]) -> usize
    ensures within { result ≤ length text.now }
    ensures digits { AllDigits 10 (take result text.now) }
    ensures all { BeginsWithNoDigit (drop result text.now) }
{
    for (i, byte) in text.iter().enumerate() {
        if !byte.is_ascii_digit() {
            return i;
        }
    }
    text.len()
}
