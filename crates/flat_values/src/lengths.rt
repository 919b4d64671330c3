//! Lengths and signs (IEEE 1364-2005, 5.4.1 and 5.5.1).

ghost use Rattle.std.specs.Prelude.{◌≡◌, ◌+◌, ◌-◌, ◌<◌, ◌≤◌, ◌&&◌, max, length as count, false, if◌then◌else◌};
ghost use Rattle.bits_core.specs.Word.{IsWidth};
ghost use Rattle.flat_tree.specs.Operators.{form_of, length_by, signed_by, is_reduction as reduces};
ghost use Rattle.flat_tree.specs.Values.{meant};
ghost use Rattle.flat_values.specs.Fits.{IsOwn, IsOrdered, shape_of, shapes_of, IsTaken, AreTaken, list_meant, selection_length, selection_signed, number_length as number_length_of};

use flat_tree::{FlatExpr, FlatSelection, FlatSignal};
use v_tree::{BinaryOp, UnaryOp};

/// What an expression has by itself.
#[derive(Clone, Copy)]
pub struct LengthSign {
    pub length: u8,
    pub signed: bool,
}

/// The length and the sign that an expression has by itself.
#[cycle(own)]
pub fn own(signals: &[FlatSignal], e: &FlatExpr) -> LengthSign
    requires { IsTaken (count signals.now) (shapes_of signals.now) e.now }
    ensures { IsOwn (meant (shapes_of signals.now) e.now) result.length result.signed }
{
    match e {
        FlatExpr::Literal(n) => LengthSign {
            length: n.word.width(),
            signed: n.signed,
        },
        FlatExpr::Signal(_, g) => of_signal(signals, *g),
        FlatExpr::Select(_, g, s) => of_select(signals, *g, s),
        FlatExpr::SelectNumber(_, _, _, s) => without_sign(number_length(s)),
        FlatExpr::Unary(operator, a) => unary(operator.op, own(signals, a.get())),
        FlatExpr::Binary(a, operator, b) => {
            let x = own(signals, a.get());
            let y = own(signals, b.get());
            binary(operator.op, x, y)
        }
        FlatExpr::Conditional(_, a, b) => {
            let x = own(signals, a.get());
            let y = own(signals, b.get());
            of_both(x, y)
        }
        FlatExpr::Parentheses(_, a) => own(signals, a.get()),
        FlatExpr::Concatenation(_, parts) => without_sign(joined_length(signals, parts.as_slice())),
        FlatExpr::Replication(_, c, parts) => {
            let one = joined_length(signals, parts.as_slice());
            without_sign(*c * one)
        }
        FlatExpr::Signed(_, a) => cast(own(signals, a.get()), true),
        FlatExpr::Unsigned(_, a) => cast(own(signals, a.get()), false),
    }
}

/// The length of parts side by side.
#[cycle(own)]
fn joined_length(signals: &[FlatSignal], parts: &[FlatExpr]) -> u8
    requires fits { AreTaken (count signals.now) (shapes_of signals.now) parts.now }
    requires within { (list_meant (shapes_of signals.now) parts.now).length ≤ 128 }
    ensures { result ≡ (list_meant (shapes_of signals.now) parts.now).length }
{
    let mut sum: u8 = 0;
    for e in parts {
        let one = own(signals, e);
        sum += one.length;
    }
    sum
}

/// A length of what has no sign.
fn without_sign(length: u8) -> LengthSign
    ensures length { result.length ≡ length }
    ensures signed { result.signed ≡ false }
{
    LengthSign {
        length,
        signed: false,
    }
}

/// The same with another sign.
fn cast(a: LengthSign, signed: bool) -> LengthSign
    ensures length { result.length ≡ a.length }
    ensures signed { result.signed ≡ signed }
{
    LengthSign {
        length: a.length,
        signed,
    }
}

/// The greater length, signed if both are.
fn of_both(a: LengthSign, b: LengthSign) -> LengthSign
    ensures length { result.length ≡ max a.length b.length }
    ensures signed { result.signed ≡ (a.signed && b.signed) }
{
    LengthSign {
        length: a.length.max(b.length),
        signed: a.signed && b.signed,
    }
}

/// Of a whole signal.
fn of_signal(signals: &[FlatSignal], g: u32) -> LengthSign
    requires { g < count signals.now }
    ensures length { result.length ≡ (shapes_of signals.now g).bits }
    ensures signed { result.signed ≡ (shapes_of signals.now g).signed }
{
    let signal = &signals[g as usize];
    LengthSign {
        length: signal.bits,
        signed: signal.signed,
    }
}

/// Of a select of a signal.
fn of_select(signals: &[FlatSignal], g: u32, s: &FlatSelection) -> LengthSign
    requires there { g < count signals.now }
    requires within { selection_length (shapes_of signals.now g) s.now ≤ 128 }
    requires order { IsOrdered s.now }
    ensures length { result.length ≡ selection_length (shapes_of signals.now g) s.now }
    ensures signed { result.signed ≡ selection_signed (shapes_of signals.now g) s.now }
{
    let signal = &signals[g as usize];
    LengthSign {
        length: selected_length(signal, s),
        signed: selected_signed(signal, s),
    }
}

/// The length of a select of a signal.
fn selected_length(signal: &FlatSignal, s: &FlatSelection) -> u8
    requires within { selection_length (shape_of signal.now) s.now ≤ 128 }
    requires order { IsOrdered s.now }
    ensures { result ≡ selection_length (shape_of signal.now) s.now }
{
    match s {
        FlatSelection::Bit(_) => { if signal.words > 0 { signal.bits } else { 1 } }
        FlatSelection::Part(high, low) => span(*high, *low),
        FlatSelection::Up(_, n) => *n,
        FlatSelection::Down(_, n) => *n,
    }
}

/// The length of a select of a number.
fn number_length(s: &FlatSelection) -> u8
    requires within { number_length_of s.now ≤ 128 }
    requires order { IsOrdered s.now }
    ensures { result ≡ number_length_of s.now }
{
    match s {
        FlatSelection::Bit(_) => 1,
        FlatSelection::Part(high, low) => span(*high, *low),
        FlatSelection::Up(_, n) => *n,
        FlatSelection::Down(_, n) => *n,
    }
}

/// The number of bits from a high end down to a low end.
fn span(high: u32, low: u32) -> u8
    requires order { low ≤ high }
    requires few { high - low + 1 ≤ 128 }
    ensures { result ≡ high - low + 1 }
{
    (high - low) as u8 + 1
}

/// Whether a select of a signal is signed: only a word of a memory may be.
fn selected_signed(signal: &FlatSignal, s: &FlatSelection) -> bool
    ensures { result ≡ selection_signed (shape_of signal.now) s.now }
{
    match s {
        FlatSelection::Bit(_) => signal.words > 0 && signal.signed,
        FlatSelection::Part(_, _) => false,
        FlatSelection::Up(_, _) => false,
        FlatSelection::Down(_, _) => false,
    }
}

/// What a unary operator gives.
fn unary(op: UnaryOp, a: LengthSign) -> LengthSign
    ensures length { result.length ≡ (if reduces op then 1 else a.length) }
    ensures signed { result.signed ≡ (if reduces op then false else a.signed) }
{
    match op {
        UnaryOp::Plus | UnaryOp::Minus | UnaryOp::BitNot => a,
        UnaryOp::LogicalNot
        | UnaryOp::ReduceAnd
        | UnaryOp::ReduceNand
        | UnaryOp::ReduceOr
        | UnaryOp::ReduceNor
        | UnaryOp::ReduceXor
        | UnaryOp::ReduceXnor => without_sign(1),
    }
}

/// What a binary operator gives (Table 5-22).
fn binary(op: BinaryOp, a: LengthSign, b: LengthSign) -> LengthSign
    ensures length { result.length ≡ length_by (form_of op) a.length b.length }
    ensures signed { result.signed ≡ signed_by (form_of op) a.signed b.signed }
{
    match op {
        BinaryOp::LogicalOr
        | BinaryOp::LogicalAnd
        | BinaryOp::Equal
        | BinaryOp::NotEqual
        | BinaryOp::Less
        | BinaryOp::LessEqual
        | BinaryOp::Greater
        | BinaryOp::GreaterEqual => without_sign(1),
        BinaryOp::ShiftLeft
        | BinaryOp::ShiftRight
        | BinaryOp::ArithmeticShiftLeft
        | BinaryOp::ArithmeticShiftRight => a,
        BinaryOp::BitOr
        | BinaryOp::BitXor
        | BinaryOp::BitXnor
        | BinaryOp::BitAnd
        | BinaryOp::Add
        | BinaryOp::Subtract
        | BinaryOp::Multiply
        | BinaryOp::Divide
        | BinaryOp::Remainder => of_both(a, b),
    }
}
