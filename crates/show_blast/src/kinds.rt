//! The kinds of node, and the words that they are tried on.

ghost use Rattle.std.specs.Prelude.{◌<◌, ◌≤◌};

use bits_core::{Op1, Op2, Word};
use word_eqs::{TermId, TermNode, VarId};

/// A kind of node over two words of one width and a bit.
#[derive(Clone, Copy, Debug)]
pub enum Kind {
    /// A constant.
    Const,
    /// The first word itself.
    Var,
    /// An operation on the first word.
    One(Op1),
    /// An operation on both.
    Two(Op2),
    /// The first word where the bit is 1, and else the second.
    Choose,
    /// To 128 bits, by zeros.
    Extend,
    /// To 128 bits, by the sign.
    ExtendSigned,
    /// To the lower half of the bits.
    Cut,
    /// Bits from the middle of the first word.
    Slice,
    /// The first word on the left of the second.
    Join,
}

/// Each kind once, and each operation.
pub const KINDS: [Kind; 29] = [
    Kind::Const,
    Kind::Var,
    Kind::One(Op1::Not),
    Kind::One(Op1::Neg),
    Kind::One(Op1::RedAnd),
    Kind::One(Op1::RedOr),
    Kind::One(Op1::RedXor),
    Kind::Two(Op2::And),
    Kind::Two(Op2::Or),
    Kind::Two(Op2::Xor),
    Kind::Two(Op2::Add),
    Kind::Two(Op2::Sub),
    Kind::Two(Op2::Mul),
    Kind::Two(Op2::DivU),
    Kind::Two(Op2::DivS),
    Kind::Two(Op2::RemU),
    Kind::Two(Op2::RemS),
    Kind::Two(Op2::Shl),
    Kind::Two(Op2::ShrU),
    Kind::Two(Op2::ShrS),
    Kind::Two(Op2::Eq),
    Kind::Two(Op2::LtU),
    Kind::Two(Op2::LtS),
    Kind::Choose,
    Kind::Extend,
    Kind::ExtendSigned,
    Kind::Cut,
    Kind::Slice,
    Kind::Join,
];

/// What a node is made of: two words of one width, a bit, and the variable of the first word.
#[derive(Clone, Copy)]
pub struct Parts {
    pub left: TermId,
    pub right: TermId,
    pub bit: TermId,
    pub var: VarId,
}

/// The greater half of a width.
fn half(width: u8) -> u8
    requires { width ≤ 128 }
    ensures some { 0 < width → 0 < result }
    ensures within { result ≤ 128 }
{
    width - width / 2
}

/// The width of the words that a node of a kind joins: half of it for a join, which is thus of 128 bits
/// at most.
pub fn operand_width(kind: Kind, width: u8) -> u8
    requires { width ≤ 128 }
    ensures some { 0 < width → 0 < result }
    ensures within { result ≤ 128 }
{
    match kind {
        Kind::Join => half(width),
        _ => width,
    }
}

/// A node of a kind over words of a width.
pub fn node_of(kind: Kind, width: u8, parts: Parts) -> TermNode
    requires some { 0 < width }
    requires within { width ≤ 128 }
{
    let Parts {
        left,
        right,
        bit,
        var,
    } = parts;
    match kind {
        Kind::Const => TermNode::Const(Word::from_low_bits(width, DIGITS)),
        Kind::Var => TermNode::Var(var),
        Kind::One(op) => TermNode::One(op, left),
        Kind::Two(op) => TermNode::Two(op, left, right),
        Kind::Choose => TermNode::Choose(bit, left, right),
        Kind::Extend => TermNode::Resize(left, 128, false),
        Kind::ExtendSigned => TermNode::Resize(left, 128, true),
        Kind::Cut => TermNode::Resize(left, half(width), true),
        Kind::Slice => TermNode::Slice(left, width / 2, width / 4),
        Kind::Join => TermNode::Join(left, right),
    }
}

const SIGNS: u128 = 0x8000_0000_0000_0000_8000_0000_0000_0088;

const DIGITS: u128 = 0x0123_4567_89ab_cdef_0123_4567_89ab_cdef;

/// Pairs of operands, of which the low bits are taken: zero divisors, the least number by -1, amounts of
/// a shift at the width and about it.
pub fn operands(width: u8) -> [(u128, u128); 14]
    requires some { 0 < width }
    requires within { width ≤ 128 }
{
    let amount = u128::from(width);
    let sign = 1u128 << u32::from(width - 1);
    [
        (0, 0),
        (1, 0),
        (0, 1),
        (u128::MAX, 1),
        (u128::MAX, u128::MAX),
        (sign, u128::MAX),
        (sign, 0),
        (sign, 1),
        (DIGITS, amount - 1),
        (DIGITS, amount),
        (DIGITS, amount + 1),
        (SIGNS, 3),
        (DIGITS, 0xfedc_ba98_7654_3210_0000_0000_0000_0007),
        (7, 0xf9),
    ]
}
