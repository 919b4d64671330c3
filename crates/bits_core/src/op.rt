// The operations on words.

ghost use Rattle.std.specs.Prelude.{◌≡◌, ◌<◌, ◌≤◌};
ghost use Rattle.bits_core.specs.Ops.{width1, width2};

/// Operations on one word.
#[derive(Clone, Copy, Debug, PartialEq, Eq)]
pub enum Op1 {
    /// `~`: each bit turned.
    Not,
    /// Unary `-`.
    Neg,
    /// Reduction `&`: 1 where all bits are 1.
    RedAnd,
    /// Reduction `|`: 1 where some bit is 1.
    RedOr,
    /// Reduction `^`: 1 where the number of bits that are 1 is odd.
    RedXor,
}

/// Operations on two words of one width.
#[derive(Clone, Copy, Debug, PartialEq, Eq)]
pub enum Op2 {
    And,
    Or,
    Xor,
    Add,
    Sub,
    Mul,
    /// The quotient of unsigned numbers; 0 for a zero divisor.
    DivU,
    /// The quotient of signed numbers, cut towards zero; 0 for a zero divisor.
    DivS,
    /// The remainder of unsigned numbers; 0 for a zero divisor.
    RemU,
    /// The remainder of signed numbers, with the sign of the first; 0 for a zero divisor.
    RemS,
    /// Shifted to the left by an unsigned number of bits.
    Shl,
    /// Shifted to the right by an unsigned number of bits, filled with zeros.
    ShrU,
    /// Shifted to the right by an unsigned number of bits, filled with the sign.
    ShrS,
    /// 1 where both are equal.
    Eq,
    /// 1 where the first is less, as unsigned numbers.
    LtU,
    /// 1 where the first is less, as signed numbers.
    LtS,
}

impl Op1 {
    /// The width of the result, by that of the operand.
    pub fn width(self, operand: u8) -> u8
        ensures width { result ≡ width1 self operand }
        ensures some { 0 < operand → 0 < result }
        ensures within { operand ≤ 128 → result ≤ 128 }
    {
        match self {
            Op1::Not | Op1::Neg => operand,
            Op1::RedAnd | Op1::RedOr | Op1::RedXor => 1,
        }
    }
}

impl Op2 {
    /// The width of the result, by that of the operands.
    pub fn width(self, operands: u8) -> u8
        ensures width { result ≡ width2 self operands }
        ensures some { 0 < operands → 0 < result }
        ensures within { operands ≤ 128 → result ≤ 128 }
    {
        match self {
            Op2::Eq | Op2::LtU | Op2::LtS => 1,
            _ => operands,
        }
    }
}
