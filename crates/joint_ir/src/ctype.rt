//! Integer types of C (C99 6.2.5).

/// An integer type. Two spellings of one type are equal here, as `char` and `int8_t` are.
#[derive(Clone, Copy, Debug, PartialEq, Eq)]
pub struct IntType {
    /// The number of bits: 1, 8, 16, 32 or 64.
    pub bits: u8,
    /// Whether it has numbers below 0, in two's complement.
    pub signed: bool,
    /// Whether it is `_Bool`: 1 bit, and a conversion to it gives 1 for whatever isn't 0.
    pub truth: bool,
}

/// The type `int`.
pub const INT: IntType = IntType {
    bits: 32,
    signed: true,
    truth: false,
};

/// The type `unsigned int`, which `bound` has.
pub const UNSIGNED: IntType = IntType {
    bits: 32,
    signed: false,
    truth: false,
};
