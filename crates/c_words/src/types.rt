//! Integer types and the type in which operands meet (C99 6.2.5, 6.3.1.1 and 6.3.1.8).

ghost use Rattle.std.specs.Prelude.{◌≡◌};
ghost use Rattle.c_words.specs.Types.{sized as sized_of, is_signed as is_signed_of, named as named_of, promoted as promoted_of, wider as wider_of, common as common_of};

use c_tree::{IntegerType, Sign};
use joint_ir::{INT, IntType};

fn sized(bits: u8, signed: bool) -> IntType
    ensures { result ≡ sized_of bits signed }
{
    IntType {
        bits,
        signed,
        truth: false,
    }
}

fn is_signed(sign: Sign) -> bool
    ensures { result ≡ is_signed_of sign }
{
    match sign {
        Sign::Signed => true,
        Sign::Unsigned => false,
    }
}

/// The type that words name. `char` has a sign, and `long long` is `long`.
pub fn named(integer: IntegerType) -> IntType
    ensures { result ≡ named_of integer }
{
    match integer {
        IntegerType::Bool => IntType {
            bits: 1,
            signed: false,
            truth: true,
        },
        IntegerType::Char(sign) => sized(8, is_signed(sign)),
        IntegerType::Short(sign) => sized(16, is_signed(sign)),
        IntegerType::Int(sign) => sized(32, is_signed(sign)),
        IntegerType::Long(sign) => sized(64, is_signed(sign)),
        IntegerType::Int8 => sized(8, true),
        IntegerType::Int16 => sized(16, true),
        IntegerType::Int32 => sized(32, true),
        IntegerType::Int64 => sized(64, true),
        IntegerType::Uint8 => sized(8, false),
        IntegerType::Uint16 => sized(16, false),
        IntegerType::Uint32 => sized(32, false),
        IntegerType::Uint64 => sized(64, false),
    }
}

/// The type after the integer promotions.
pub fn promoted(t: IntType) -> IntType
    ensures { result ≡ promoted_of t }
{
    if t.bits < 32 { INT } else { t }
}

fn wider(a: IntType, b: IntType) -> IntType
    ensures { result ≡ wider_of a b }
{
    if a.bits < b.bits {
        b
    } else if b.bits < a.bits {
        a
    } else {
        sized(a.bits, a.signed && b.signed)
    }
}

/// The type in which two operands meet, by the usual arithmetic conversions.
pub fn common(a: IntType, b: IntType) -> IntType
    ensures { result ≡ common_of a b }
{
    wider(promoted(a), promoted(b))
}
