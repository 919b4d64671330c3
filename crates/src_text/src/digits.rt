//! Numbers from digits in a base, with `_` between them.

ghost use Rattle.std.specs.Prelude.{◌≡◌, ◌+◌, ◌*◌, ◌^◌, ◌<◌, ◌≤◌, not, position};
ghost use Rattle.std.specs.List.{list_all};
ghost use Rattle.std.specs.Option.{SomeIff};
ghost use Rattle.src_text.specs.Digits.{is_underscore, is_stray, value_of, reading};

/// Why digits don't make a number.
#[derive(Clone, Copy, Debug, PartialEq, Eq)]
pub enum DigitFault {
    /// There is nothing but `_`.
    Empty,
    /// The first byte that is neither `_` nor a digit of the base, as its position.
    BadDigit(usize),
    /// All are digits, and the number is 2^128 or more.
    TooBig,
}

fn has_only_underscores(digits: &[u8]) -> bool
    ensures { result ≡ list_all is_underscore digits.now }
{
    digits.iter().all(|byte| *byte == b'_')
}

fn is_digit_or_underscore(byte: u8, base: u8) -> bool
    requires low { 2 ≤ base }
    requires high { base ≤ 36 }
    ensures { result ≡ not (is_stray base byte) }
{
    byte == b'_' || char::from(byte).to_digit(u32::from(base)).is_some()
}

fn first_stray(digits: &[u8], base: u8) -> Option<usize>
    requires low { 2 ≤ base }
    requires high { base ≤ 36 }
    ensures { result ≡ position (is_stray base) digits.now }
{
    digits
        .iter()
        .position(|byte| !is_digit_or_underscore(*byte, base))
}

fn with_digit(value: u128, base: u8, digit: u32) -> Option<u128>
    ensures { SomeIff result (value * base + digit < 2 ^ 128) (value * base + digit) }
{
    let shifted = value.checked_mul(u128::from(base))?;
    shifted.checked_add(u128::from(digit))
}

fn value(digits: &[u8], base: u8) -> Option<u128>
    requires low { 2 ≤ base }
    requires high { base ≤ 36 }
    ensures { SomeIff result (value_of base digits.now < 2 ^ 128) (value_of base digits.now) }
{
    let mut so_far = 0u128;
    for byte in digits {
        if let Some(digit) = char::from(*byte).to_digit(u32::from(base)) {
            match with_digit(so_far, base, digit) {
                Some(longer) => so_far = longer,
                None => return None,
            }
        }
    }
    Some(so_far)
}

/// The number that the digits write in base 2, 8, 10 or 16, with letters in either case. Every `_` is skipped.
pub fn read_digits(digits: &[u8], base: u8) -> Result<u128, DigitFault>
    requires low { 2 ≤ base }
    requires high { base ≤ 36 }
    ensures { result ≡ reading base digits.now }
{
    if has_only_underscores(digits) {
        return Err(DigitFault::Empty);
    }
    if let Some(at) = first_stray(digits, base) {
        return Err(DigitFault::BadDigit(at));
    }
    value(digits, base).ok_or(DigitFault::TooBig)
}

#[cfg(test)]
mod tests {
    use super::*;
    use std::test::Fail;

    #[test]
    fn digits_are_read_in_their_base(rt: HostRuntime) -> Result<(), Fail> {
        let cases: [(&str, u8, Result<u128, DigitFault>); 13] = [
            ("1_0", 2, Ok(2)),
            ("_777", 8, Ok(511)),
            ("1234567890", 10, Ok(1_234_567_890)),
            ("dead_BEEF", 16, Ok(3_735_928_559)),
            ("340282366920938463463374607431768211455", 10, Ok(u128::MAX)),
            (
                "340282366920938463463374607431768211456",
                10,
                Err(DigitFault::TooBig),
            ),
            (
                "1_0000_0000_0000_0000_0000_0000_0000_0000",
                16,
                Err(DigitFault::TooBig),
            ),
            ("0ffffffffffffffffffffffffffffffff", 16, Ok(u128::MAX)),
            ("", 10, Err(DigitFault::Empty)),
            ("__", 16, Err(DigitFault::Empty)),
            ("_2", 2, Err(DigitFault::BadDigit(1))),
            ("12a", 10, Err(DigitFault::BadDigit(2))),
            (
                "1000000000000000000000000000000000000000000x",
                16,
                Err(DigitFault::BadDigit(43)),
            ),
        ];
        for (digits, base, expected) in cases {
            assert!(rt; base >= 2 && base <= 36);
            assert_eq!(rt; read_digits(digits.as_bytes(), base), expected);
        }
        Ok(())
    }
}
