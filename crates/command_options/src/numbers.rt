//! Numbers in words.

ghost use Rattle.std.specs.Prelude.{◌≡◌};
ghost use Rattle.std.specs.Char.{is_ascii_digit};
ghost use Rattle.std.specs.List.{list_all};
ghost use Rattle.command_options.specs.Numbers.{is_numeral, number_in, is_plain_number as is_plain};

/// How many digits a number may have.
const MAX_DIGITS: usize = 20;

fn are_digits(bytes: &[u8]) -> bool
    ensures { result ≡ list_all is_ascii_digit bytes.now }
{
    bytes.iter().all(|byte| byte.is_ascii_digit())
}

fn is_number(text: &str) -> bool
    ensures { result ≡ is_numeral text.now }
{
    !text.is_empty() && text.len() <= MAX_DIGITS && are_digits(text.as_bytes())
}

/// 1 to 20 decimal digits that say a number within limits.
pub fn number(text: &str, low: u64, high: u64) -> Option<u64>
    ensures { result ≡ number_in low high text.now }
{
    if !is_number(text) {
        return None;
    }
    match text.parse::<u64>() {
        Ok(number) => {
            if number < low || number > high {
                return None;
            }
            Some(number)
        }
        Err(_) => None,
    }
}

/// A number from 1 to 4,294,967,295 without leading zeros.
pub fn is_plain_number(text: &str) -> bool
    ensures { result ≡ is_plain text.now }
{
    match text.as_bytes() {
        [] => false,
        [first, ..] => *first != b'0' && number(text, 0, 4_294_967_295).is_some(),
    }
}
