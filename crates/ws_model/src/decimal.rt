// Numbers written in decimal digits.
ghost use Rattle.std.specs.Prelude.{◌≡◌, min};
ghost use Rattle.std.specs.List.{list_all};
ghost use Rattle.std.specs.Char.{is_ascii_digit};
ghost use Rattle.ws_model.specs.Decimal.{number_of};

/// Whether each byte is an ASCII digit.
pub fn are_digits(text: &[u8]) -> bool
    ensures { result ≡ list_all is_ascii_digit text.now }
{
    text.iter().all(|byte| byte.is_ascii_digit())
}

/// The number that the decimal digits write, or `most` where it is greater.
pub fn number_within(digits: &[u8], most: u64) -> u64
    ensures { result ≡ min (number_of digits.now) most }
{
    let mut number = 0;
    for digit in digits {
        let unit = u64::from(digit.saturating_sub(b'0'));
        number = most.min(10_u64.saturating_mul(number).saturating_add(unit));
    }
    number
}
