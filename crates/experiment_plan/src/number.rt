//! Decimal numbers.
ghost use Rattle.std.specs.Prelude.{◌≡◌, true};
ghost use Rattle.std.specs.List.{list_all};
ghost use Rattle.std.specs.Str.Parse.{digits_value};
ghost use Rattle.experiment_plan.specs.Lists.{is_digit, is_number, number_in};

/// The most digits of a number.
const MAX_DIGITS: usize = 20;

fn are_digits(text: &[u8]) -> bool
    ensures { result ≡ list_all is_digit text.now }
{
    text.iter().all(|byte| b'0' <= *byte && *byte <= b'9')
}

fn is_number(text: &[u8]) -> bool
    ensures { result ≡ is_number text.now }
{
    !text.is_empty() && text.len() <= MAX_DIGITS && are_digits(text)
}

/// The value of the digits. 20 of them can pass 64 bits.
pub(crate) fn value_of(digits: &[u8]) -> u128
    requires { is_number digits.now ≡ true }
    ensures { result ≡ digits_value 10 digits.now }
{
    let mut value: u128 = 0;
    for digit in digits {
        value = value * 10 + (*digit - b'0') as u128;
    }
    value
}

/// The number of a text of 1 to 20 decimal digits, if it is one from `least` to `most`.
pub fn number_in(text: &[u8], least: u64, most: u64) -> Option<u64>
    ensures { result ≡ number_in least most text.now }
{
    if !is_number(text) {
        return None;
    }
    let value = value_of(text);
    if least as u128 <= value && value <= most as u128 {
        Some(value as u64)
    } else {
        None
    }
}
