//! A number after a name.
ghost use Rattle.std.specs.Prelude.{◌≡◌, ◌≤◌, IfSome, length, option_map};
ghost use Rattle.std.specs.List.{prefix_len};
ghost use Rattle.timing_reader.specs.Reading.{is_digit, number, named_number};

use profile_labels::decimal;

fn is_digit(byte: u8) -> bool
    ensures { result ≡ is_digit byte }
{
    b'0' <= byte && byte <= b'9'
}

/// The number of digits that a text begins with.
fn digits_length(text: &[u8]) -> usize
    ensures length { result ≡ prefix_len is_digit text.now }
    ensures within { result ≤ length text.now }
{
    let mut offset = 0;
    while offset < text.len() && is_digit(text[offset]) {
        offset += 1;
    }
    offset
}

/// The number that a text begins with, in its one decimal spelling, and the text after it. None if
/// the text begins with none from `least` to `most`.
fn number<'a>(text: &'a [u8], least: u64, most: u64) -> Option<(u64, &'a [u8])>
    ensures value { option_map (λ x. (x.0, x.1.now)) result ≡ number least most text.now }
    ensures within { IfSome result (λ x. x.0 ≤ most) }
{
    let (digits, rest) = text.split_at(digits_length(text));
    match decimal(digits, most) {
        Some(number) if least <= number => Some((number, rest)),
        _ => None,
    }
}

/// The number from `least` to `most` after a name that a text begins with, and the text after it.
/// None if the text begins otherwise.
pub fn named_number<'a>(
    text: &'a [u8],
    name: &[u8],
    least: u64,
    most: u64,
) -> Option<(u64, &'a [u8])>
    ensures value { option_map (λ x. (x.0, x.1.now)) result
        ≡ named_number name.now least most text.now }
    ensures within { IfSome result (λ x. x.0 ≤ most) }
{
    number(text.strip_prefix(name)?, least, most)
}
