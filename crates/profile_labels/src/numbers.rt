//! Numbers in a profile's text.
ghost use Rattle.std.specs.Prelude.{◌≡◌, ◌≤◌, true, false, IfSome, MatchOption};
ghost use Rattle.std.specs.Str.Parse.{digits_value};
ghost use Rattle.coz_types.specs.Labels.{is_decimal};

/// Returns the number that the text spells, if it is at most `most`.
/// Returns None if the text is no spelling of such a number.
pub fn decimal(text: &[u8], most: u64) -> Option<u64>
    ensures value { MatchOption result (is_decimal most text.now ≡ false)
        (λ n. (is_decimal most text.now ≡ true) × (n ≡ digits_value 10 text.now)) }
    ensures within { IfSome result (λ n. n ≤ most) }
{
    let Ok(word) = str::from_utf8(text) else {
        return None;
    };
    let Ok(number) = word.parse::<u64>() else {
        return None;
    };
    if number > most {
        return None;
    }
    let mut buffer = itoa::Buffer::new();
    let written = buffer.format(number);
    if text != written.as_bytes() {
        return None;
    }
    Some(number)
}
