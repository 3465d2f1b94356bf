//! Addresses in a profile's text.
ghost use Rattle.std.specs.Prelude.{take, drop, codes, bytes_eq};
ghost use Rattle.std.specs.Str.Parse.{digits_value};
ghost use Rattle.profile_reader.specs.EndingSpellings.{is_address};
ghost use Rattle.profile_reader.specs.Reading.{Tells};

use coz_types::{Address, HexDigits};

// The digits after `0x`.
fn behind_mark(text: &[u8]) -> Option<&[u8]>
    ensures { Tells (λ digits. digits.now) (bytes_eq (take 2 text.now) (codes "0x"))
        (drop 2 text.now) result }
{
    text.strip_prefix(b"0x")
}

/// The address of which the text is the spelling. None if it spells none.
pub fn parse_address(text: &[u8]) -> Option<Address>
    ensures { Tells (λ a. a) (is_address text.now) (digits_value 16 (drop 2 text.now)) result }
{
    let digits = behind_mark(text)?;
    let Ok(word) = str::from_utf8(digits) else {
        return None;
    };
    let Ok(number) = u64::from_str_radix(word, 16) else {
        return None;
    };
    let written = HexDigits::new(number);
    if digits != written.bytes() {
        return None;
    }
    Some(number)
}
