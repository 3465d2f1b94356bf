//! Digests in a profile's text.
ghost use Rattle.std.specs.Prelude.{◌≡◌, ◌<◌, true};
ghost use Rattle.std.specs.List.{list_all};
ghost use Rattle.profile_reader.specs.Grammar.{is_lower_hex, is_digest};
ghost use Rattle.profile_reader.specs.Reading.{Tells, lower_value, bytes_in};

fn is_lower_hex(byte: u8) -> bool
    ensures { result ≡ is_lower_hex byte }
{
    (b'0' <= byte && byte <= b'9') || (b'a' <= byte && byte <= b'f')
}

fn lower_value(digit: u8) -> u8
    requires { is_lower_hex digit ≡ true }
    ensures value { result ≡ lower_value digit }
    ensures small { result < 16 }
{
    if digit < b'a' {
        digit - b'0'
    } else {
        digit - b'a' + 10
    }
}

fn are_lower_hex(text: &[u8]) -> bool
    ensures { result ≡ list_all is_lower_hex text.now }
{
    text.iter().all(|byte| is_lower_hex(*byte))
}

fn is_digest(text: &[u8]) -> bool
    ensures { result ≡ is_digest text.now }
{
    text.len() == 64 && are_lower_hex(text)
}

/// The bytes of which the text has the digits. None if it has the digits of none.
pub fn digest_of(text: &[u8]) -> Option<[u8; 32]>
    ensures { Tells (λ bytes. bytes) (is_digest text.now) (bytes_in text.now) result }
{
    if !is_digest(text) {
        return None;
    }
    let mut bytes = [0; 32];
    for i in 0..32 {
        bytes[i] = 16 * lower_value(text[2 * i]) + lower_value(text[2 * i + 1]);
    }
    Some(bytes)
}
