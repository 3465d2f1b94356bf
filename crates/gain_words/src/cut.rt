//! A name and its value, with `=` between.
ghost use Rattle.std.specs.Prelude.{◌≡◌, false};
ghost use Rattle.std.specs.List.{AllWithin, position_or_len};
ghost use Rattle.std.specs.Option.{option_copied};
ghost use Rattle.gain_words.specs.Words.{is_equals, name_in, value_in};

/// The offset of the first `=`, or the length if there is none.
fn first_equals(text: &[u8]) -> usize
    ensures offset { result ≡ position_or_len is_equals text.now }
    ensures before { AllWithin (λ b. is_equals b ≡ false) text.now 0 result }
{
    let mut offset = 0;
    while offset < text.len() && text[offset] != b'=' {
        offset += 1;
    }
    offset
}

/// The bytes before the first `=`, and the bytes after it. None is in place of these if there is no
/// `=`, and the name is then the whole text.
pub fn cut<'a>(text: &'a [u8]) -> (&'a [u8], Option<&'a [u8]>)
    ensures name { result.0.now ≡ name_in text.now }
    ensures value { option_copied result.1 ≡ value_in text.now }
{
    let offset = first_equals(text);
    if offset < text.len() {
        (&text[..offset], Some(&text[offset + 1..]))
    } else {
        (text, None)
    }
}
