//! The next item of a text.
ghost use Rattle.std.specs.Prelude.{◌≡◌, ◌<◌, ◌≤◌, ◌∷◌, length, take, drop};
ghost use Rattle.profile_reader.specs.Items.{items_of, is_cut};

fn is_cut(byte: u8) -> bool
    ensures { result ≡ is_cut byte }
{
    byte == b'\t' || byte == b'\n'
}

/// The number of bytes of the first item.
pub fn item_length(text: &[u8]) -> usize
    requires { 0 < length text.now }
    ensures within { result ≤ length text.now }
    ensures item { items_of text.now ≡ take result text.now ∷ items_of (drop result text.now) }
{
    if text[0] == b'\n' {
        return 1;
    }
    for i in 1..text.len() {
        if is_cut(text[i]) {
            return i;
        }
    }
    text.len()
}
