//! The bytes of labels in a page.
ghost use Rattle.std.specs.Prelude.{◌≡◌, ◌∷◌, [], List, ℕ, true, unwrap_or};
ghost use Rattle.std.specs.List.{list_all};
ghost use Rattle.std.specs.Option.{option_copied};
ghost use Rattle.page_values.specs.Labels.{html, html_byte, is_plain};

/// The character reference that stands for a byte in a page, by its name in HTML: `&`, `<`, `>`
/// and `"` have one. None if the byte stands for itself.
pub fn reference_of(byte: u8) -> Option<&'static [u8]>
    ensures { unwrap_or (option_copied result) (byte ∷ []) ≡ html_byte byte }
{
    match byte {
        b'&' => Some(b"&amp;"),
        b'<' => Some(b"&lt;"),
        b'>' => Some(b"&gt;"),
        b'"' => Some(b"&quot;"),
        _ => None,
    }
}

/// No label brings markup into a page, or ends a text in quotes.
pub fn no_markup()
    ensures { (label : List ℕ) → list_all is_plain (html label) ≡ true }
{}
