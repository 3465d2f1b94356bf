//! The path and the number of a label.
ghost use Rattle.std.specs.Prelude.{◌≡◌, ◌+◌, ◌<◌, take, drop, length, None, Some, MatchOption};
ghost use Rattle.std.specs.Option.{option_copied};
ghost use Rattle.coz_types.specs.Labels.{parts_of, line_number, path_of, number_of};
ghost use Rattle.page_cli.specs.Lines.{is_of_file};

use coz_types::MAX_LINE;
use profile_labels::decimal;

fn last_colon(label: &[u8]) -> Option<usize>
    ensures { MatchOption result (parts_of label.now ≡ None) (λ i.
        (i < length label.now)
        × (parts_of label.now ≡ Some (take i label.now, drop (i + 1) label.now))) }
{
    for i in (0..label.len()).rev() {
        if label[i] == b':' {
            return Some(i);
        }
    }
    None
}

fn line_number(text: &[u8]) -> u64
    ensures { result ≡ line_number text.now }
{
    decimal(text, MAX_LINE).unwrap_or(0)
}

/// The number of a label's line, or 0 if it has none.
pub fn number_of(label: &[u8]) -> u64
    ensures { result ≡ number_of label.now }
{
    match last_colon(label) {
        Some(colon) => line_number(&label[colon + 1..]),
        None => 0,
    }
}

/// The path of a label: the bytes before its last colon.
pub fn path_of(label: &[u8]) -> &[u8]
    ensures { result.now ≡ path_of label.now }
{
    match last_colon(label) {
        Some(colon) => &label[..colon],
        None => label,
    }
}

/// Returns whether the path of a label begins or ends with the pattern; true without a pattern.
pub fn is_of_file(pattern: Option<&[u8]>, label: &[u8]) -> bool
    ensures { result ≡ is_of_file (option_copied pattern.entry) label.now }
{
    match pattern {
        Some(pattern) => {
            let path = path_of(label);
            path.starts_with(pattern) || path.ends_with(pattern)
        }
        None => true,
    }
}
