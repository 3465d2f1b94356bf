//! The spelling and the order of labels.
ghost use Rattle.std.specs.Prelude.{◌≡◌, ◌<◌, ◌+◌, ◌*◌, true, Some, None, take, drop, length, MatchOption};
ghost use Rattle.coz_types.specs.Labels.{is_hex_digit, hex_value, is_escaped, scan_step, is_written, parts_of, line_number, path_of, number_of, is_label, label_before};
ghost use Rattle.profile_labels.specs.LabelOrder.{label_cmp};
ghost use Rattle.profile_labels.specs.Scanning.{small_digit, small_next};

use crate::numbers::decimal;
use coz_types::MAX_LINE;
use std::cmp::Ordering;

fn is_hex_digit(byte: u8) -> bool
    ensures { result ≡ is_hex_digit byte }
{
    (b'0' <= byte && byte <= b'9') || (b'A' <= byte && byte <= b'F')
}

fn hex_value(digit: u8) -> u8
    requires { is_hex_digit digit ≡ true }
    ensures value { result ≡ hex_value digit }
    ensures small { result < 16 }
{
    if digit < b'A' {
        digit - b'0'
    } else {
        digit - b'A' + 10
    }
}

fn is_escaped(byte: u8) -> bool
    ensures { result ≡ is_escaped byte }
{
    byte < b'!' || (b'~' < byte || (byte == b'%' || byte == b','))
}

fn step(at: Option<Option<u8>>, byte: u8) -> Option<Option<Option<u8>>>
    requires { small_digit at }
    ensures next { result ≡ scan_step at byte }
    ensures small { small_next result }
{
    match at {
        None => {
            if byte == b'%' {
                Some(Some(None))
            } else if is_escaped(byte) {
                None
            } else {
                Some(None)
            }
        }
        Some(None) => {
            if is_hex_digit(byte) {
                Some(Some(Some(hex_value(byte))))
            } else {
                None
            }
        }
        Some(Some(high)) => {
            if is_hex_digit(byte) && is_escaped(16 * high + hex_value(byte)) {
                Some(None)
            } else {
                None
            }
        }
    }
}

fn is_written(path: &[u8]) -> bool
    ensures { result ≡ is_written path.now }
{
    let mut at = None;
    for byte in path {
        match step(at, *byte) {
            Some(next) => at = next,
            None => return false,
        }
    }
    at.is_none()
}

fn last_colon(label: &[u8]) -> Option<usize>
    ensures { MatchOption result (parts_of label.now ≡ None) (λ i.
        (i < length label.now)
        × (parts_of label.now ≡ Some (take i label.now, drop (i + 1) label.now))) }
{
    for i in (0..label.len()).rev() {
        if label[i] == b':' {
            return Some(i);
        }
    }
    None
}

fn line_number(text: &[u8]) -> u64
    ensures { result ≡ line_number text.now }
{
    decimal(text, MAX_LINE).unwrap_or(0)
}

fn number_of(label: &[u8]) -> u64
    ensures { result ≡ number_of label.now }
{
    match last_colon(label) {
        Some(colon) => line_number(&label[colon + 1..]),
        None => 0,
    }
}

fn path_of(label: &[u8]) -> &[u8]
    ensures { result.now ≡ path_of label.now }
{
    match last_colon(label) {
        Some(colon) => &label[..colon],
        None => label,
    }
}

/// Returns whether the bytes are a label in its one spelling.
pub fn is_label(label: &[u8]) -> bool
    ensures { result ≡ is_label label.now }
{
    let Some(colon) = last_colon(label) else {
        return false;
    };
    let path = &label[..colon];
    !path.is_empty() && (is_written(path) && 0 < line_number(&label[colon + 1..]))
}

/// Returns the order of two labels: by path, then by number.
pub fn label_order(a: &[u8], b: &[u8]) -> Ordering
    ensures { result ≡ label_cmp a.now b.now }
{
    path_of(a)
        .cmp(path_of(b))
        .then(number_of(a).cmp(&number_of(b)))
}

/// Returns whether a label comes before another, by path and then by number.
pub fn is_before(a: &[u8], b: &[u8]) -> bool
    ensures { result ≡ label_before a.now b.now }
{
    label_order(a, b).is_lt()
}
