//! Texts in the order of their bytes from the last to the first, in which those that end alike are
//! neighbours.

ghost use Rattle.std.specs.Prelude.{◌≡◌, reverse};
ghost use Rattle.std.specs.Ordering.{nat_cmp};
ghost use Rattle.std.specs.Cmp.Lexicographic.{slice_cmp};
ghost use Rattle.line_index.specs.Backwards.{ending, start_cmp};

use std::cmp::Ordering;

/// The order of two texts by their bytes from the last to the first.
pub fn backward_cmp(one: &[u8], other: &[u8]) -> Ordering
    ensures { result ≡ slice_cmp nat_cmp (reverse one.now) (reverse other.now) }
{
    let mut ahead = one;
    let mut left = other;
    while let Some((last, front)) = left.split_last() {
        match ahead.split_last() {
            Some((byte, rest)) => {
                if byte != last {
                    return byte.cmp(last);
                }
                ahead = rest;
                left = front;
            }
            None => return Ordering::Less,
        }
    }
    match ahead.split_last() {
        Some(_) => Ordering::Greater,
        None => Ordering::Equal,
    }
}

/// Whether in that order a path is before the paths that end with a slash and the text, is one of
/// them (`Equal`), or is after them.
pub fn ending_cmp(path: &[u8], text: &[u8]) -> Ordering
    ensures { result ≡ start_cmp (ending text.now) (reverse path.now) }
{
    let mut ahead = path;
    let mut left = text;
    while let Some((last, front)) = left.split_last() {
        match ahead.split_last() {
            Some((byte, rest)) => {
                if byte != last {
                    return byte.cmp(last);
                }
                ahead = rest;
                left = front;
            }
            None => return Ordering::Less,
        }
    }
    match ahead.split_last() {
        Some((byte, _)) => byte.cmp(&b'/'),
        None => Ordering::Less,
    }
}
