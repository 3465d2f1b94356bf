//! Lines that keep their addresses, and lines that get the addresses of another.

ghost use Rattle.std.specs.Prelude.{◌≡◌, ◌<◌, ◌+◌, ◌^◌, ◌++◌, ◌∷◌, [], Some, None, true, false, take, drop, length, codes, bytes_eq, All, IfOk, IfSome, MatchOption};
ghost use Rattle.coz_types.specs.Labels.{is_label, line_number, number_of, parts_of, path_of};
ghost use Rattle.coz_types.specs.declared.LineId.{LineId};
ghost use Rattle.line_remap.specs.Locations.{lines_of};
ghost use Rattle.line_remap.specs.Marks.{IsMark, IsText, has_zero, kept_marks, line_at, marks_of, own_line, positions_of};
ghost use Rattle.line_remap.specs.Sound.{IsSound};

use crate::location::Location;
use coz_types::{Address, LineId, MAX_LINE};
use line_index::LineIndex;
use profile_labels::decimal;
use std::alloc::{AllocError, Global};

/// A line of a program, and the line that gets its addresses.
#[derive(Clone, Copy)]
pub struct Mark<'a> {
    /// The line whose addresses they are.
    pub line: LineId,
    /// The line that gets them.
    pub location: Location<'a>,
}

/// A zero byte as written paths have it.
const ZERO: &[u8] = b"%00";

/// Whether a zero byte stands in the path, in its written form.
pub fn has_zero(path: &[u8]) -> bool
    ensures { result ≡ has_zero path.now }
{
    for start in 0..path.len() {
        if starts_with_zero(&path[start..]) {
            return true;
        }
    }
    false
}

/// Whether the bytes begin with the written form of a zero byte.
fn starts_with_zero(bytes: &[u8]) -> bool
    ensures { result ≡ bytes_eq (take 3 bytes.now) (codes "%00") }
{
    &bytes[..bytes.len().min(ZERO.len())] == ZERO
}

/// The index of the last colon.
fn last_colon(label: &[u8]) -> Option<usize>
    ensures { MatchOption result (parts_of label.now ≡ None) (λ i.
        (i < length label.now)
        × (parts_of label.now ≡ Some (take i label.now, drop (i + 1) label.now))) }
{
    for i in (0..label.len()).rev() {
        if label[i] == b':' {
            return Some(i);
        }
    }
    None
}

/// The number of a line, as a label spells it.
fn line_number(text: &[u8]) -> u32
    ensures value { result ≡ line_number text.now }
    ensures small { result < 2 ^ 32 }
{
    match decimal(text, MAX_LINE) {
        Some(number) => number as u32,
        None => 0,
    }
}

/// The path and the number of a label.
pub fn location_of<'a>(label: &'a [u8]) -> Location<'a>
    requires { is_label label.now ≡ true }
    ensures path { result.path.now ≡ path_of label.now }
    ensures number { result.number ≡ number_of label.now }
    ensures right { has_zero (path_of label.now) ≡ false → IsText result }
{
    match last_colon(label) {
        Some(colon) => Location {
            path: &label[..colon],
            number: line_number(&label[colon + 1..]),
        },
        None => Location {
            path: label,
            number: 0,
        },
    }
}

/// A line as its label spells it, unless a zero byte stands in its path.
fn location_of_line<'a>(index: &'a LineIndex, line: LineId) -> Option<Location<'a>>
    requires { line.0 < length index.now.lines }
    ensures location { lines_of result ≡ line_at index.now line.0 }
    ensures text { IfSome result IsText }
{
    let location = location_of(index.label(line).bytes());
    if has_zero(location.path) {
        return None;
    }
    Some(location)
}

/// The line of an address, unless it has none or a zero byte stands in its path.
pub fn location_at<'a>(index: &'a LineIndex, address: Address) -> Option<Location<'a>>
    requires { IsSound index.now }
    ensures location { lines_of result ≡ own_line index.now address }
    ensures text { IfSome result IsText }
{
    match index.line_of(address) {
        Some(line) => location_of_line(index, line),
        None => None,
    }
}

/// Adds the mark by which a line keeps its addresses.
fn push_kept<'a>(
    marks: &mut Vec<Mark<'a>>,
    index: &'a LineIndex,
    line: LineId,
) -> Result<(), AllocError>
    requires { line.0 < length index.now.lines }
    ensures marks { IfOk result (λ _. marks_of marks.new.items
        ≡ marks_of marks.old.items ++ kept_marks index.now (line.0 ∷ [])) }
    ensures right { IfOk result (λ _. All (IsMark index.now) marks.old.items
        → All (IsMark index.now) marks.new.items) }
{
    if let Some(location) = location_of_line(index, line) {
        marks.push(Mark { line, location })?;
    }
    Ok(())
}

/// Returns the marks by which lines keep their addresses. A line whose path has a zero byte has
/// no mark.
pub fn kept_marks<'a>(
    alloc: Global,
    index: &'a LineIndex,
    kept: &[LineId],
) -> Result<Vec<Mark<'a>>, AllocError>
    requires { All (λ (line : LineId). line.0 < length index.now.lines) kept.now }
    ensures marks { IfOk result (λ marks.
        marks_of marks.items ≡ kept_marks index.now (positions_of kept.now)) }
    ensures right { IfOk result (λ marks. All (IsMark index.now) marks.items) }
{
    let mut marks = Vec::new(alloc);
    for line in kept {
        push_kept(&mut marks, index, *line)?;
    }
    Ok(marks)
}
