//! The entry addresses of progress lines, each with its point.

ghost use Rattle.std.specs.Prelude.{◌≡◌, ◌≤◌, ◌<◌, ◌++◌, ℕ, length, All, IfOk, OnOk, find};
ghost use Rattle.std.specs.List.Sorted.{IsNonDecreasingBy, IsPartitionPoint};
ghost use Rattle.coz_types.specs.declared.TheConstants.{MAX_POINTS};
ghost use Rattle.coz_types.specs.declared.LineId.{LineId};
ghost use Rattle.progress_points.specs.declared.marks.Mark.{Mark};
ghost use Rattle.progress_points.specs.Points.{marks_at, is_at, first_point, point_in, ids};

use coz_types::{Address, LineId};
use line_index::LineIndex;
use std::alloc::{AllocError, Global};

/// An entry address and the point that it has.
#[derive(Clone, Copy)]
pub struct Mark {
    /// The entry address.
    pub address: Address,
    /// The number of the point.
    pub point: u16,
}

/// Appends a mark at each of these addresses.
fn add_marks(marks: &mut Vec<Mark>, addresses: &[Address], point: u16) -> Result<(), AllocError>
    ensures { OnOk result (marks.new.items ≡ marks.old.items ++ marks_at point addresses.now) }
{
    for address in addresses {
        marks.push(Mark {
            address: *address,
            point,
        })?;
    }
    Ok(())
}

/// The marks of these lines, line by line.
fn marks_by_line(
    alloc: Global,
    index: &LineIndex,
    lines: &[LineId],
) -> Result<Vec<Mark>, AllocError>
    requires below { All (λ (line : LineId). line.0 < length index.now.lines) lines.now }
    requires few { length lines.now ≤ MAX_POINTS }
    ensures { IfOk result (λ marks.
        (a : ℕ) → first_point a marks.items ≡ point_in index.now.entries (ids lines.now) a) }
{
    let mut marks = Vec::new(alloc);
    for (point, line) in lines.iter().enumerate() {
        add_marks(&mut marks, index.entries(*line), point as u16)?;
    }
    Ok(marks)
}

/// The marks of these lines in the order of their addresses, and those of one address in the order
/// of the lines.
pub fn marks_of(alloc: Global, index: &LineIndex, lines: &[LineId]) -> Result<Vec<Mark>, AllocError>
    requires below { All (λ (line : LineId). line.0 < length index.now.lines) lines.now }
    requires few { length lines.now ≤ MAX_POINTS }
    ensures in_order { IfOk result (λ marks.
        IsNonDecreasingBy (λ (mark : Mark). mark.address) marks.items) }
    ensures points { IfOk result (λ marks.
        (a : ℕ) → first_point a marks.items ≡ point_in index.now.entries (ids lines.now) a) }
{
    let mut marks = marks_by_line(alloc, index, lines)?;
    marks.sort_by_key(|mark| mark.address)?;
    Ok(marks)
}

/// The number of marks below an address.
fn place_of(marks: &[Mark], address: Address) -> usize
    requires { IsNonDecreasingBy (λ (mark : Mark). mark.address) marks.now }
    ensures { IsPartitionPoint (λ mark. mark.address < address)
        (λ mark. address ≤ mark.address) marks.now result }
{
    marks.partition_point(|mark| mark.address < address)
}

/// The first mark of an address among marks in the order of their addresses.
/// None if it has none.
pub fn first_mark(marks: &[Mark], address: Address) -> Option<Mark>
    requires { IsNonDecreasingBy (λ (mark : Mark). mark.address) marks.now }
    ensures { result ≡ find (is_at address) marks.now }
{
    let first = marks.first()?;
    let last = marks.last()?;
    if address < first.address {
        return None;
    }
    if last.address < address {
        return None;
    }
    let mark = marks.get(place_of(marks, address))?;
    if mark.address == address {
        Some(*mark)
    } else {
        None
    }
}
