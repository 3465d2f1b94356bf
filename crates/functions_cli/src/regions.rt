//! The regions that a list names.
ghost use Rattle.std.specs.Prelude.{◌≡◌, ◌<◌, ◌≤◌, ◌-◌, not, true, length, option_map, All, IfOk, IfSome};
ghost use Rattle.std.specs.List.{after_last, before_last, suffix_len};
ghost use Rattle.std.specs.Option.{option_copied};
ghost use Rattle.line_regions.specs.declared.lines.Region.{Region};
ghost use Rattle.line_regions.specs.Regions.{region_of};
ghost use Rattle.experiment_plan.specs.Lists.{is_line, pieces};
ghost use Rattle.functions_cli.specs.Regions.{are_regions, is_hyphen, region_in, region_named, region_to, regions_named, regions_of_pieces};
ghost use Rattle.functions_cli.specs.Answer.{AreRegions};

use coz_types::MAX_LINE;
use experiment_plan::{first_piece, is_line, line_parts, number_in};
use file_read::FileFault;
use line_regions::{Lines, Region};
use program_load::Fault as StepFault;
use std::alloc::Global;

/// The index after the last `-`, or 0 if there is none.
fn behind_last_hyphen(text: &[u8]) -> usize
    ensures within { result ≤ length text.now }
    ensures offset { suffix_len (λ b. not (is_hyphen b)) text.now ≡ length text.now - result }
{
    let mut offset = text.len();
    while offset > 0 && text[offset - 1] != b'-' {
        offset -= 1;
    }
    offset
}

/// The bytes before the last `-`, and the bytes after it.
fn cut_at_last_hyphen<'a>(text: &'a [u8]) -> (&'a [u8], &'a [u8])
    ensures before { result.0.now ≡ before_last is_hyphen text.now }
    ensures after { result.1.now ≡ after_last is_hyphen text.now }
{
    let offset = behind_last_hyphen(text);
    (&text[..offset.saturating_sub(1)], &text[offset..])
}

/// The path and the number of a line, and a last number.
fn region_to<'a>(line: &'a [u8], last: u32) -> Region<'a>
    requires { is_line line.now ≡ true }
    ensures region { region_of result ≡ region_to line.now last }
    ensures first { 0 < result.first }
{
    let (path, first) = line_parts(line);
    Region { path, first, last }
}

/// The region that a text is, if it is one: a line, `-` and a number from 1 to 2^32 - 1.
fn region_in<'a>(text: &'a [u8]) -> Option<Region<'a>>
    ensures region { option_map region_of result ≡ region_in text.now }
    ensures first { IfSome result (λ region. 0 < region.first) }
{
    let (line, last) = cut_at_last_hyphen(text);
    if !is_line(line) {
        return None;
    }
    let last = number_in(last, 1, MAX_LINE)?;
    Some(region_to(line, last as u32))
}

/// Whether a text is a list of regions: one or more, with a comma between.
pub fn are_regions(text: &[u8]) -> bool
    ensures { result ≡ are_regions text.now }
{
    let mut left = Some(text);
    while let Some(list) = left {
        let (piece, rest) = first_piece(list);
        if region_in(piece).is_none() {
            return false;
        }
        left = rest;
    }
    true
}

/// The region of a piece with the whole path that it names, if a line of the program is in it.
fn region_named<'a>(lines: &Lines<'a>, piece: &[u8]) -> Option<Region<'a>>
    ensures region { option_map region_of result ≡ region_named lines.now piece.now }
    ensures first { IfSome result (λ region. 0 < region.first) }
{
    let region = region_in(piece)?;
    lines.found(&region)
}

/// The regions of a list in order, or the first piece that names none.
fn regions_of_list<'a, 'w>(
    alloc: Global,
    lines: &Lines<'a>,
    text: &'w [u8],
) -> Result<Vec<Region<'a>>, StepFault<'w>>
    ensures regions { AreRegions (regions_of_pieces lines.now (pieces text.now)) result }
    ensures first { IfOk result (λ regions.
        All (λ (region : Region). 0 < region.first) regions.items) }
{
    let mut regions = Vec::new(alloc);
    let mut left = Some(text);
    while let Some(list) = left {
        let (piece, rest) = first_piece(list);
        let Some(region) = region_named(lines, piece) else {
            return Err(StepFault::NoLine(piece));
        };
        if regions.push(region).is_err() {
            return Err(StepFault::File(FileFault::Memory));
        }
        left = rest;
    }
    Ok(regions)
}

/// The regions of a list in order, or none if there is no list. Err is the first piece that names
/// none, or out of memory.
pub fn regions_named<'a, 'w>(
    alloc: Global,
    lines: &Lines<'a>,
    list: Option<&'w [u8]>,
) -> Result<Vec<Region<'a>>, StepFault<'w>>
    ensures regions { AreRegions (regions_named lines.now (option_copied list.entry)) result }
    ensures first { IfOk result (λ regions.
        All (λ (region : Region). 0 < region.first) regions.items) }
{
    match list {
        Some(list) => regions_of_list(alloc, lines, list),
        None => Ok(Vec::new(alloc)),
    }
}
