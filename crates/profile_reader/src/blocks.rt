//! The lines of a profile's text that come several times.
ghost use Rattle.std.specs.Prelude.{◌≡◌, None, option_copied};
ghost use Rattle.profile_reader.specs.Reading.{counts_at, names_at, block_at, blocks_at};
ghost use Rattle.failures.specs.Answers.{Gives};
ghost use Rattle.profile_reader.specs.Standing.{ahead};

use crate::block_lines::{
    parse_count, parse_outcome, parse_output, parse_point, parse_selection, parse_visits,
};
use crate::cursor::Cursor;
use crate::fault::BookError;
use crate::scan::is_done;
use coz_types::{Items, Label, Summary};
use std::alloc::Global;

/// The number of visits of each point. Err is the first wrong item, or out of memory.
pub fn parse_counts<'a>(
    alloc: Global,
    all: u64,
    at: Cursor<'a>,
) -> Result<(Vec<u64>, Cursor<'a>), BookError>
    ensures { Gives (λ x. (x.0.items, ahead x.1)) result (counts_at all 0 (ahead at.entry)) }
{
    let mut counts = Vec::new(alloc);
    let mut rest = at;
    for place in 0..all {
        let (count, next) = parse_count(rest, place)?;
        counts.push(count)?;
        rest = next;
    }
    Ok((counts, rest))
}

/// The names of the points. Err is the first wrong item, or out of memory.
pub fn parse_points<'a>(
    alloc: Global,
    all: u64,
    at: Cursor<'a>,
) -> Result<(Vec<Label>, Cursor<'a>), BookError>
    ensures { Gives (λ x. (x.0.items, ahead x.1)) result (names_at all 0 None (ahead at.entry)) }
{
    let mut names: Vec<Label> = Vec::new(alloc);
    let mut rest = at;
    for place in 0..all {
        let (name, next) = parse_point(rest, place, names.last())?;
        names.push(Label::copy(alloc, name)?)?;
        rest = next;
    }
    Ok((names, rest))
}

/// A block, after the last one. Err is the first wrong item, or out of memory.
#[tactic(auto, unfolding(crate::specs::Reading::block_at, crate::specs::Reading::bind))]
pub fn parse_block<'a>(
    alloc: Global,
    points: u64,
    at: Cursor<'a>,
    last: Option<&Summary>,
) -> Result<(Summary, Cursor<'a>), BookError>
    ensures { Gives (λ x. (x.0, ahead x.1)) result
        (block_at points (option_copied last.entry) (ahead at.entry)) }
{
    let ((label, speedup), at) = parse_selection(at, last)?;
    let (outcome, at) = parse_outcome(at)?;
    let ((length, output), at) = parse_output(at)?;
    let (counts, at) = parse_counts(alloc, points, at)?;
    let (visits, at) = parse_visits(at)?;
    let selected = Label::copy(alloc, label)?;
    let counts = Items::new(counts);
    let summary = Summary {
        selected,
        speedup,
        outcome,
        length,
        output,
        counts,
        visits,
    };
    Ok((summary, at))
}

/// The blocks up to the end of the text, of which there are at most `most`.
/// Err is the first wrong item, or out of memory.
pub fn parse_blocks(
    alloc: Global,
    most: usize,
    points: u64,
    at: Cursor<'_>,
) -> Result<Vec<Summary>, BookError>
    ensures { Gives (λ blocks. blocks.items) result (blocks_at most points None (ahead at.entry)) }
{
    let mut summaries: Vec<Summary> = Vec::new(alloc);
    let mut rest = at;
    for turn in 0..most {
        if is_done(rest) {
            return Ok(summaries);
        }
        let (summary, next) = parse_block(alloc, points, rest, summaries.last())?;
        summaries.push(summary)?;
        rest = next;
    }
    Ok(summaries)
}
