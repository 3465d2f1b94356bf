//! The lines of a profile's text.
ghost use Rattle.std.specs.Prelude.{◌≡◌, option_copied};
ghost use Rattle.profile_reader.specs.Reading.{head_at, name_at, count_at, outcome_at, selection_at, output_at, visits_at};
ghost use Rattle.failures.specs.Answers.{Gives};
ghost use Rattle.profile_reader.specs.Standing.{ahead};

use crate::cursor::Cursor;
use crate::fault::{BookError, BookField};
use crate::fields::{
    expect_index, expect_word, parse_digest, parse_ending, parse_label, parse_name, parse_number,
    parse_speedup,
};
use coz_types::{Digest, Label, MAX_COUNT, MAX_NUMBER, MAX_POINTS, Outcome, Summary};

/// The budget and the number of points. Err is the first wrong item.
#[tactic(auto, unfolding(crate::specs::Reading::head_at, crate::specs::Reading::bind))]
pub fn parse_head<'a>(at: Cursor<'a>) -> Result<((u64, u64), Cursor<'a>), BookError>
    ensures { Gives (λ x. (x.0, ahead x.1)) result (head_at (ahead at.entry)) }
{
    let at = expect_word(at, BookField::Head, b"coz-ticks")?;
    let at = expect_word(at, BookField::Version, b"\tversion=1")?;
    let (budget, at) = parse_number(at, BookField::Budget, MAX_NUMBER)?;
    let (points, at) = parse_number(at, BookField::Points, MAX_POINTS as u64)?;
    let at = expect_word(at, BookField::Newline, b"\n")?;
    Ok(((budget, points), at))
}

/// The name of the point with this index, after the last one. Err is the first wrong item.
#[tactic(auto, unfolding(crate::specs::Reading::name_at, crate::specs::Reading::bind))]
pub fn parse_point<'a>(
    at: Cursor<'a>,
    number: u64,
    last: Option<&Label>,
) -> Result<(&'a [u8], Cursor<'a>), BookError>
    ensures { Gives (λ x. (x.0.now, ahead x.1)) result
        (name_at number (option_copied last.entry) (ahead at.entry)) }
{
    let at = expect_word(at, BookField::Point, b"point")?;
    let at = expect_index(at, number)?;
    let (label, at) = parse_name(at, last)?;
    let at = expect_word(at, BookField::Newline, b"\n")?;
    Ok((label, at))
}

/// Reads the number of visits of the point with this index. Err is the first wrong item.
#[tactic(auto, unfolding(crate::specs::Reading::count_at, crate::specs::Reading::bind))]
pub fn parse_count<'a>(at: Cursor<'a>, place: u64) -> Result<(u64, Cursor<'a>), BookError>
    ensures { Gives (λ x. (x.0, ahead x.1)) result (count_at place (ahead at.entry)) }
{
    let at = expect_word(at, BookField::Throughput, b"throughput-point")?;
    let at = expect_index(at, place)?;
    let (count, at) = parse_number(at, BookField::Delta, MAX_COUNT)?;
    let at = expect_word(at, BookField::Newline, b"\n")?;
    Ok((count, at))
}

/// Reads the outcome of a run. Err is the first wrong item.
#[tactic(auto, unfolding(crate::specs::Reading::outcome_at, crate::specs::Reading::bind))]
pub fn parse_outcome<'a>(at: Cursor<'a>) -> Result<(Outcome, Cursor<'a>), BookError>
    ensures { Gives (λ x. (x.0, ahead x.1)) result (outcome_at (ahead at.entry)) }
{
    let (ending, at) = parse_ending(at)?;
    let (time, at) = parse_number(at, BookField::Time, MAX_NUMBER)?;
    let (delay, at) = parse_number(at, BookField::Delay, time)?;
    let (retired, at) = parse_number(at, BookField::Retired, MAX_NUMBER)?;
    let (starts, at) = parse_number(at, BookField::Starts, MAX_NUMBER)?;
    let at = expect_word(at, BookField::Newline, b"\n")?;
    let outcome = Outcome {
        ending,
        time,
        delay,
        retired,
        starts,
    };
    Ok((outcome, at))
}

/// The selected line's label and the speedup, after the last block. Err is the first wrong
/// item.
#[tactic(auto, unfolding(crate::specs::Reading::selection_at, crate::specs::Reading::bind))]
pub fn parse_selection<'a>(
    at: Cursor<'a>,
    last: Option<&Summary>,
) -> Result<((&'a [u8], u8), Cursor<'a>), BookError>
    ensures { Gives (λ x. ((x.0.0.now, x.0.1), ahead x.1)) result
        (selection_at (option_copied last.entry) (ahead at.entry)) }
{
    let at = expect_word(at, BookField::Experiment, b"experiment")?;
    let (label, at) = parse_label(at, last)?;
    let (speedup, at) = parse_speedup(at, last, label)?;
    Ok(((label, speedup), at))
}

/// The output's length and digest. Err is the first wrong item.
#[tactic(auto, unfolding(crate::specs::Reading::output_at, crate::specs::Reading::bind))]
pub fn parse_output<'a>(at: Cursor<'a>) -> Result<((u64, Digest), Cursor<'a>), BookError>
    ensures { Gives (λ x. ((x.0.0, x.0.1.bytes), ahead x.1)) result (output_at (ahead at.entry)) }
{
    let at = expect_word(at, BookField::Output, b"output")?;
    let (length, at) = parse_number(at, BookField::Length, MAX_NUMBER)?;
    let (digest, at) = parse_digest(at)?;
    let at = expect_word(at, BookField::Newline, b"\n")?;
    Ok(((length, digest), at))
}

/// The digest of the visits. Err is the first wrong item.
#[tactic(auto, unfolding(crate::specs::Reading::visits_at, crate::specs::Reading::bind))]
pub fn parse_visits<'a>(at: Cursor<'a>) -> Result<(Digest, Cursor<'a>), BookError>
    ensures { Gives (λ x. (x.0.bytes, ahead x.1)) result (visits_at (ahead at.entry)) }
{
    let at = expect_word(at, BookField::Visits, b"visits")?;
    let (digest, at) = parse_digest(at)?;
    let at = expect_word(at, BookField::Newline, b"\n")?;
    Ok((digest, at))
}
