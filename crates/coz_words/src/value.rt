//! What the values of options mean.
ghost use Rattle.std.specs.Prelude.{◌≡◌, ◌&&◌};
ghost use Rattle.std.specs.Option.{option_copied};
ghost use Rattle.coz_types.specs.declared.TheConstants.{MIN_VERSION, MAX_VERSION};
ghost use Rattle.experiment_plan.specs.Lists.{is_line, is_list, number_in, pieces};
ghost use Rattle.coz_words.specs.Answers.{Answers};
ghost use Rattle.coz_words.specs.Request.{dwarf_name, greatest_budget, has_needed, none_or, number_or, numbers_in, seed_in, speedup_in, speedups_in, usual_budget};

use crate::command::{Command, has_option};
use crate::request::WordsError;
use coz_types::{Items, MAX_BUDGET, MAX_SPEEDUP, MAX_VERSION, MIN_VERSION};
use experiment_plan::{first_piece, is_line, is_list, number_in};
use std::alloc::Global;

/// The budget of a run if the words give none, in instructions.
const USUAL_BUDGET: u64 = 100_000_000;
/// The budget of a run whose critical path is asked for, if the words give none.
const USUAL_PATH_BUDGET: u64 = 1_000_000;
/// The greatest budget of such a run: each instruction takes up to 80 bytes.
const MAX_PATH_BUDGET: u64 = 4_000_000;

/// The speedups, in percent, if the words give none.
static ALL_SPEEDUPS: [u8; 20] = [
    0, 5, 10, 15, 20, 25, 30, 35, 40, 45, 50, 55, 60, 65, 70, 75, 80, 85, 90, 95,
];

/// Whether the line is one, if it is given.
pub fn is_line_or_none(line: Option<&str>) -> bool
    ensures { result ≡ none_or is_line (option_copied line.entry) }
{
    line.is_none_or(|text| is_line(text.as_bytes()))
}

/// Whether the list is one, if it is given.
pub fn is_list_or_none(list: Option<&str>) -> bool
    ensures { result ≡ none_or is_list (option_copied list.entry) }
{
    list.is_none_or(|text| is_list(text.as_bytes()))
}

/// Whether the options are there without which the command's words make no request.
pub fn has_needed(
    command: Command,
    line: Option<&str>,
    arrive: Option<&str>,
    depart: Option<&str>,
) -> bool
    ensures { result
        ≡ has_needed command (option_copied line.entry) (option_copied arrive.entry)
        (option_copied depart.entry) }
{
    match command {
        Command::Latency => line.is_some() && arrive.is_some() && depart.is_some(),
        _ => true,
    }
}

/// The budget of the command, in instructions, if the words give none.
pub fn usual_budget(command: Command) -> u64
    ensures { result ≡ usual_budget command }
{
    match command {
        Command::Path => USUAL_PATH_BUDGET,
        _ => USUAL_BUDGET,
    }
}

/// The greatest budget of the command, in instructions.
pub fn greatest_budget(command: Command) -> u64
    ensures { result ≡ greatest_budget command }
{
    match command {
        Command::Path => MAX_PATH_BUDGET,
        _ => MAX_BUDGET,
    }
}

/// A number from `least` to `most`. If no text is given, it is the usual one,
/// or 0 if the command lacks the option.
pub fn number_or(
    command: Command,
    name: &str,
    usual: u64,
    least: u64,
    most: u64,
    text: Option<&str>,
) -> Result<u64, WordsError>
    ensures { Answers (number_or command name.now usual least most (option_copied text.entry))
        result }
{
    match text {
        Some(number) => number_in(number.as_bytes(), least, most).ok_or(WordsError::Usage),
        None => Ok(if has_option(command, name) { usual } else { 0 }),
    }
}

/// The speedup of a line, in percent.
/// Err if the text is no number from 0 to 95, or stands beside no line.
pub fn speedup_of(line: Option<&str>, text: Option<&str>) -> Result<u8, WordsError>
    ensures { Answers (speedup_in (option_copied line.entry) (option_copied text.entry)) result }
{
    match (line, text) {
        (_, None) => Ok(0),
        (None, Some(_)) => Err(WordsError::Usage),
        (Some(_), Some(number)) => speedup_in(number.as_bytes()),
    }
}

fn speedup_in(text: &[u8]) -> Result<u8, WordsError>
    ensures { Answers (number_in 0 MAX_SPEEDUP text.now) result }
{
    match number_in(text, 0, MAX_SPEEDUP) {
        Some(speedup) => Ok(speedup as u8),
        None => Err(WordsError::Usage),
    }
}

/// The version of a line table. If no text is given, it is the least,
/// or 0 if the command lacks the option.
pub fn version_of(command: Command, text: Option<&str>) -> Result<u8, WordsError>
    ensures { Answers (number_or command dwarf_name MIN_VERSION MIN_VERSION MAX_VERSION
        (option_copied text.entry)) result }
{
    match text {
        Some(number) => version_in(number.as_bytes()),
        None => Ok(if has_option(command, "dwarf") {
            MIN_VERSION
        } else {
            0
        }),
    }
}

fn version_in(text: &[u8]) -> Result<u8, WordsError>
    ensures { Answers (number_in MIN_VERSION MAX_VERSION text.now) result }
{
    match number_in(text, u64::from(MIN_VERSION), u64::from(MAX_VERSION)) {
        Some(version) => Ok(version as u8),
        None => Err(WordsError::Usage),
    }
}

/// The seed of a source: the positional of `trial`, a number. Other commands have none.
pub fn seed_of(command: Command, target: &str) -> Result<u64, WordsError>
    ensures { Answers (seed_in command target.now) result }
{
    match command {
        Command::Trial => number_in(target.as_bytes(), 0, u64::MAX).ok_or(WordsError::Usage),
        _ => Ok(0),
    }
}

/// The speedups of a list with a comma between, in percent, as they were given.
fn speedups_in(alloc: Global, text: &[u8]) -> Result<Items<u8>, WordsError>
    ensures { Answers (numbers_in 0 MAX_SPEEDUP (pieces text.now)) result }
{
    let mut speedups = Vec::new(alloc);
    let mut left = Some(text);
    while let Some(list) = left {
        let (piece, rest) = first_piece(list);
        speedups.push(speedup_in(piece)?)?;
        left = rest;
    }
    Ok(Items::new(speedups))
}

/// The speedups, in percent: those given, all if none are, and none if
/// the command lacks the option.
pub fn speedups_of(
    alloc: Global,
    command: Command,
    text: Option<&str>,
) -> Result<Items<u8>, WordsError>
    ensures { Answers (speedups_in command (option_copied text.entry)) result }
{
    match text {
        Some(numbers) => speedups_in(alloc, numbers.as_bytes()),
        None if has_option(command, "speedups") => {
            Ok(Items::new(Vec::from_slice(alloc, ALL_SPEEDUPS.as_slice())?))
        }
        None => Ok(Items::new(Vec::new(alloc))),
    }
}
