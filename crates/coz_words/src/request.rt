//! The request of a command line.
ghost use Rattle.std.specs.Prelude.{◌≡◌, ◌⊎◌, ◌&&◌, List, Ok, Err, IfOk, Option, Some, None, if◌then◌else◌};
ghost use Rattle.std.specs.List.{list_all};
ghost use Rattle.std.specs.Option.{option_copied};
ghost use Rattle.clap.specs.Words.{first_value, found_of};
ghost use Rattle.coz_words.specs.Answers.{Answers, bytes_of, option_value};
ghost use Rattle.coz_words.specs.Parse.{target_id};
ghost use Rattle.coz_words.specs.Said.{Text};
ghost use Rattle.coz_words.specs.Request.{IsFit, Requests, are_right, counts_with, has_text, option_names, request_with, none_or, is_some_text};
ghost use Rattle.coz_words.specs.Slow.{request_in, request_of};
ghost use Rattle.coz_words.specs.declared.request.WordsError.TheVariants.{Usage, Memory};

use crate::command::{Command, has_option, option_names};
use crate::parse::parsed;
use crate::spelling::command_in;
use crate::value::{
    greatest_budget, has_needed, is_line_or_none, is_list_or_none, number_or, seed_of, speedup_of,
    speedups_of, usual_budget, version_of,
};
use crate::word::{Word, copied_pair};
use clap::ArgMatches;
use coz_types::{Items, MAX_SIZE, MAX_WORKERS};
use std::alloc::{AllocError, AllocFailed, Global};

/// The workers if the words name none.
const USUAL_WORKERS: u64 = 4;
/// The size if the words name none.
const USUAL_SIZE: u64 = 100;

/// The request that the arguments make. A field that the command lacks is `None`, 0 or empty.
#[derive(Drop)]
pub struct Request {
    /// The command.
    pub command: Command,
    /// The path of the program's, the profile's or the source's file, which isn't empty.
    pub target: Word,
    /// The path of the file that the program reads, if it isn't to read an empty one.
    pub input: Option<Word>,
    /// The selected line, as it was given, if there is one.
    pub line: Option<Word>,
    /// The speedup of the selected line, in percent: 0 to 95, and 0 if no line is selected.
    pub speedup: u8,
    /// The list of lines to be selected in turn, as it was given, if there is one.
    pub lines: Option<Word>,
    /// The list of progress lines, as it was given, if there is one.
    pub progress: Option<Word>,
    /// The speedups to be tried, in percent, as they were given.
    pub speedups: Items<u8>,
    /// The most instructions to retire: 1 to 10^12, for `path` 1 to 4,000,000, and 0 if
    /// the command runs nothing.
    pub budget: u64,
    /// The number of workers: 1 to 16, and 0 if the command has none.
    pub workers: u32,
    /// The seed of a source, and 0 if the command makes none.
    pub seed: u64,
    /// The size of a source that is made: 1 to 2,000, and 0 if the command makes none.
    pub size: u32,
    /// The version of the line table that is written: 4 or 5, and 0 if the command writes none.
    pub dwarf: u8,
    /// The list of the lines at which requests arrive, as it was given, if there is one.
    pub arrive: Option<Word>,
    /// The list of the lines at which they depart, as it was given, if there is one.
    pub depart: Option<Word>,
}

/// Why there is no request.
#[derive(Clone, Copy, PartialEq, Eq)]
pub enum WordsError {
    /// The arguments are no request.
    Usage,
    /// Out of memory.
    Memory,
}

impl From<AllocError> for WordsError {
    ghost from_gives = { λ _ e. e ≡ Memory };

    fn from(_: AllocError) -> WordsError {
        WordsError::Memory
    }
}

impl<T: Drop> From<AllocFailed<T>> for WordsError {
    ghost from_gives = { λ _ e. e ≡ Memory };

    fn from(_: AllocFailed<T>) -> WordsError {
        WordsError::Memory
    }
}

/// The text of the command's option of that name, if the command has it and it is given.
fn text_of<'a>(command: Command, matches: &ArgMatches<'a>, name: &str) -> Option<&'a str>
    ensures { option_copied result
        ≡ option_value command (first_value (found_of matches.now)) name.now }
{
    if has_option(command, name) {
        matches.get_str(name)
    } else {
        None
    }
}

/// The numbers of a request that are no parts of lists.
#[derive(Clone, Copy, Drop)]
struct Counts {
    budget: u64,
    workers: u32,
    size: u32,
    dwarf: u8,
    seed: u64,
}

/// The numbers that the values make.
fn counts_of(command: Command, matches: &ArgMatches, target: &str) -> Result<Counts, WordsError>
    ensures { Answers (counts_with command target.now
        (option_value command (first_value (found_of matches.now)))) result }
{
    let budget = number_or(
        command,
        "budget",
        usual_budget(command),
        1,
        greatest_budget(command),
        text_of(command, matches, "budget"),
    )?;
    let workers = number_or(
        command,
        "workers",
        USUAL_WORKERS,
        1,
        MAX_WORKERS,
        text_of(command, matches, "workers"),
    )?;
    let size = number_or(
        command,
        "size",
        USUAL_SIZE,
        1,
        MAX_SIZE,
        text_of(command, matches, "size"),
    )?;
    let dwarf = version_of(command, text_of(command, matches, "dwarf"))?;
    let seed = seed_of(command, target)?;
    Ok(Counts {
        budget,
        workers: workers as u32,
        size: size as u32,
        dwarf,
        seed,
    })
}

/// The texts of a request.
#[derive(Drop)]
struct Texts {
    target: Word,
    input: Option<Word>,
    line: Option<Word>,
    lines: Option<Word>,
    progress: Option<Word>,
    arrive: Option<Word>,
    depart: Option<Word>,
}

/// The texts, copied.
fn texts_of(
    alloc: Global,
    target: &str,
    input: Option<&str>,
    line: Option<&str>,
    lines: Option<&str>,
    progress: Option<&str>,
    arrive: Option<&str>,
    depart: Option<&str>,
) -> Result<Texts, AllocError>
    ensures target { IfOk result (λ texts. texts.target ≡ target.now) }
    ensures input { IfOk result (λ texts. texts.input ≡ option_copied input.entry) }
    ensures line { IfOk result (λ texts. texts.line ≡ option_copied line.entry) }
    ensures lines { IfOk result (λ texts. texts.lines ≡ option_copied lines.entry) }
    ensures progress { IfOk result (λ texts. texts.progress ≡ option_copied progress.entry) }
    ensures arrive { IfOk result (λ texts. texts.arrive ≡ option_copied arrive.entry) }
    ensures depart { IfOk result (λ texts. texts.depart ≡ option_copied depart.entry) }
{
    let target = Word::copy(alloc, target)?;
    let (input, line) = copied_pair(alloc, input, line)?;
    let (lines, progress) = copied_pair(alloc, lines, progress)?;
    let (arrive, depart) = copied_pair(alloc, arrive, depart)?;
    Ok(Texts {
        target,
        input,
        line,
        lines,
        progress,
        arrive,
        depart,
    })
}

/// Whether the line and the lists are such, if they are given, and those are given that
/// the command needs.
fn are_right(
    command: Command,
    line: Option<&str>,
    lines: Option<&str>,
    progress: Option<&str>,
    arrive: Option<&str>,
    depart: Option<&str>,
) -> bool
    ensures { result
        ≡ are_right command (option_copied line.entry) (option_copied lines.entry)
        (option_copied progress.entry) (option_copied arrive.entry) (option_copied depart.entry) }
{
    is_line_or_none(line)
        && is_list_or_none(lines)
        && is_list_or_none(progress)
        && is_list_or_none(arrive)
        && is_list_or_none(depart)
        && has_needed(command, line, arrive, depart)
}

/// The request that the values make.
fn request_of(alloc: Global, command: Command, matches: &ArgMatches) -> Result<Request, WordsError>
    ensures { Answers (request_with command (first_value (found_of matches.now) target_id)
        (option_value command (first_value (found_of matches.now)))) result }
{
    let input = text_of(command, matches, "input");
    let line = text_of(command, matches, "line");
    let lines = text_of(command, matches, "lines");
    let progress = text_of(command, matches, "progress");
    let arrive = text_of(command, matches, "arrive");
    let depart = text_of(command, matches, "depart");
    if !are_right(command, line, lines, progress, arrive, depart) {
        return Err(WordsError::Usage);
    }
    let target = matches.get_str("target").ok_or(WordsError::Usage)?;
    let speedup = speedup_of(line, text_of(command, matches, "speedup"))?;
    let speedups = speedups_of(alloc, command, text_of(command, matches, "speedups"))?;
    let counts = counts_of(command, matches, target)?;
    let texts = texts_of(alloc, target, input, line, lines, progress, arrive, depart)?;
    Ok(Request {
        command,
        target: texts.target,
        input: texts.input,
        line: texts.line,
        speedup,
        lines: texts.lines,
        progress: texts.progress,
        speedups,
        budget: counts.budget,
        workers: counts.workers,
        seed: counts.seed,
        size: counts.size,
        dwarf: counts.dwarf,
        arrive: texts.arrive,
        depart: texts.depart,
    })
}

fn has_text(text: Option<&str>) -> bool
    ensures { result ≡ none_or is_some_text (option_copied text.entry) }
{
    text.is_none_or(|text| !text.is_empty())
}

/// Whether no text is empty.
fn are_texts(command: Command, matches: &ArgMatches) -> bool
    ensures { result ≡ (none_or is_some_text (first_value (found_of matches.now) target_id)
        && list_all (λ name.
        none_or is_some_text (option_value command (first_value (found_of matches.now)) name))
        (option_names command)) }
{
    has_text(matches.get_str("target"))
        && option_names(command)
            .iter()
            .all(|name| has_text(text_of(command, matches, *name)))
}

/// The answer of `read_words`.
fn request_in(alloc: Global, words: &[String]) -> Result<Request, WordsError>
    ensures { Answers (request_in (bytes_of words.now)) result }
{
    let Some(command) = command_in(words) else {
        return Err(WordsError::Usage);
    };
    let Some(matches) = parsed(alloc, option_names(command), words)? else {
        return Err(WordsError::Usage);
    };
    if !are_texts(command, &matches) {
        return Err(WordsError::Usage);
    }
    request_of(alloc, command, &matches)
}

/// The request that the words after the program's name make:
///
/// - `run` or `really`, the program's path, and `--input FILE`, `--line LINE`, `--speedup P`,
///   `--progress LIST` and `--budget N` in any order, each at most once;
/// - `profile`, the program's path, and `--input FILE`, `--lines LIST`, `--progress LIST`,
///   `--speedups NUMBERS`, `--budget N` and `--workers W` likewise;
/// - `lines` and the program's path;
/// - `plot` and the profile's path;
/// - `asm`, the source's path, and `--dwarf V`;
/// - `trial`, a number below 2^64, and `--size N` and `--workers W` likewise;
/// - `latency`, the program's path, `--line LINE`, `--arrive LIST` and `--depart LIST`,
///   which are all required, and `--input FILE`, `--speedups NUMBERS` and `--budget N` likewise;
/// - `path`, the program's path, and `--input FILE` and `--budget N` likewise.
///
/// A value may follow a `=` in the option's own argument; an argument `--` ends the options.
/// A number has 1 to 20 digits. A speedup is 0 to 95, and stands beside a line;
/// a budget is 1 to 10^12, and 10^8 if none is given; for `path` it is 1 to 4,000,000,
/// and 1,000,000 if none is given. There are 1 to 16 workers, 4 if none is given. A version is
/// 4 or 5, and 4 if none is given. A size is 1 to 2,000, and 100 if none is given.
/// A line is a path without a comma, `:` and a number from 1 to 2^32 - 1; a list is one line
/// or more, with a comma between, and so are NUMBERS of speedups, which are 0, 5, 10
/// and so on to 95 if none are given.
/// All other words are `Usage`. Any words may be answered by `Memory` instead, if it is out of
/// memory.
pub fn read_words(alloc: Global, words: &[String]) -> Result<Request, WordsError>
    ensures asked { Answers (request_of (bytes_of words.now)) result }
    ensures given { IfOk result (λ request. Requests (bytes_of words.now) request) }
    ensures only { (request : Request) → Requests (bytes_of words.now) request
        → (result ≡ Ok request) ⊎ (result ≡ Err Memory) }
    ensures usage { (result ≡ Err Usage
        → (request : Request) → Requests (bytes_of words.now) request → ⊥)
        × (((request : Request) → Requests (bytes_of words.now) request → ⊥)
        → (result ≡ Err Usage) ⊎ (result ≡ Err Memory)) }
    ensures fit { IfOk result IsFit }
    ensures law { (others : List Text) (request : Request)
        → (request_in others ≡ Some request → Requests others request)
        × (Requests others request → request_in others ≡ Some request) }
{
    request_in(alloc, words)
}
