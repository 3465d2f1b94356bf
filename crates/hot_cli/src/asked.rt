//! The request of the words.
ghost use Rattle.std.specs.Prelude.{◌≡◌, IfOk, None};
ghost use Rattle.coz_words.specs.Answers.{Answers, bytes_of};
ghost use Rattle.coz_words.specs.Request.{IsFit};
ghost use Rattle.coz_words.specs.Slow.{request_of};
ghost use Rattle.coz_words.specs.declared.command.Command.TheVariants.{Run};
ghost use Rattle.hot_cli.specs.Words.{hot_request, hot_request_of, run_in, is_right, scanned};

use crate::scan::{Scan, scan_of};
use coz_words::{Command, Request, WordsError, read_words};
use std::alloc::Global;

/// The request that the arguments make.
#[derive(Drop)]
pub struct HotRequest {
    /// The run that counts: its program, its input, its progress points and its budget.
    pub run: Request,
    /// The number of lines that are printed at most.
    pub top: u64,
    /// Whether labels alone are printed.
    pub names: bool,
}

/// Whether the options of the program are right: each is given at most once, with a value if it
/// has one.
fn is_right(scan: &Scan) -> bool
    ensures { result ≡ is_right (scanned scan.now) }
{
    !scan.twice && !scan.wanting && (!scan.topped || scan.top.is_some())
}

/// The request of `run` that words make, by the two clauses of `read_words` that are needed.
fn request(alloc: Global, words: &[String]) -> Result<Request, WordsError>
    ensures asked { Answers (request_of (bytes_of words.now)) result }
    ensures fit { IfOk result IsFit }
{
    read_words(alloc, words)
}

/// The request of `run` with no line that words make.
fn run_in(alloc: Global, words: &[String]) -> Result<Request, WordsError>
    ensures asked { Answers (run_in (bytes_of words.now)) result }
    ensures fit { IfOk result IsFit }
    ensures run { IfOk result (λ run. run.command ≡ Run) }
    ensures no_line { IfOk result (λ run. run.line ≡ None) }
{
    let run = request(alloc, words)?;
    match (run.command, &run.line) {
        (Command::Run, None) => Ok(run),
        _ => {
            // By one call, since a drop in place is proved part by part.
            drop(run);
            Err(WordsError::Usage)
        }
    }
}

/// The request of what the words give.
fn request_in(alloc: Global, scan: &Scan) -> Result<HotRequest, WordsError>
    ensures asked { Answers (hot_request_of (scanned scan.now)) result }
    ensures fit { IfOk result (λ asked. IsFit asked.run) }
    ensures run { IfOk result (λ asked. asked.run.command ≡ Run) }
    ensures no_line { IfOk result (λ asked. asked.run.line ≡ None) }
{
    if !is_right(scan) {
        return Err(WordsError::Usage);
    }
    match run_in(alloc, &scan.rest) {
        Ok(run) => Ok(HotRequest {
            run,
            top: scan.top.unwrap_or(u64::MAX),
            names: scan.names,
        }),
        Err(error) => Err(error),
    }
}

/// The request of the words after the program's name: those of `coz run` but `--line` and
/// `--speedup`, and in any order among them `--top N` or `--top=N` and `--names`, each at most
/// once. N is 1 to 2^64 - 1, of 1 to 20 digits. All other words are `Usage`. Any words may be
/// answered by `Memory`, if it is out of memory.
pub fn read_hot(alloc: Global, words: &[String]) -> Result<HotRequest, WordsError>
    ensures asked { Answers (hot_request (bytes_of words.now)) result }
    ensures fit { IfOk result (λ asked. IsFit asked.run) }
    ensures run { IfOk result (λ asked. asked.run.command ≡ Run) }
    ensures no_line { IfOk result (λ asked. asked.run.line ≡ None) }
{
    let scan = scan_of(alloc, words)?;
    let asked = request_in(alloc, &scan);
    // By one call, since a drop in place is proved part by part.
    drop(scan);
    asked
}
