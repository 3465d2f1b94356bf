//! The request of the words.
ghost use Rattle.std.specs.Prelude.{◌≡◌, ◌≤◌, IfOk};
ghost use Rattle.coz_words.specs.Answers.{Answers, bytes_of};
ghost use Rattle.coz_words.specs.Request.{IsFit};
ghost use Rattle.coz_words.specs.Slow.{request_of};
ghost use Rattle.coz_words.specs.declared.command.Command.TheVariants.{Profile};
ghost use Rattle.timing_model.specs.Timing.{IsTiming};
ghost use Rattle.timing_steps.specs.declared.ticks.TheConstants.{MAX_TIMED_BUDGET};
ghost use Rattle.gain_words.specs.Words.{gain_request, gain_request_of, profile_in, scanned, timing_of};

use crate::scan::{Scan, scan_of};
use crate::slot::value_or;
use coz_words::{Command, Request, WordsError, read_words};
use std::alloc::Global;
use timing_model::Timing;
use timing_steps::MAX_TIMED_BUDGET;

/// The request that the arguments make.
#[derive(Drop)]
pub struct GainRequest {
    /// The profile: its program, its input, its lines, its progress points, its speedups, its
    /// workers, and its budget of at most 10^10 instructions.
    pub profile: Request,
    /// The machine.
    pub timing: Timing,
}

/// The machine of what the words give. None if an option is wrong or given twice.
fn timing_of(scan: &Scan) -> Option<Timing>
    ensures { result ≡ timing_of (scanned scan.now) }
{
    let usual = Timing::usual();
    Some(Timing {
        cores: value_or(scan.cores, usual.cores)?,
        slice: value_or(scan.slice, usual.slice)?,
        costs: value_or(scan.costs, usual.costs)?,
        charge: value_or(scan.charge, usual.charge)?,
        seed: value_or(scan.seed, usual.seed)?,
    })
}

/// The request of a command that words make, by the two clauses of `read_words` that are needed.
fn request(alloc: Global, words: &[String]) -> Result<Request, WordsError>
    ensures asked { Answers (request_of (bytes_of words.now)) result }
    ensures fit { IfOk result IsFit }
{
    read_words(alloc, words)
}

/// The request of `profile` that words make, with a budget of at most 10^10 instructions.
fn profile_in(alloc: Global, words: &[String]) -> Result<Request, WordsError>
    ensures asked { Answers (profile_in (bytes_of words.now)) result }
    ensures fit { IfOk result IsFit }
    ensures profile { IfOk result (λ profile. profile.command ≡ Profile) }
    ensures few { IfOk result (λ profile. profile.budget ≤ MAX_TIMED_BUDGET) }
{
    let profile = request(alloc, words)?;
    match profile.command {
        Command::Profile if profile.budget <= MAX_TIMED_BUDGET => Ok(profile),
        _ => {
            // By one call, since a drop in place is proved part by part.
            drop(profile);
            Err(WordsError::Usage)
        }
    }
}

/// The request of what the words give.
fn request_in(alloc: Global, scan: &Scan) -> Result<GainRequest, WordsError>
    ensures asked { Answers (gain_request_of (scanned scan.now)) result }
    ensures fit { IfOk result (λ asked. IsFit asked.profile) }
    ensures profile { IfOk result (λ asked. asked.profile.command ≡ Profile) }
    ensures few { IfOk result (λ asked. asked.profile.budget ≤ MAX_TIMED_BUDGET) }
{
    if scan.wanting.is_some() {
        return Err(WordsError::Usage);
    }
    let Some(timing) = timing_of(scan) else {
        return Err(WordsError::Usage);
    };
    match profile_in(alloc, &scan.rest) {
        Ok(profile) => Ok(GainRequest { profile, timing }),
        Err(error) => Err(error),
    }
}

/// The request of the words after the program's name: those of `coz profile`, and in any order
/// among them `--cores C`, `--slice Q`, `--costs LIST`, `--charge last` or `--charge none`, and
/// `--seed S`, each at most once, also as `--cores=C` and so on. C is 1 to 256, Q is 1 to 10^9
/// cycles, and S is 0 to 2^64 - 1, each of 1 to 20 digits. LIST is one or more pieces `CLASS=N`
/// with commas between, each of another class: `integer`, `jump`, `load`, `multiply`, `atomic`,
/// `divide` or `ecall`; N is 1 to 10,000 cycles. What is not given is as on the usual machine. The
/// budget is at most 10^10 instructions. All other words are `Usage`. Any words may be answered by
/// `Memory`, if it is out of memory.
pub fn read_gain(alloc: Global, words: &[String]) -> Result<GainRequest, WordsError>
    ensures asked { Answers (gain_request (bytes_of words.now)) result }
    ensures fit { IfOk result (λ asked. IsFit asked.profile) }
    ensures profile { IfOk result (λ asked. asked.profile.command ≡ Profile) }
    ensures few { IfOk result (λ asked. asked.profile.budget ≤ MAX_TIMED_BUDGET) }
    ensures timing { IfOk result (λ asked. IsTiming asked.timing) }
{
    let scan = scan_of(alloc, words)?;
    let asked = request_in(alloc, &scan);
    // By one call, since a drop in place is proved part by part.
    drop(scan);
    asked
}
