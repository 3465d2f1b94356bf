//! The top call.
ghost use Rattle.std.specs.Prelude.{◌≡◌, ◌≤◌, None, Some, codes, IfOk, IfSome};
ghost use Rattle.coz_serve.specs.Info.{Informs, info_in, info_text};
ghost use Rattle.coz_serve.specs.Serves.{Serves};
ghost use Rattle.coz_words.specs.Answers.{Answers, bytes_of};
ghost use Rattle.coz_words.specs.Request.{IsFit};
ghost use Rattle.coz_words.specs.declared.command.Command.TheVariants.{Profile};
ghost use Rattle.timing_model.specs.Timing.{IsTiming};
ghost use Rattle.timing_steps.specs.declared.ticks.TheConstants.{MAX_TIMED_BUDGET};
ghost use Rattle.gain_words.specs.Words.{gain_request};
ghost use Rattle.gain_cli.specs.Headline.{PrintsForAnyWorkers, PrintsGain};
ghost use Rattle.gain_cli.specs.Program.{gain_program, help_text};

use crate::help::help_text;
use crate::judge::judge_gain;
use coz_files::{Files, Gate, Sink};
use coz_serve::{info_in, inform, serve_with, tell};
use coz_words::WordsError;
use file_read::FileFault;
use gain_words::{GainRequest, read_gain};
use guest_timing::timed_runs_keep_the_law;
use program_load::Fault;
use std::alloc::Global;
use std::thread::Threads;

/// Judges a request, and writes what is printed or the line of the fault.
fn serve_request<R: Threads + Sync, F: Files, O: Sink, E: Sink, G: Gate>(
    rt: &R,
    alloc: Global,
    request: &GainRequest,
    files: &mut F,
    out: &mut O,
    err: &mut E,
    gate: &G,
) -> u8
    requires fit { IsFit request.now.profile }
    requires profile { request.now.profile.command ≡ Profile }
    requires few { request.now.profile.budget ≤ MAX_TIMED_BUDGET }
    requires timing { IsTiming request.now.timing }
    ensures serves { Serves (gain_program (Some request.now))
        (F.held files.old) (F.faults files.old) (F.faults files.new)
        O.holds O.faults out.old out.new E.holds E.faults err.old err.new result }
    ensures files { F.held files.new ≡ F.held files.old }
{
    let answer = judge_gain(rt, alloc, request, files, gate);
    let status = serve_with(b"coz", &answer, out, err);
    // By one call, since a drop in place is proved part by part.
    drop(answer);
    status
}

/// Serves words that ask for no text of the program itself.
fn serve_words<R: Threads + Sync, F: Files, O: Sink, E: Sink, G: Gate>(
    rt: &R,
    alloc: Global,
    words: &[String],
    files: &mut F,
    out: &mut O,
    err: &mut E,
    gate: &G,
) -> u8
    ensures serves { Serves (gain_program (gain_request (bytes_of words.now)))
        (F.held files.old) (F.faults files.old) (F.faults files.new)
        O.holds O.faults out.old out.new E.holds E.faults err.old err.new result }
    ensures headline { IfSome (F.held files.old) (λ held. result ≤ 1
        → PrintsGain (bytes_of words.now) held (O.holds out.old) (O.holds out.new)) }
    ensures workers { IfSome (F.held files.old) (λ held.
        PrintsForAnyWorkers (bytes_of words.now) held result (O.holds out.old) (O.holds out.new)) }
    ensures files { F.held files.new ≡ F.held files.old }
{
    // The law is a part of the headline, and the call does nothing else.
    timed_runs_keep_the_law();
    match read_gain(alloc, words) {
        Ok(request) => {
            let status = serve_request(rt, alloc, &request, files, out, err, gate);
            drop(request);
            status
        }
        Err(WordsError::Usage) => tell(err, b"coz", &Fault::File(FileFault::Usage)),
        Err(WordsError::Memory) => tell(err, b"coz", &Fault::File(FileFault::Memory)),
    }
}

/// All that the program does: reads the program and the input that the words name, runs it for each
/// line and each speedup on the machine that the words describe, and prints the profile. It prints
/// its help or its version if the first word asks for that.
pub fn serve_gain<R: Threads + Sync, F: Files, O: Sink, E: Sink, G: Gate>(
    rt: &R,
    alloc: Global,
    words: &[String],
    files: &mut F,
    out: &mut O,
    err: &mut E,
    gate: &G,
) -> u8
    // The first word asks for the program's help, or its version.
    ensures info { IfSome (info_in (bytes_of words.now)) (λ info.
        Informs (codes "coz-gain") O.holds O.faults out.old out.new
        E.holds E.faults err.old err.new result (info_text (codes "coz-gain") help_text info)) }

    // Else it keeps what each program promises of its words.
    ensures serves { info_in (bytes_of words.now) ≡ None →
        Serves (gain_program (gain_request (bytes_of words.now)))
        (F.held files.old) (F.faults files.old) (F.faults files.new)
        O.holds O.faults out.old out.new E.holds E.faults err.old err.new result }

    // The headline: what the output gained is the text of a profile whose runs have as net part,
    // on each machine, the shortened run.
    ensures headline { info_in (bytes_of words.now) ≡ None → IfSome (F.held files.old) (λ held.
        result ≤ 1
        → PrintsGain (bytes_of words.now) held (O.holds out.old) (O.holds out.new)) }
    // And the bytes are those of one worker, for any number of workers.
    ensures workers { info_in (bytes_of words.now) ≡ None → IfSome (F.held files.old) (λ held.
        PrintsForAnyWorkers (bytes_of words.now) held result (O.holds out.old) (O.holds out.new)) }
    ensures files { F.held files.new ≡ F.held files.old }
{
    match info_in(words) {
        Some(info) => inform(b"coz-gain", help_text(), info, out, err),
        None => serve_words(rt, alloc, words, files, out, err, gate),
    }
}
