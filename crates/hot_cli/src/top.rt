//! The top call.
ghost use Rattle.std.specs.Prelude.{◌≡◌, None, Some, codes, IfOk, IfSome};
ghost use Rattle.coz_serve.specs.Info.{Informs, info_in, info_text};
ghost use Rattle.coz_serve.specs.Serves.{Serves};
ghost use Rattle.coz_words.specs.Answers.{Answers, bytes_of};
ghost use Rattle.coz_words.specs.Request.{IsFit};
ghost use Rattle.coz_words.specs.declared.command.Command.TheVariants.{Run};
ghost use Rattle.hot_cli.specs.Words.{hot_request};
ghost use Rattle.hot_cli.specs.Program.{help_text, hot_program};

use crate::asked::{HotRequest, read_hot};
use crate::help::help_text;
use crate::judge::judge_hot;
use coz_files::{Files, Sink};
use coz_serve::{info_in, inform, serve_with, tell};
use coz_words::WordsError;
use file_read::FileFault;
use program_load::Fault;
use std::alloc::Global;

/// The request that the words make, by the clauses of `read_hot` that `serve_words` needs.
fn request(alloc: Global, words: &[String]) -> Result<HotRequest, WordsError>
    ensures asked { Answers (hot_request (bytes_of words.now)) result }
    ensures fit { IfOk result (λ asked. IsFit asked.run) }
    ensures run { IfOk result (λ asked. asked.run.command ≡ Run) }
{
    read_hot(alloc, words)
}

/// Judges a request, and writes what is printed or the line of the fault.
fn serve_request<F: Files, O: Sink, E: Sink>(
    alloc: Global,
    request: &HotRequest,
    files: &mut F,
    out: &mut O,
    err: &mut E,
) -> u8
    requires fit { IsFit request.now.run }
    requires run { request.now.run.command ≡ Run }
    ensures serves { Serves (hot_program (Some request.now))
        (F.held files.old) (F.faults files.old) (F.faults files.new)
        O.holds O.faults out.old out.new E.holds E.faults err.old err.new result }
    ensures files { F.held files.new ≡ F.held files.old }
{
    let answer = judge_hot(alloc, request, files);
    let status = serve_with(b"coz-hot", &answer, out, err);
    // By one call, since a drop in place is proved part by part.
    drop(answer);
    status
}

/// Serves words that ask for no text of the program itself.
fn serve_words<F: Files, O: Sink, E: Sink>(
    alloc: Global,
    words: &[String],
    files: &mut F,
    out: &mut O,
    err: &mut E,
) -> u8
    ensures serves { Serves (hot_program (hot_request (bytes_of words.now)))
        (F.held files.old) (F.faults files.old) (F.faults files.new)
        O.holds O.faults out.old out.new E.holds E.faults err.old err.new result }
    ensures files { F.held files.new ≡ F.held files.old }
{
    match request(alloc, words) {
        Ok(request) => {
            let status = serve_request(alloc, &request, files, out, err);
            drop(request);
            status
        }
        Err(WordsError::Usage) => tell(err, b"coz-hot", &Fault::File(FileFault::Usage)),
        Err(WordsError::Memory) => tell(err, b"coz-hot", &Fault::File(FileFault::Memory)),
    }
}

/// All that the program does: reads the program and the input that the words name, runs it once
/// with no line selected, and prints the lines that cost most. It prints its help or its version
/// if the first word asks for that.
pub fn serve_hot<F: Files, O: Sink, E: Sink>(
    alloc: Global,
    words: &[String],
    files: &mut F,
    out: &mut O,
    err: &mut E,
) -> u8
    // The first word asks for the program's help, or its version.
    ensures info { IfSome (info_in (bytes_of words.now)) (λ info.
        Informs (codes "coz-hot") O.holds O.faults out.old out.new
        E.holds E.faults err.old err.new result (info_text (codes "coz-hot") help_text info)) }

    // Else it keeps what each program promises of its words. What is printed: how often a line
    // starts is what the record of the run that selects it at speedup 0 counts; its cost is the
    // work of its instructions in the run with no line selected.
    ensures serves { info_in (bytes_of words.now) ≡ None →
        Serves (hot_program (hot_request (bytes_of words.now)))
        (F.held files.old) (F.faults files.old) (F.faults files.new)
        O.holds O.faults out.old out.new E.holds E.faults err.old err.new result }
    ensures files { F.held files.new ≡ F.held files.old }
{
    match info_in(words) {
        Some(info) => inform(b"coz-hot", help_text(), info, out, err),
        None => serve_words(alloc, words, files, out, err),
    }
}
