//! A program's help and its version.
ghost use Rattle.std.specs.Prelude.{◌≡◌, ◌++◌, codes};
ghost use Rattle.coz_files.specs.Puts.{Puts};
ghost use Rattle.coz_files.specs.Verdict.{bytes_of};
ghost use Rattle.coz_serve.specs.Info.{Informs, info_in, info_of, info_text, version};

use crate::fault::tell;
use coz_files::{PutAnswer, Sink, put_next};
use file_read::FileFault;

/// What a program can be asked to print of itself.
#[derive(Clone, Copy)]
pub enum Info {
    /// How it is called.
    Help,
    /// Its name and its version.
    Version,
}

fn info_of(word: &[u8]) -> Option<Info>
    ensures { result ≡ info_of word.now }
{
    if word == b"--help".as_slice() || word == b"-h".as_slice() {
        return Some(Info::Help);
    }
    if word == b"--version".as_slice() || word == b"-V".as_slice() {
        return Some(Info::Version);
    }
    None
}

/// What the first word asks for: `--help` or `-h` for the help, `--version` or `-V` for the
/// version. None if it is another word, or there is none.
pub fn info_in(words: &[String]) -> Option<Info>
    ensures { result ≡ info_in (bytes_of words.now) }
{
    match words.split_first() {
        Some((first, _)) => info_of(first.as_bytes()),
        None => None,
    }
}

/// Puts a program's name and its version.
fn put_version<O: Sink>(program: &[u8], out: &mut O) -> PutAnswer
    ensures { Puts O.holds O.faults out.old out.new result
        (program.now ++ codes " " ++ version ++ codes "\n") }
{
    let answer = put_next(out, PutAnswer::Done, program);
    let answer = put_next(out, answer, b" ");
    let answer = put_next(out, answer, b"0.4.0");
    put_next(out, answer, b"\n")
}

/// Puts a program's help, or its name and its version.
fn put_info<O: Sink>(program: &[u8], help: &[u8], info: Info, out: &mut O) -> PutAnswer
    ensures { Puts O.holds O.faults out.old out.new result
        (info_text program.now help.now info) }
{
    match info {
        Info::Help => out.put(help),
        Info::Version => put_version(program, out),
    }
}

/// Prints a program's help, or its name and its version, and returns 0. If `out` fails, the line of
/// that is written to `err`, and 6 is returned.
pub fn inform<O: Sink, E: Sink>(
    program: &[u8],
    help: &[u8],
    info: Info,
    out: &mut O,
    err: &mut E,
) -> u8
    ensures informs { Informs program.now O.holds O.faults out.old out.new
        E.holds E.faults err.old err.new result (info_text program.now help.now info) }
{
    match put_info(program, help, info, out) {
        PutAnswer::Done => 0,
        PutAnswer::Failed => tell(err, program, &FileFault::Write),
    }
}
