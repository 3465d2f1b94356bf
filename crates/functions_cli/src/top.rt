//! The top call.
ghost use Rattle.std.specs.Prelude.{◌≡◌, ℕ, List, true, None, codes, IfSome};
ghost use Rattle.std.specs.Io.KnownBytes.{Appends};
ghost use Rattle.coz_files.specs.Verdict.{bytes_of};
ghost use Rattle.coz_serve.specs.Info.{Informs, info_in, info_text};
ghost use Rattle.coz_serve.specs.Serves.{Serves};
ghost use Rattle.elf_load.specs.Loaded.{load_answer};
ghost use Rattle.function_lines.specs.ByFunction.{IsByFunction, ReadsWithoutFault};
ghost use Rattle.function_lines.specs.SameProgram.{is_same_program};
ghost use Rattle.functions_cli.specs.Program.{functions_program, help_text};
ghost use Rattle.functions_cli.specs.Serve.{ProgramHas};
ghost use Rattle.functions_cli.specs.Verdict.{VerdictsAreOne};

use crate::answer::answer_of;
use crate::help::help_text;
use coz_files::{Files, Sink};
use coz_serve::{info_in, inform, serve_with};
use std::alloc::Global;

/// All that the program does: reads the program that the words name, and writes it with a line
/// table in which each function is one line, and the kept lines are lines as before. It prints its
/// help or its version if the first word asks for that.
pub fn serve_functions<F: Files, O: Sink, E: Sink>(
    alloc: Global,
    words: &[String],
    files: &mut F,
    out: &mut O,
    err: &mut E,
) -> u8
    // The first word asks for the program's help, or its version.
    ensures info { IfSome (info_in (bytes_of words.now)) (λ info.
        Informs (codes "coz-functions") O.holds O.faults out.old out.new
        E.holds E.faults err.old err.new result
        (info_text (codes "coz-functions") help_text info)) }

    // Else it keeps what each program promises of its words.
    ensures serves { info_in (bytes_of words.now) ≡ None →
        Serves (functions_program (bytes_of words.now))
        (F.held files.old) (F.faults files.old) (F.faults files.new)
        O.holds O.faults out.old out.new E.holds E.faults err.old err.new result }

    // What is written loads as the same program.
    ensures same_program { info_in (bytes_of words.now) ≡ None →
        IfSome (F.held files.old) (λ held. result ≡ 0 →
        ProgramHas (bytes_of words.now) held (λ image index marks. (written : List ℕ)
        × Appends (O.holds out.old) (O.holds out.new) written
        × (is_same_program image (load_answer written) ≡ true))) }

    // By its line table each executable address has the line that is kept, else that of the first
    // region that has its line, else that of its function, else none. The table is read without a
    // fault, and nothing of it is skipped.
    ensures lines { info_in (bytes_of words.now) ≡ None →
        IfSome (F.held files.old) (λ held. result ≡ 0 →
        ProgramHas (bytes_of words.now) held (λ image index marks. (written : List ℕ)
        × Appends (O.holds out.old) (O.holds out.new) written
        × IsByFunction image index marks written × ReadsWithoutFault written)) }
    ensures files { F.held files.new ≡ F.held files.old }
{
    match info_in(words) {
        Some(info) => inform(b"coz-functions", help_text(), info, out, err),
        None => {
            let answer = answer_of(alloc, words, files);
            let status = serve_with(b"coz-functions", &answer, out, err);
            // By one call, since a drop in place is proved part by part.
            drop(answer);
            status
        }
    }
}

/// Words and the contents of the files have one verdict at most: the status, the bytes that are
/// written and the line on the error stream are determined.
pub fn verdicts_are_one()
    ensures { VerdictsAreOne }
{}
