//! The top call.
ghost use Rattle.std.specs.Prelude.{◌≡◌, ◌↔◌, ◌++◌, None, codes, IfSome};
ghost use Rattle.coz_files.specs.Puts.{IsPut};
ghost use Rattle.coz_files.specs.Verdict.{bytes_of};
ghost use Rattle.coz_serve.specs.Info.{Informs, info_in, info_text};
ghost use Rattle.coz_serve.specs.Serves.{Serves};
ghost use Rattle.join_parts.specs.Words.{paths_in};
ghost use Rattle.join_parts.specs.Program.{help_text, join_program};
ghost use Rattle.join_cli.specs.Shards.{JoinsAllShards};

use coz_files::{Files, Sink};
use coz_serve::{info_in, inform, serve_with};
use join_parts::{answer_of, help_text};
use std::alloc::Global;

/// All that the program does: reads the files of the paths that the words name, joins the
/// profiles that they hold, and prints the joined profile. It prints its help or its version if
/// the first word asks for that.
pub fn serve_join<F: Files, O: Sink, E: Sink>(
    alloc: Global,
    words: &[String],
    files: &mut F,
    out: &mut O,
    err: &mut E,
) -> u8
    // The first word asks for the program's help, or its version.
    ensures info { IfSome (info_in (bytes_of words.now)) (λ info.
        Informs (codes "coz-join") O.holds O.faults out.old out.new
        E.holds E.faults err.old err.new result (info_text (codes "coz-join") help_text info)) }

    // Else it keeps what each program promises of its words.
    ensures serves { info_in (bytes_of words.now) ≡ None →
        Serves (join_program (bytes_of words.now) (F.held files.old))
        (F.held files.old) (F.faults files.old) (F.faults files.new)
        O.holds O.faults out.old out.new E.holds E.faults err.old err.new result }

    // The words alone decide on usage.
    ensures usage { (result ≡ 2)
        ↔ ((info_in (bytes_of words.now) ≡ None) × (paths_in (bytes_of words.now) ≡ None)) }

    // The law of shards: profiles of disjoint lists of a program's lines are joined into the
    // profile of all their lines.
    ensures shards { IfSome (F.held files.old) (λ held. JoinsAllShards (bytes_of words.now) held
        (λ line. IsPut E.holds E.faults err.old err.new (line ++ codes "\n"))
        (O.holds out.old) (O.holds out.new) result) }
    ensures files { F.held files.new ≡ F.held files.old }
{
    match info_in(words) {
        Some(info) => inform(b"coz-join", help_text(), info, out, err),
        None => {
            let answer = answer_of(alloc, words, files);
            let status = serve_with(b"coz-join", &answer, out, err);
            // By one call, since a drop in place is proved part by part.
            drop(answer);
            status
        }
    }
}
