//! The top call.
ghost use Rattle.std.specs.Prelude.{◌≡◌, ◌≢◌, ◌↔◌, ◌⊎◌, ◌++◌, ◌≤◌, None, codes, IfOk, IfSome, IsSomeAnd, OnErr};
ghost use Rattle.coz_files.specs.Faults.{Rose};
ghost use Rattle.coz_files.specs.Puts.{Puts};
ghost use Rattle.page_words.specs.Words.{asked_of, request_in};
ghost use Rattle.coz_files.specs.InMemory.{entries};
ghost use Rattle.page_values.specs.Lines.{ArePlaces, block_labels};
ghost use Rattle.page_values.specs.Sources.{Answers, look_up};
ghost use Rattle.page_cli.specs.Answer.{IsShown, page_with};
ghost use Rattle.page_cli.specs.Verdict.{bytes_of, folder_of, verdict};
ghost use Rattle.coz_serve.specs.Info.{Informs, info_in, info_text};
ghost use Rattle.page_cli.specs.Serve.{IsOfVerdict, IsPut, IsLine, Prints, PrintsPrefix, ServesPage, help_text};

use crate::fault::Fault;
use crate::help::help_text;
use crate::judge::{Ranked, judge};
use crate::page::write_page;
use crate::sources::read_sources;
use crate::view::View;
use coz_files::{Files, HeldFile, PutAnswer, Sink};
use coz_serve::{info_in, inform, tell};
use file_read::FileFault;
use page_values::{LinePlaces, places_of_blocks, places_of_curves};
use std::alloc::{AllocError, Global};

/// Puts a page with these source files, once it is known where the blocks of each line stand.
/// Fails only if out of memory, and then puts nothing.
fn put_with_blocks<O: Sink>(
    alloc: Global,
    ranked: &Ranked,
    sources: &[HeldFile],
    blocks: &LinePlaces,
    out: &mut O,
) -> Result<PutAnswer, AllocError>
    requires { ArePlaces (block_labels ranked.now.profile.summaries) blocks.now }
    ensures puts { IfOk result (λ answer. Puts O.holds O.faults out.old out.new answer
        (page_with (look_up (entries sources.now)) ranked.now)) }
    ensures nothing { OnErr result (out.new ≡ out.old) }
{
    let places = places_of_curves(alloc, ranked.curves.as_slice())?;
    let view = View {
        most: ranked.asked.top,
        sources,
        blocks,
    };
    Ok(write_page(&view, &places, ranked, out))
}

/// Puts a page with these source files. Fails only if out of memory, and then puts nothing.
fn put_with_sources<O: Sink>(
    alloc: Global,
    ranked: &Ranked,
    sources: &[HeldFile],
    out: &mut O,
) -> Result<PutAnswer, AllocError>
    ensures puts { IfOk result (λ answer. Puts O.holds O.faults out.old out.new answer
        (page_with (look_up (entries sources.now)) ranked.now)) }
    ensures nothing { OnErr result (out.new ≡ out.old) }
{
    let blocks = places_of_blocks(alloc, ranked.profile.summaries.as_slice())?;
    put_with_blocks(alloc, ranked, sources, &blocks, out)
}

/// Reads the source files of a page and puts the page. Fails only if out of memory.
fn show<F: Files, O: Sink>(
    alloc: Global,
    ranked: &Ranked,
    files: &mut F,
    out: &mut O,
) -> Result<PutAnswer, AllocError>
    ensures same { F.held files.new ≡ F.held files.old }
    ensures unread { (asked_of ranked.now.asked).source ≡ None
        → F.faults files.new ≡ F.faults files.old }
    ensures shown { IfOk result (λ answer. IsShown (F.held files.old) (F.faults files.old)
        (F.faults files.new) O.holds O.faults out.old out.new ranked.now answer) }
    ensures nothing { OnErr result (out.new ≡ out.old) }
{
    let curves = ranked.curves.as_slice();
    let sources = read_sources(alloc, files, ranked.asked.source, curves)?;
    put_with_sources(alloc, ranked, sources.as_slice(), out)
}

/// Serves words that ask for no text of the program itself.
fn serve_words<F: Files, O: Sink, E: Sink>(
    alloc: Global,
    words: &[String],
    files: &mut F,
    out: &mut O,
    err: &mut E,
) -> u8
    // The words alone decide on usage.
    ensures usage { (result ≡ 2) ↔ (request_in (bytes_of words.now) ≡ None) }

    // No other status is answered.
    ensures known { result ≤ 12 }

    // If the files are known, the status is the verdict's, unless a fault is counted
    // or it is out of memory.
    ensures verdict { IfSome (F.held files.old) (λ held.
        IsOfVerdict result → (answers : Answers)
        → result ≡ (verdict (bytes_of words.now) held answers).status) }

    // A failed read and a failed write have a cause outside.
    ensures read { result ≡ 5 → Rose (F.faults files.old) (F.faults files.new)
        ⊎ IsSomeAnd (F.held files.old) (λ held. (answers : Answers)
        → (verdict (bytes_of words.now) held answers).status ≡ 5) }
    ensures write { result ≡ 6 → Rose (O.faults out.old) (O.faults out.new) }
    ensures write_last { IfSome (F.held files.old) (λ held.
        result ≡ 6 → (answers : Answers)
        → (verdict (bytes_of words.now) held answers).status ≡ 0) }

    // What is printed: the page of the profile that the file is the text of, with the lines of
    // the source files below the folder, if one is named.
    ensures text { IfSome (F.held files.old) (λ held. result ≡ 0 →
        Prints (bytes_of words.now) held (F.faults files.old) (F.faults files.new)
        (O.holds out.old) (O.holds out.new)) }
    ensures prefix { IfSome (F.held files.old) (λ held. result ≡ 6 →
        PrintsPrefix (bytes_of words.now) held (F.faults files.old) (F.faults files.new)
        (O.holds out.old) (O.holds out.new)) }
    ensures nothing { result ≢ 0 → result ≢ 6 → O.holds out.new ≡ O.holds out.old }

    // The line on the error sink.
    ensures no_error_line { result ≡ 0 → err.new ≡ err.old }
    ensures line { result ≢ 0 → (line : _)
        × IsLine result (bytes_of words.now) (F.held files.old) line
        × IsPut E.holds E.faults err.old err.new (line ++ codes "\n") }

    // The first fault ends the call, except for a fault of a source file.
    ensures read_count { result ≢ 5 → folder_of (request_in (bytes_of words.now)) ≡ None
        → F.faults files.new ≡ F.faults files.old }
    ensures write_count { result ≢ 6 → O.faults out.new ≡ O.faults out.old }
    ensures files { F.held files.new ≡ F.held files.old }
{
    match judge(alloc, words, files) {
        Ok(ranked) => {
            let shown = show(alloc, &ranked, files, out);
            drop(ranked);
            match shown {
                Ok(PutAnswer::Done) => 0,
                Ok(PutAnswer::Failed) => tell(err, b"coz-page", &Fault::File(FileFault::Write)),
                Err(_) => tell(err, b"coz-page", &Fault::File(FileFault::Memory)),
            }
        }
        Err(fault) => tell(err, b"coz-page", &fault),
    }
}

/// All that the program does: reads the profile that the words name and the source files of its
/// lines, and prints the page. It prints its help or its version if the first word asks for that.
pub fn serve<F: Files, O: Sink, E: Sink>(
    alloc: Global,
    words: &[String],
    files: &mut F,
    out: &mut O,
    err: &mut E,
) -> u8
    // The first word asks for the program's help, or its version.
    ensures info { IfSome (info_in (bytes_of words.now)) (λ info.
        Informs (codes "coz-page") O.holds O.faults out.old out.new
        E.holds E.faults err.old err.new result (info_text (codes "coz-page") help_text info)) }

    // Then it reads no file.
    ensures unread { IfSome (info_in (bytes_of words.now)) (λ info. files.new ≡ files.old) }

    // Else it keeps what the program promises of its words.
    ensures serves { info_in (bytes_of words.now) ≡ None →
        ServesPage (bytes_of words.now)
        (F.held files.old) (F.faults files.old) (F.faults files.new)
        O.holds O.faults out.old out.new E.holds E.faults err.old err.new result }
    ensures files { F.held files.new ≡ F.held files.old }
{
    match info_in(words) {
        Some(info) => inform(b"coz-page", help_text(), info, out, err),
        None => serve_words(alloc, words, files, out, err),
    }
}
