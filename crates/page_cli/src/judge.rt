//! What the arguments and the file that they name give.
ghost use Rattle.std.specs.Prelude.{◌≡◌, Some, IfOk, IfSome, IfNone};
ghost use Rattle.std.specs.Option.{option_copied};
ghost use Rattle.coz_files.specs.Faults.{Rose};
ghost use Rattle.profile_reader.specs.Parsed.{parsed_profile};
ghost use Rattle.page_words.specs.Words.{asked_of, request_in};
ghost use Rattle.page_values.specs.Sources.{Answers};
ghost use Rattle.page_cli.specs.Page.{chosen_curves, page_curves};
ghost use Rattle.page_cli.specs.Verdict.{bytes_of, book_at, book_of, file_verdict, verdict, profile_verdict};
ghost use Rattle.page_cli.specs.Answer.{verdict_of, IsMemory, FailedToRead, Suits, Settles};

use crate::fault::Fault;
use crate::harm::harmful;
use crate::label_parts::is_of_file;
use causal_curves::{Curve, curves};
use coz_files::Files;
use coz_types::Items;
use file_read::{FileFault, read_file};
use page_values::by_mean;
use page_words::{Asked, read_page};
use profile_book::Profile;
use profile_reader::{MAX_PROFILE, read_profile};
use std::alloc::Global;
use timing_reader::timed_text;

/// A request, with the profile that it names and the curves of the chosen lines by their means.
#[derive(Drop)]
pub struct Ranked<'w> {
    /// The request that the arguments make.
    pub asked: Asked<'w>,
    /// The profile that was read.
    pub profile: Profile,
    /// The curves of the chosen lines by point, the one with the greatest mean first.
    pub curves: Items<Curve>,
    /// The curves of the lines that hurt, the one that hurts most first.
    pub harmful: Items<Curve>,
    /// The number of curves of the profile.
    pub all: u64,
}

/// A profile with its curves, or why there is no page. A request and a fault borrow from the
/// words.
pub type Answer<'w> = Result<Ranked<'w>, Fault<'w>>;

/// The curves of the lines of these files.
fn chosen(file: Option<&[u8]>, curves: Items<Curve>) -> Items<Curve>
    ensures { result ≡ chosen_curves (option_copied file.entry) curves }
{
    let mut curves = curves.into_vec();
    curves.retain(|curve| is_of_file(file, curve.selected.bytes()));
    Items::new(curves)
}

/// The curves of the profile of which the bytes are the text, if they are one's.
fn rank<'w>(alloc: Global, asked: Asked<'w>, bytes: &[u8]) -> Answer<'w>
    ensures no_read { FailedToRead result → ⊥ }
    ensures verdict { (IsMemory result → ⊥) → (answers : Answers) → verdict_of answers result
        ≡ profile_verdict (asked_of asked.entry) answers bytes.now }
    ensures fault_of_request { Suits (Some (asked_of asked.entry)) result }
    ensures ranked { IfOk result (λ ranked.
        ranked.curves ≡ page_curves (asked_of asked.entry).file (parsed_profile bytes.now)) }
{
    let profile = read_profile(alloc, bytes)?;
    let ranked = curves(alloc, &profile)?;
    let all = ranked.len() as u64;
    let of_files = chosen(asked.file, ranked);
    let curves = by_mean(of_files)?;
    let harmful = harmful(alloc, curves.as_slice())?;
    Ok(Ranked {
        asked,
        profile,
        curves,
        harmful,
        all,
    })
}

/// The curves of the profile of which the bytes are the text, after the line of its machine if
/// they have one.
fn rank_timed<'w>(alloc: Global, asked: Asked<'w>, bytes: &[u8]) -> Answer<'w>
    ensures no_read { FailedToRead result → ⊥ }
    ensures verdict { (IsMemory result → ⊥) → (answers : Answers) → verdict_of answers result
        ≡ file_verdict (asked_of asked.entry) answers bytes.now }
    ensures fault_of_request { Suits (Some (asked_of asked.entry)) result }
    ensures ranked { IfOk result (λ ranked.
        ranked.curves ≡ page_curves (asked_of asked.entry).file (book_of bytes.now)) }
{
    rank(alloc, asked, timed_text(bytes).1)
}

/// The profile that the words name, with its curves.
/// Err is the first fault of the arguments, the file or its text, or out of memory.
pub fn judge<'w, F: Files>(alloc: Global, words: &'w [String], files: &mut F) -> Answer<'w>
    ensures same { F.held files.new ≡ F.held files.old }
    ensures fault_of_request { Suits (request_in (bytes_of words.now)) result }
    ensures verdict { IfSome (F.held files.old) (λ held. (IsMemory result → ⊥)
        → (answers : Answers) → Settles answers (verdict (bytes_of words.now) held answers)
        (F.faults files.old) (F.faults files.new) result) }
    ensures ranked { IfSome (F.held files.old) (λ held. IfOk result (λ ranked.
        ranked.curves ≡ page_curves (asked_of ranked.asked).file
        (book_at held ranked.asked.profile.now))) }
    ensures read_fault_has_cause { FailedToRead result
        → IfNone (F.held files.old) (Rose (F.faults files.old) (F.faults files.new)) }
    ensures no_fault { (FailedToRead result → ⊥) → F.faults files.new ≡ F.faults files.old }
{
    let Some(asked) = read_page(words) else {
        return Err(Fault::File(FileFault::Usage));
    };
    let file = read_file(alloc, files, asked.profile, MAX_PROFILE)?;
    rank_timed(alloc, asked, &file)
}
