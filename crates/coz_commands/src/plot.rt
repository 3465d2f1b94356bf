//! The command `plot`: reads a profile with `profile_reader::read_profile`, and ranks its curves with
//! `causal_curves::curves`. Their text is written without allocating.
ghost use Rattle.std.specs.Prelude.{◌≡◌, IfSome, IfNone};
ghost use Rattle.coz_files.specs.Faults.{Rose};
ghost use Rattle.coz_words.specs.declared.command.Command.TheVariants.{Plot};
ghost use Rattle.coz_commands.specs.Verdict.{command_verdict, plot_verdict};
ghost use Rattle.coz_commands.specs.Answer.{verdict_of, IsMemory, FailedToRead, Suits, Settles};

use crate::answer::Answer;
use causal_curves::curves;
use command_texts::{Printed, Text};
use coz_files::Files;
use coz_words::Request;
use file_read::read_file;
use profile_reader::{MAX_PROFILE, read_profile};
use std::alloc::Global;

/// The text of the curves of the profile that the request names.
/// Err is the first fault of the file or of its text, or out of memory.
pub fn judge_plot<'r, F: Files>(alloc: Global, request: &'r Request, files: &mut F) -> Answer<'r>
    ensures same { F.held files.new ≡ F.held files.old }
    ensures fault_of_request { Suits request.now result }
    ensures verdict { IfSome (F.held files.old) (λ held. (IsMemory result → ⊥) →
        Settles (command_verdict Plot request.now held)
        (F.faults files.old) (F.faults files.new) result) }
    ensures read_fault_has_cause { FailedToRead result
        → IfNone (F.held files.old) (Rose (F.faults files.old) (F.faults files.new)) }
    ensures no_fault { (FailedToRead result → ⊥) → F.faults files.new ≡ F.faults files.old }
{
    let file = read_file(alloc, files, request.target.text(), MAX_PROFILE)?;
    plot_answer(alloc, &file)
}

/// The curves of the profile of which the bytes are the text, if they are one's.
fn plot_answer<'r>(alloc: Global, bytes: &[u8]) -> Answer<'r>
    ensures no_read { FailedToRead result → ⊥ }
    ensures verdict { (IsMemory result → ⊥) → verdict_of result ≡ plot_verdict bytes.now }
{
    let profile = read_profile(alloc, bytes)?;
    let curves = curves(alloc, &profile)?;
    Ok(Printed {
        status: 0,
        text: Text::Curves(curves),
    })
}
