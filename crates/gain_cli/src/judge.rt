//! The answer of a request.
ghost use Rattle.std.specs.Prelude.{◌≡◌, ◌≤◌, IfSome, IfNone};
ghost use Rattle.coz_files.specs.Faults.{Rose};
ghost use Rattle.coz_words.specs.Request.{IsFit};
ghost use Rattle.coz_words.specs.declared.command.Command.TheVariants.{Profile};
ghost use Rattle.timing_model.specs.Timing.{IsTiming};
ghost use Rattle.timing_steps.specs.declared.ticks.TheConstants.{MAX_TIMED_BUDGET};
ghost use Rattle.gain_cli.specs.Verdict.{gain_verdict};
ghost use Rattle.gain_cli.specs.Answer.{IsMemory, FailedToRead, Suits, Settles};

use crate::gain::Gain;
use coz_commands::judge_profile_on;
use coz_files::{Files, Gate};
use gain_words::GainRequest;
use program_load::Fault;
use std::alloc::Global;
use std::thread::Threads;

/// The profile that a request asks for, over the files that it names. Err is the first fault of the
/// files, the program, its lines and the plan, or out of memory.
pub fn judge_gain<'r, R: Threads + Sync, F: Files, G: Gate>(
    rt: &R,
    alloc: Global,
    asked: &'r GainRequest,
    files: &mut F,
    gate: &G,
) -> Result<Gain, Fault<'r>>
    requires fit { IsFit asked.now.profile }
    requires profile { asked.now.profile.command ≡ Profile }
    requires few { asked.now.profile.budget ≤ MAX_TIMED_BUDGET }
    requires timing { IsTiming asked.now.timing }
    ensures same { F.held files.new ≡ F.held files.old }
    ensures fault_of_request { Suits asked.now.profile result }
    ensures verdict { IfSome (F.held files.old) (λ held. (IsMemory result → ⊥) →
        Settles (gain_verdict asked.now held) (F.faults files.old) (F.faults files.new) result) }
    ensures read_fault_has_cause { FailedToRead result
        → IfNone (F.held files.old) (Rose (F.faults files.old) (F.faults files.new)) }
    ensures no_fault { (FailedToRead result → ⊥) → F.faults files.new ≡ F.faults files.old }
{
    let profile = judge_profile_on(rt, alloc, asked.timing, &asked.profile, files, gate)?;
    Ok(Gain {
        timing: asked.timing,
        profile,
    })
}
