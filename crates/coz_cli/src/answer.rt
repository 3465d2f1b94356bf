//! The answer of a request: a text and its status, or a fault.
ghost use Rattle.std.specs.Prelude.{◌≡◌, IfErr, IfSome, IfNone};
ghost use Rattle.coz_files.specs.Faults.{Rose};
ghost use Rattle.coz_words.specs.Request.{IsFit};
ghost use Rattle.coz_words.specs.declared.command.Command.TheVariants.{Trial};
ghost use Rattle.coz_commands.specs.Verdict.{command_verdict};
ghost use Rattle.coz_commands.specs.Answer.{IsMemory, IsMemoryFault, FailedToRead, Suits, Settles};

use coz_commands::{
    Answer, judge_latency, judge_lines, judge_path, judge_plot, judge_profile, judge_really,
    judge_run, judge_source, judge_trial,
};
use coz_files::{Files, Gate};
use coz_words::{Command, Request};
use std::alloc::Global;
use std::thread::Threads;

/// The answer of a request, over the files that it names. Err is why nothing is printed.
pub fn judge<'r, R: Threads + Sync, F: Files, G: Gate>(
    rt: &R,
    alloc: Global,
    request: &'r Request,
    files: &mut F,
    gate: &G,
) -> Answer<'r>
    requires { IsFit request.now }
    ensures same { F.held files.new ≡ F.held files.old }
    ensures fault_of_request { Suits request.now result }
    ensures verdict { IfSome (F.held files.old) (λ held. (IsMemory result → ⊥) →
        Settles (command_verdict request.now.command request.now held)
        (F.faults files.old) (F.faults files.new) result) }
    ensures read_fault_has_cause { FailedToRead result
        → IfNone (F.held files.old) (Rose (F.faults files.old) (F.faults files.new)) }
    ensures no_fault { (FailedToRead result → ⊥) → F.faults files.new ≡ F.faults files.old }
    ensures trial { request.now.command ≡ Trial
        → (files.new ≡ files.old) × IfErr result IsMemoryFault }
{
    match request.command {
        Command::Run => judge_run(alloc, request, files),
        Command::Really => judge_really(alloc, request, files),
        Command::Profile => judge_profile(rt, alloc, request, files, gate),
        Command::Lines => judge_lines(alloc, request, files),
        Command::Plot => judge_plot(alloc, request, files),
        Command::Asm => judge_source(alloc, request, files),
        Command::Trial => judge_trial(rt, alloc, request, gate),
        Command::Latency => judge_latency(alloc, request, files),
        Command::Path => judge_path(alloc, request, files),
    }
}
