//! The runs of programs, and what is written of them.
ghost use Rattle.std.specs.Prelude.{◌≡◌, IfOk, IsSome, map, Some};
ghost use Rattle.coz_types.specs.declared.ending.Ending.{Ending};
ghost use Rattle.delay_credits.specs.Delays.{account_as};
ghost use Rattle.run_engine.specs.Run.{IsChoice};
ghost use Rattle.run_engine.specs.Seen.{experiment_of};
ghost use Rattle.run_subject.specs.Subjects.{experiment_alone};
ghost use Rattle.timing_model.specs.Timing.{IsUsual};
ghost use Rattle.guest_calls.specs.Guest.{Guest};
ghost use Rattle.machines.specs.Delayed.{Hart};
ghost use Rattle.machines.specs.Records.{net_record_of, record_of, shortened_record};
ghost use Rattle.machines.specs.Standing.{delayed_record};
ghost use Rattle.command_texts.specs.Text.{really_text, run_text};
ghost use Rattle.coz_commands.specs.Verdict.{ended_verdict, ending_status, really_verdict, run_verdict};
ghost use Rattle.coz_commands.specs.Kinds.{printed_of};
ghost use Rattle.coz_commands.specs.Answer.{verdict_of, printed_verdict, IsMemory, FailedToRead};

use crate::answer::Answer;
use command_texts::{Printed, RunRecord, ShortRecord, Text, ending_status, really_text, run_text};
use coz_types::{Account, Ending, HartId};
use run_subject::Subject;
use shortened_run::Short;
use std::alloc::{AllocError, Global};
use virtual_run::{Choice, Machine};

/// Which machine makes a run.
#[derive(Clone, Copy)]
pub enum Kind {
    /// The delayed machine: all other harts pause while the selected line runs.
    Delayed,
    /// The shortened machine: the selected line costs less, and nothing pauses.
    Shortened,
}

/// The account of each hart that was made.
fn accounts(alloc: Global, machine: &Machine) -> Result<Vec<Account>, AllocError>
    requires { IsUsual machine.now.timing }
    ensures { IfOk result (λ accounts. map account_as accounts.items
        ≡ map (λ (hart : Hart). hart.account) machine.now.state.harts) }
{
    let mut accounts = Vec::new(alloc);
    for number in 0..machine.harts() {
        let Some(account) = machine.account(HartId(number as u16)) else {
            unreachable!()
        };
        accounts.push(account)?;
    }
    Ok(accounts)
}

/// The text that `run` prints of a run that has ended.
fn machine_text(alloc: Global, machine: &Machine) -> Result<Vec<u8>, AllocError>
    requires usual { IsUsual machine.now.timing }
    requires ended { IsSome machine.now.state.ending }
    ensures { (ending : Ending) → machine.now.state.ending ≡ Some ending
        → IfOk result (λ text. text.items ≡
        run_text (record_of (experiment_of machine.now) machine.now.state ending)) }
{
    let Some(outcome) = machine.outcome() else {
        unreachable!()
    };
    let accounts = accounts(alloc, machine)?;
    let record = RunRecord {
        outcome,
        accounts: &accounts,
        visits: machine.visits(),
        output: machine.output(),
    };
    run_text(alloc, record)
}

/// The text of a run that came to this end, and its status.
fn printed_run(ending: Ending, text: Vec<u8>) -> Printed
    ensures { printed_verdict result ≡ ended_verdict ending text.items }
{
    Printed {
        status: ending_status(ending),
        text: Text::Bytes(text),
    }
}

/// The text of a run on the usual machine.
fn machine_answer<'r>(alloc: Global, machine: &mut Machine) -> Answer<'r>
    requires { IsUsual machine.old.timing }
    ensures no_read { FailedToRead result → ⊥ }
    ensures verdict { (IsMemory result → ⊥) → verdict_of result ≡
        run_verdict (delayed_record (experiment_of machine.old)) }
{
    let ending = machine.run();
    let text = machine_text(alloc, machine)?;
    Ok(printed_run(ending, text))
}

/// The text of a delayed run on the usual machine. Fails only if it is out of memory.
fn delayed_answer<'r>(alloc: Global, subject: &Subject, choice: Choice) -> Answer<'r>
    requires { IsChoice choice }
    ensures no_read { FailedToRead result → ⊥ }
    ensures verdict { (IsMemory result → ⊥) → verdict_of result ≡
        run_verdict (delayed_record (experiment_alone subject.now choice)) }
{
    let mut machine = Machine::new(
        alloc,
        subject.image,
        subject.index,
        subject.points,
        subject.input,
        choice,
    )?;
    let answer = machine_answer(alloc, &mut machine);
    // By one call, since a drop in place is proved part by part.
    drop(machine);
    answer
}

/// The text that `really` prints of a run with this ending.
fn short_text(alloc: Global, short: &Short, ending: Ending) -> Result<Vec<u8>, AllocError>
    ensures { IfOk result (λ text. text.items ≡
        really_text (net_record_of (experiment_of short.now) short.now.state ending)) }
{
    let record = ShortRecord {
        ending,
        net: short.net(),
        retired: short.retired(),
        starts: short.starts(),
        visits: short.visits(),
        output: short.output(),
    };
    really_text(alloc, record)
}

/// The text of a shortened run.
fn short_answer<'r>(alloc: Global, short: &mut Short) -> Answer<'r>
    ensures no_read { FailedToRead result → ⊥ }
    ensures verdict { (IsMemory result → ⊥) → verdict_of result ≡
        really_verdict (shortened_record (experiment_of short.old)) }
{
    let ending = short.run();
    let text = short_text(alloc, short, ending)?;
    Ok(printed_run(ending, text))
}

/// The text of a shortened run on the usual machine. Fails only if it is out of memory.
fn shortened_answer<'r>(alloc: Global, subject: &Subject, choice: Choice) -> Answer<'r>
    requires { IsChoice choice }
    ensures no_read { FailedToRead result → ⊥ }
    ensures verdict { (IsMemory result → ⊥) → verdict_of result ≡
        really_verdict (shortened_record (experiment_alone subject.now choice)) }
{
    let mut short = Short::new(
        alloc,
        subject.image,
        subject.index,
        subject.points,
        subject.input,
        choice,
    )?;
    let answer = short_answer(alloc, &mut short);
    // By one call, since a drop in place is proved part by part.
    drop(short);
    answer
}

/// The text of a run of this kind on the usual machine. Fails only if it is out of memory.
#[tactic(auto, unfolding(crate::specs::Kinds::printed_of))]
pub fn run_answer<'r>(alloc: Global, kind: Kind, subject: &Subject, choice: Choice) -> Answer<'r>
    requires { IsChoice choice }
    ensures no_read { FailedToRead result → ⊥ }
    ensures verdict { (IsMemory result → ⊥) → verdict_of result ≡
        printed_of kind (experiment_alone subject.now choice) }
{
    match kind {
        Kind::Delayed => delayed_answer(alloc, subject, choice),
        Kind::Shortened => shortened_answer(alloc, subject, choice),
    }
}
