//! Whether a run with no line selected saves time.
ghost use Rattle.std.specs.Prelude.{◌≡◌, ◌≤◌, IfOk};
ghost use Rattle.coz_types.specs.declared.TheConstants.{MAX_BUDGET};
ghost use Rattle.guest_memory.specs.Regions.{IsLayout};
ghost use Rattle.run_engine.specs.Run.{IsChoice, IsMachine};
ghost use Rattle.profile_pool.specs.Worth.{is_long, is_success, is_worth, small, small_choice};

use coz_types::Ending;
use guest_memory::Layout;
use run_subject::Subject;
use std::alloc::{AllocError, Global};
use virtual_run::{Choice, Machine};

/// The instructions that take the time of making two machines.
const COSTS: u64 = 2_000_000;

/// The output limit, in bytes, of the run that shows whether runs are long.
const SMALL_OUTPUT: u64 = 0x1000;

/// The bytes of its region below the break.
const SMALL_BRK: u64 = 0x1_0000;

/// The bytes of its region of mappings.
const SMALL_MAP: u64 = 0x2_0000;

/// The bytes of its region of the stack.
const SMALL_STACK: u64 = 0x1_0000;

/// Regions that are made in little time.
fn small() -> Layout
    ensures small { result ≡ small }
    ensures layout { IsLayout result }
{
    Layout {
        brk: SMALL_BRK,
        map: SMALL_MAP,
        stack: SMALL_STACK,
    }
}

/// The choice of a run in small regions with no line selected, which retires at most this many
/// instructions.
fn small_choice(instructions: u64) -> Choice
    requires some { 1 ≤ instructions }
    requires few { instructions ≤ MAX_BUDGET }
    ensures choice { result ≡ small_choice instructions }
    ensures within { IsChoice result }
{
    Choice {
        output_limit: SMALL_OUTPUT,
        layout: small(),
        ..Choice::usual(None, 0, instructions)
    }
}

/// Whether a run exited with the code 0.
fn is_success(ending: Ending) -> bool
    ensures { result ≡ is_success ending }
{
    match ending {
        Ending::Exited(code) => code == 0,
        _ => false,
    }
}

/// Whether a run of a program in small regions does not exit with the code 0 within this many
/// instructions. So a run that needs larger regions counts as long.
fn is_long(alloc: Global, subject: &Subject, instructions: u64) -> Result<bool, AllocError>
    requires some { 1 ≤ instructions }
    requires few { instructions ≤ MAX_BUDGET }
    requires machine { IsMachine subject.now.timing instructions }
    ensures { IfOk result (λ long. long
        ≡ is_long subject.now instructions) }
{
    let choice = small_choice(instructions);
    let mut machine = Machine::on(
        alloc,
        subject.image,
        subject.index,
        subject.points,
        subject.timing,
        subject.input,
        choice,
    )?;
    let ending = machine.run();
    // By one call, since a drop in place is proved part by part.
    drop(machine);
    Ok(!is_success(ending))
}

/// Whether a run with no line selected saves more time than its machine takes, if it gives a run
/// of each of this many lines. It does if runs are long, and not if there is one line or if the
/// budget is small. Fails only if out of memory.
pub fn is_worth(
    alloc: Global,
    subject: &Subject,
    lines: u32,
    budget: u64,
) -> Result<bool, AllocError>
    requires machine { IsMachine subject.now.timing budget }
    ensures { IfOk result (λ worth. worth
        ≡ is_worth subject.now lines budget) }
{
    if lines < 2 {
        return Ok(false);
    }
    let least = COSTS / u64::from(lines) + 1;
    if budget < least {
        return Ok(false);
    }
    is_long(alloc, subject, least)
}
