//! Tests of `virtual_run`: where the forks of leads stand, and where they stand a step later.
ghost use Rattle.std.specs.Prelude.{◌≡◌, ◌≤◌, [], None, IsSome, IfSome};
ghost use Rattle.virtual_run.specs.Lead.{arguments};
ghost use Rattle.run_engine.specs.Run.{IsChoice};
ghost use Rattle.timing_model.specs.Timing.{usual};

use crate::checks::check_equal;
use crate::guests::{Check, Program, SLEEP, SMALL, WAIT, check_source};
use crate::lead_tests::run_of;
use coz_types::{HartId, LineId, Tick};
use std::alloc::{AllocError, Global};
use std::process::Abort;
use virtual_run::{Choice, Lead, Machine};

/// What a hart has spent itself, paused and been credited, in ticks.
type Paid = (Tick, Tick, Tick);

/// When a hart is due, in net ticks, and its account.
type Due = (Option<Tick>, Option<Paid>);

/// The moment, the delay then, and harts 0 and 1.
type Standing = (Tick, Tick, Due, Due);

/// A program, one of its lines, from 1 on, and a speedup; where the fork of the lead of the line
/// stands, and where it stands a step later.
struct Fork {
    source: &'static [u8],
    line: u32,
    speedup: u8,
    forked: Standing,
    stepped: Standing,
}

/// `tools/check-tables` computes the same from the sources, by docs/FORMATS.md, without the code.
static FORKS: [Fork; 4] = [
    // Hart 0 wakes from its sleep and begins the line. Hart 1 pauses for it.
    Fork {
        source: SLEEP,
        line: 8,
        speedup: 50,
        forked: (
            13700,
            50,
            (Some(13750), Some((50, 0, 0))),
            (Some(14500), Some((0, 0, 0))),
        ),
        stepped: (
            13800,
            50,
            (Some(17750), Some((50, 0, 0))),
            (Some(14500), Some((0, 50, 0))),
        ),
    },
    Fork {
        source: SLEEP,
        line: 8,
        speedup: 95,
        forked: (
            13700,
            95,
            (Some(13705), Some((95, 0, 0))),
            (Some(14500), Some((0, 0, 0))),
        ),
        stepped: (
            13800,
            95,
            (Some(17705), Some((95, 0, 0))),
            (Some(14500), Some((0, 95, 0))),
        ),
    },
    // Hart 1 begins the line, and hart 0 pauses for it in its sleep.
    Fork {
        source: SLEEP,
        line: 13,
        speedup: 50,
        forked: (
            10400,
            50,
            (Some(13700), Some((0, 0, 0))),
            (Some(10450), Some((50, 0, 0))),
        ),
        stepped: (
            10500,
            50,
            (Some(13700), Some((0, 50, 0))),
            (Some(14450), Some((50, 0, 0))),
        ),
    },
    // Hart 1 wakes hart 0, which begins the line.
    Fork {
        source: WAIT,
        line: 10,
        speedup: 50,
        forked: (
            39100,
            50,
            (Some(39150), Some((50, 0, 0))),
            (Some(39200), Some((0, 0, 0))),
        ),
        stepped: (
            39200,
            50,
            (Some(39250), Some((50, 0, 0))),
            (Some(39200), Some((0, 50, 0))),
        ),
    },
];

fn due_of(machine: &Machine, hart: HartId) -> Due {
    let paid = match machine.account(hart) {
        Some(account) => Some((account.own, account.paused, account.credited)),
        None => None,
    };
    (machine.net_due(hart), paid)
}

fn standing_of(machine: &Machine) -> Standing {
    (
        machine.now(),
        machine.raised(),
        due_of(machine, HartId(0)),
        due_of(machine, HartId(1)),
    )
}

fn check_standings<'a, R: Abort>(
    rt: &R,
    lead: &mut Lead<'a>,
    machine: &mut Machine<'a>,
    fork: &Fork,
)
    requires speedup { fork.now.speedup ≤ 95 }
    requires arguments { arguments machine.old ≡ arguments lead.old }
{
    lead.run();
    lead.fork(machine, fork.speedup);
    let forked = standing_of(machine);
    machine.step();
    let found = (forked, standing_of(machine));
    check_equal(rt, found, (fork.forked, fork.stepped));
}

fn check_lead<'a, R: Abort>(
    rt: &R,
    alloc: Global,
    program: &Program<'a>,
    choice: Choice,
    lead: &mut Lead<'a>,
    fork: &Fork,
) -> Result<(), AllocError>
    requires choice { IsChoice choice }
    requires speedup { fork.now.speedup ≤ 95 }
    requires arguments { arguments lead.old ≡ record {
      image = program.now.image.now;
      index = program.now.index.now;
      points = program.now.points.now;
      timing = usual;
      input = [];
      choice = record choice { selected = None; speedup = 0 };
      state = tt;
    } }
{
    let mut machine = run_of(alloc, program, choice)?;
    check_standings(rt, lead, &mut machine, fork);
    // By a call, since a drop in place is proved part by part.
    drop(machine);
    Ok(())
}

/// The choice of a line and a speedup, for a program with that number of lines.
fn choice_of(count: u32, fork: &Fork) -> Option<Choice>
    ensures choice { IfSome result IsChoice }
    ensures selected { IfSome result (λ choice. IsSome choice.selected) }
    ensures speedup { IfSome result (λ choice. fork.now.speedup ≤ 95) }
{
    if fork.line < 1 || fork.line > count || fork.speedup > 95 {
        return None;
    }
    Some(Choice {
        selected: Some(LineId(fork.line - 1)),
        speedup: fork.speedup,
        budget: 100,
        output_limit: 10,
        visit_limit: 100,
        layout: SMALL,
    })
}

impl Check for Fork {
    fn check<R: Abort>(&self, rt: &R, alloc: Global, program: &Program) -> Option<()> {
        let Program {
            image,
            index,
            points,
        } = *program;
        let choice = choice_of(index.count(), self)?;
        let mut lead = Lead::new(alloc, image, index, points, b"", choice).ok()?;
        let checked = check_lead(rt, alloc, program, choice, &mut lead, self);
        drop(lead);
        checked.ok()
    }
}

#[test]
fn a_fork_stands_at_the_start_of_its_line_and_goes_on(rt: HostRuntime) {
    for fork in &FORKS {
        let checked = check_source(&rt, rt.alloc(), fork.source, fork);
        check_equal(&rt, checked, Some(()));
    }
}
