//! Tests of `plain_run`, the run with no line selected that tells how long harts are ready.
ghost use Rattle.std.specs.Prelude.{◌≤◌};
ghost use Rattle.run_engine.specs.Run.{IsChoice};
ghost use Rattle.timing_model.specs.Timing.{IsTiming};

use crate::checks::check_equal;
use crate::guests::{Check, Program, SMALL, TWO_HARTS, check_source};
use coz_types::Tick;
use plain_run::plain_run;
use run_engine::Choice;
use std::alloc::Global;
use std::process::Abort;
use timing_model::Timing;

/// A number of cores, a slice in cycles, a budget, and when the run of `TWO_HARTS` ends and for how
/// long each of its harts is ready, in ticks.
struct Row {
    cores: u16,
    slice: u64,
    budget: u64,
    time: Tick,
    ready: [Tick; 2],
}

/// By hand, from the costs of docs/FORMATS.md. Hart 0 makes hart 1 at 4400. After that each hart
/// has three instructions of 100 ticks and a call of 4,000.
static ROWS: [Row; 5] = [
    // Each hart has a core at once.
    Row {
        cores: 256,
        slice: 100_000,
        budget: 100,
        time: 8700,
        ready: [0, 0],
    },
    Row {
        cores: 2,
        slice: 100_000,
        budget: 100,
        time: 8700,
        ready: [0, 0],
    },
    // Hart 1 starts as hart 0 exits at 8700.
    Row {
        cores: 1,
        slice: 100_000,
        budget: 100,
        time: 13000,
        ready: [0, 4300],
    },
    // The run ends while hart 1 stands in line.
    Row {
        cores: 1,
        slice: 100_000,
        budget: 6,
        time: 4500,
        ready: [0, 100],
    },
    // The slice of hart 0 is over at 4400: hart 1 starts as it is made, and gives its core up at
    // 4600. Hart 0 gives it up at 4800, and has it again as hart 1 exits at 8900.
    Row {
        cores: 1,
        slice: 2,
        budget: 100,
        time: 13000,
        ready: [4300, 200],
    },
];

/// The usual machine, with this number of cores, and slices of this many cycles.
fn timing_of(cores: u16, slice: u64) -> Timing
    ensures { IsTiming result }
{
    Timing {
        cores: cores.clamp(1, 256),
        slice: slice.clamp(1, 1_000_000_000),
        ..Timing::usual()
    }
}

/// The choice of a run of at most this many instructions, from 1 to 100.
fn choice_of(budget: u64) -> Choice
    ensures choice { IsChoice result }
    ensures few { result.budget ≤ 100 }
{
    Choice {
        selected: None,
        speedup: 0,
        budget: budget.clamp(1, 100),
        output_limit: 10,
        visit_limit: 100,
        layout: SMALL,
    }
}

impl Check for Row {
    fn check<R: Abort>(&self, rt: &R, alloc: Global, program: &Program) -> Option<()> {
        let Program {
            image,
            index,
            points,
        } = *program;
        let timing = timing_of(self.cores, self.slice);
        let choice = choice_of(self.budget);
        let run = plain_run(alloc, image, index, points, timing, b"", choice).ok()?;
        check_equal(
            rt,
            (run.outcome.time, run.ready.as_slice()),
            (self.time, self.ready.as_slice()),
        );
        drop(run);
        Some(())
    }
}

#[test]
fn each_hart_is_ready_for_as_long_as_it_stands_in_line(rt: HostRuntime) {
    for row in &ROWS {
        let checked = check_source(&rt, rt.alloc(), TWO_HARTS, row);
        check_equal(&rt, checked, Some(()));
    }
}
