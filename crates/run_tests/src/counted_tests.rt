//! Tests of `counted_run`, the run that counts what is begun of each line.
ghost use Rattle.std.specs.Prelude.{◌≡◌, length};
ghost use Rattle.run_engine.specs.Run.{IsChoice};

use crate::checks::check_equal;
use crate::guests::{Check, EXIT, Program, SMALL, TWO_HARTS, WRITE, check_source};
use crate::lead_tests::{run_of, with_line};
use counted_run::Counted;
use coz_types::{LineId, Tick};
use std::alloc::{AllocError, Global};
use std::process::Abort;
use timing_model::Timing;
use virtual_run::Choice;

/// How many instructions of a line are begun, and their work in ticks.
type Begun = (u64, Tick);

/// A program, a budget, what is begun of each line, and all work in ticks.
struct Row {
    source: &'static [u8],
    budget: u64,
    lines: &'static [Begun],
    all: Tick,
}

/// A division takes 2,000 ticks, a system call 4,000 and each other instruction 100.
/// `tools/check-tables` computes the same from the sources, by docs/FORMATS.md, without the code.
static ROWS: [Row; 5] = [
    Row {
        source: EXIT,
        budget: 100,
        lines: &[(1, 100), (1, 100), (1, 4000)],
        all: 4200,
    },
    // The run ends before the third line begins.
    Row {
        source: EXIT,
        budget: 2,
        lines: &[(1, 100), (1, 100), (0, 0)],
        all: 200,
    },
    // Both harts begin lines 5 to 8.
    Row {
        source: TWO_HARTS,
        budget: 100,
        lines: &[
            (2, 200),
            (1, 100),
            (1, 100),
            (1, 4000),
            (2, 200),
            (2, 200),
            (2, 200),
            (2, 8000),
        ],
        all: 13000,
    },
    // The run ends while hart 0 has begun line 6.
    Row {
        source: TWO_HARTS,
        budget: 7,
        lines: &[
            (2, 200),
            (1, 100),
            (1, 100),
            (1, 4000),
            (2, 200),
            (1, 100),
            (0, 0),
            (0, 0),
        ],
        all: 4700,
    },
    // The last line never starts.
    Row {
        source: WRITE,
        budget: 100,
        lines: &[
            (2, 200),
            (1, 100),
            (1, 100),
            (1, 100),
            (1, 4000),
            (1, 100),
            (1, 100),
            (1, 4000),
            (0, 0),
        ],
        all: 8700,
    },
];

/// The choice of a run of at most this many instructions, from 1 to 100.
fn choice_of(budget: u64) -> Choice
    ensures { IsChoice result }
{
    Choice {
        selected: None,
        speedup: 0,
        budget: budget.clamp(1, 100),
        output_limit: 10,
        visit_limit: 100,
        layout: SMALL,
    }
}

/// How often the run that selects the line of a choice starts it.
fn starts_of(alloc: Global, program: &Program, choice: Choice) -> Result<u64, AllocError>
    requires choice { IsChoice choice }
{
    let mut machine = run_of(alloc, program, choice)?;
    machine.run();
    let starts = machine.starts();
    // By a call, since a drop in place is proved part by part.
    drop(machine);
    Ok(starts)
}

/// Compares what is begun of each line in a run that has counted, and how often the run that
/// selects the line at speedup 0 starts it.
fn check_lines<R: Abort>(
    rt: &R,
    alloc: Global,
    program: &Program,
    choice: Choice,
    counted: &Counted,
    lines: &[Begun],
) -> Result<(), AllocError>
    requires choice { IsChoice choice }
    requires index { counted.now.index ≡ program.now.index.now }
    requires lines { length lines.now ≡ length program.now.index.now.lines }
{
    for number in 0..program.index.count() {
        let line = LineId(number);
        let selected = starts_of(alloc, program, with_line(choice, line))?;
        let begun = (counted.starts(line), counted.cost(line));
        let (starts, cost) = lines[number as usize];
        check_equal(rt, (line, selected, begun), (line, starts, (starts, cost)));
    }
    Ok(())
}

impl Check for Row {
    fn check<R: Abort>(&self, rt: &R, alloc: Global, program: &Program) -> Option<()> {
        if self.lines.len() != program.index.count() as usize {
            return None;
        }
        let Program {
            image,
            index,
            points,
        } = *program;
        let choice = choice_of(self.budget);
        let timing = Timing::usual();
        let mut counted = Counted::new(alloc, image, index, points, timing, b"", choice).ok()?;
        counted.run();
        let checked = check_lines(rt, alloc, program, choice, &counted, self.lines);
        let all = (counted.cost_of_all(), counted.cost_of_none());
        drop(counted);
        check_equal(rt, all, (self.all, 0));
        checked.ok()
    }
}

#[test]
fn each_line_is_counted_as_often_as_the_run_that_selects_it_starts_it(rt: HostRuntime) {
    for row in &ROWS {
        let checked = check_source(&rt, rt.alloc(), row.source, row);
        check_equal(&rt, checked, Some(()));
    }
}
