//! Tests of `virtual_run`: leads, and the machines that are forked from them.
ghost use Rattle.std.specs.Prelude.{◌≡◌, ◌≤◌, [], ◌∷◌, None, IsSome, IfOk, IfSome};
ghost use Rattle.machines.specs.Delayed.{unbegun};
ghost use Rattle.virtual_run.specs.Lead.{arguments};
ghost use Rattle.run_engine.specs.Run.{IsChoice};
ghost use Rattle.timing_model.specs.Timing.{usual};
ghost use Rattle.run_engine.specs.Seen.{experiment_of};

use crate::checks::check_equal;
use crate::guests::{
    Check, EXIT, JOIN, Program, SLEEP, SMALL, TWO_HARTS, WAIT, WRITE, check_source,
};
use coz_types::{Account, Ending, HartId, LineId, Outcome, Visit};
use line_index::LineIndex;
use progress_points::Points;
use std::alloc::{AllocError, Global};
use std::process::Abort;
use virtual_run::{Choice, Lead, Machine};

/// A program, one of its lines, from 1 on, and a budget; the ending that the lead of the line
/// gives, if it gives one, and how many starts a run counts.
struct Row(&'static [u8], u32, u64, Option<Ending>, u64);

/// `tools/check-tables` computes the same from the sources, by docs/FORMATS.md, without the code.
static ROWS: [Row; 16] = [
    // Hart 0 begins with the line.
    Row(EXIT, 1, 100, None, 1),
    Row(EXIT, 3, 100, None, 1),
    // The budget ends with the first start, and just before it.
    Row(EXIT, 2, 2, None, 1),
    Row(EXIT, 3, 2, Some(Ending::Spent), 0),
    Row(TWO_HARTS, 3, 100, None, 1),
    // Both harts begin the line at once.
    Row(TWO_HARTS, 5, 100, None, 2),
    Row(TWO_HARTS, 6, 100, None, 2),
    Row(WAIT, 4, 100, None, 2),
    // Hart 0 begins it as hart 1 wakes it.
    Row(WAIT, 10, 100, None, 1),
    Row(WAIT, 17, 100, None, 10),
    Row(JOIN, 5, 100, None, 2),
    Row(JOIN, 10, 100, None, 1),
    Row(WRITE, 5, 100, None, 1),
    // No hart reaches the line.
    Row(WRITE, 9, 100, Some(Ending::Exited(0)), 0),
    // Hart 0 begins it as it wakes from its sleep, and hart 1 while hart 0 sleeps.
    Row(SLEEP, 8, 100, None, 1),
    Row(SLEEP, 13, 100, None, 1),
];

/// The outcome of a run, its visits, its output, and the accounts of harts 0 and 1.
type End<'a> = (
    Option<Outcome>,
    &'a [Visit],
    &'a [u8],
    Option<Account>,
    Option<Account>,
);

fn end_of<'b>(machine: &'b Machine) -> End<'b> {
    (
        machine.outcome(),
        machine.visits(),
        machine.output(),
        machine.account(HartId(0)),
        machine.account(HartId(1)),
    )
}

/// Steps as often as the run of any row does, and on.
fn step_to_the_end(machine: &mut Machine)
    ensures { arguments machine.new ≡ arguments machine.old }
{
    for _ in 0..200u32 {
        machine.step();
    }
}

/// Compares a fork of a lead that is stepped, and then one that is run, with a machine that is made
/// for the speedup and has ended.
fn check_forks<'a, R: Abort>(
    rt: &R,
    lead: &Lead<'a>,
    machine: &mut Machine<'a>,
    made: &Machine<'a>,
    speedup: u8,
)
    requires speedup { speedup ≤ 95 }
    requires arguments { arguments machine.old ≡ arguments lead.now }
    ensures { arguments machine.new ≡ arguments lead.now }
{
    lead.fork(machine, speedup);
    step_to_the_end(machine);
    check_equal(rt, end_of(machine), end_of(made));
    lead.fork(machine, speedup);
    machine.run();
    check_equal(rt, end_of(machine), end_of(made));
}

/// The run of a choice.
pub(crate) fn run_of<'a>(
    alloc: Global,
    program: &Program<'a>,
    choice: Choice,
) -> Result<Machine<'a>, AllocError>
    requires choice { IsChoice choice }
    ensures { IfOk result (λ machine. arguments machine ≡ record {
      image = program.now.image.now;
      index = program.now.index.now;
      points = program.now.points.now;
      timing = usual;
      input = [];
      choice = record choice { selected = None; speedup = 0 };
      state = tt;
    }) }
{
    let Program {
        image,
        index,
        points,
    } = *program;
    Machine::new(alloc, image, index, points, b"", choice)
}

/// Checks the forks of a lead at a speedup, whose runs have `starts` starts.
fn check_speedup<'a, R: Abort>(
    rt: &R,
    alloc: Global,
    program: &Program<'a>,
    choice: Choice,
    starts: u64,
    lead: &Lead<'a>,
    machine: &mut Machine<'a>,
) -> Result<(), AllocError>
    requires choice { IsChoice choice }
    requires arguments { arguments machine.old ≡ arguments lead.now }
    ensures { arguments machine.new ≡ arguments lead.now }
{
    let mut made = run_of(alloc, program, choice)?;
    made.run();
    check_equal(
        rt,
        (choice.speedup, made.starts()),
        (choice.speedup, starts),
    );
    check_forks(rt, lead, machine, &made, choice.speedup);
    // By a call, since a drop in place is proved part by part.
    drop(made);
    Ok(())
}

/// Checks the forks of a lead at several speedups.
fn check_speedups<'a, R: Abort>(
    rt: &R,
    alloc: Global,
    program: &Program<'a>,
    choice: Choice,
    starts: u64,
    lead: &Lead<'a>,
    machine: &mut Machine<'a>,
) -> Result<(), AllocError>
    requires choice { IsChoice choice }
    requires arguments { arguments machine.old ≡ arguments lead.now }
{
    let whole = Choice {
        speedup: 0,
        ..choice
    };
    let half = Choice {
        speedup: 50,
        ..choice
    };
    let least = Choice {
        speedup: 95,
        ..choice
    };
    check_speedup(rt, alloc, program, whole, starts, lead, machine)?;
    check_speedup(rt, alloc, program, half, starts, lead, machine)?;
    check_speedup(rt, alloc, program, least, starts, lead, machine)
}

/// Runs a lead of some line, makes it the lead of another line, and returns what each of two runs
/// gives then.
fn endings_of<'a>(
    lead: &mut Lead<'a>,
    first: &Lead<'a>,
    line: LineId,
) -> (Option<Ending>, Option<Ending>)
    requires arguments { arguments lead.old ≡ arguments first.now }
    requires unbegun { first.now.state
        ≡ record { state = unbegun (experiment_of first.now); harts = 0 ∷ [] } }
    ensures { arguments lead.new ≡ arguments first.now }
{
    lead.run();
    lead.again(first, line);
    (lead.run(), lead.run())
}

/// With a line selected.
pub(crate) fn with_line(choice: Choice, line: LineId) -> Choice
    requires { IsChoice choice }
    ensures { IsChoice result }
{
    Choice {
        selected: Some(line),
        ..choice
    }
}

/// Checks a lead that was made as `first`, once it is the lead of the line of a row, and its forks.
fn check_line<'a, R: Abort>(
    rt: &R,
    alloc: Global,
    program: &Program<'a>,
    choice: Choice,
    row: &Row,
    first: &Lead<'a>,
    lead: &mut Lead<'a>,
) -> Result<(), AllocError>
    requires choice { IsChoice choice }
    requires arguments { arguments lead.old ≡ arguments first.now }
    requires first { arguments first.now ≡ record {
      image = program.now.image.now;
      index = program.now.index.now;
      points = program.now.points.now;
      timing = usual;
      input = [];
      choice = record choice { selected = None; speedup = 0 };
      state = tt;
    } }
    requires unbegun { first.now.state
        ≡ record { state = unbegun (experiment_of first.now); harts = 0 ∷ [] } }
    requires line { 1 ≤ row.now.1 }
{
    let line = LineId(row.1 - 1);
    let mut machine = run_of(alloc, program, choice)?;
    let endings = endings_of(lead, first, line);
    check_equal(rt, (line, endings), (line, (row.3, row.3)));
    let choice = with_line(choice, line);
    let checked = check_speedups(rt, alloc, program, choice, row.4, lead, &mut machine);
    drop(machine);
    checked
}

/// Checks a lead that is made as `first`.
fn check_lead<'a, R: Abort>(
    rt: &R,
    alloc: Global,
    program: &Program<'a>,
    choice: Choice,
    row: &Row,
    first: &Lead<'a>,
) -> Result<(), AllocError>
    requires choice { IsChoice choice }
    requires selected { IsSome choice.selected }
    requires first { arguments first.now ≡ record {
      image = program.now.image.now;
      index = program.now.index.now;
      points = program.now.points.now;
      timing = usual;
      input = [];
      choice = record choice { selected = None; speedup = 0 };
      state = tt;
    } }
    requires unbegun { first.now.state
        ≡ record { state = unbegun (experiment_of first.now); harts = 0 ∷ [] } }
    requires line { 1 ≤ row.now.1 }
{
    let Program {
        image,
        index,
        points,
    } = *program;
    let mut lead = Lead::new(alloc, image, index, points, b"", choice)?;
    let checked = check_line(rt, alloc, program, choice, row, first, &mut lead);
    drop(lead);
    checked
}

/// The choice of another line than that of the row, if the row can be run on a program of `count`
/// lines.
fn choice_of(count: u32, row: &Row) -> Option<Choice>
    ensures choice { IfSome result IsChoice }
    ensures selected { IfSome result (λ choice. IsSome choice.selected) }
    ensures line { IfSome result (λ choice. 1 ≤ row.now.1) }
{
    let Row(_, line, budget, _, _) = *row;
    if line < 1 || line > count || budget < 1 || budget > 100 {
        return None;
    }
    Some(Choice {
        selected: Some(LineId(line % count)),
        speedup: 7,
        budget,
        output_limit: 10,
        visit_limit: 100,
        layout: SMALL,
    })
}

impl Check for Row {
    /// The line of the row and the last line.
    fn points(&self, alloc: Global, index: &LineIndex) -> Option<Points> {
        let count = index.count();
        if self.1 < 1 || self.1 > count {
            return None;
        }
        Points::new(alloc, index, &[LineId(self.1 - 1), LineId(count - 1)]).ok()
    }

    fn check<R: Abort>(&self, rt: &R, alloc: Global, program: &Program) -> Option<()> {
        let Program {
            image,
            index,
            points,
        } = *program;
        let choice = choice_of(index.count(), self)?;
        let first = Lead::new(alloc, image, index, points, b"", choice).ok()?;
        let checked = check_lead(rt, alloc, program, choice, self, &first);
        drop(first);
        checked.ok()
    }
}

#[test]
fn a_forked_machine_ends_as_a_machine_that_is_made_for_its_line(rt: HostRuntime) {
    for row in &ROWS {
        let checked = check_source(&rt, rt.alloc(), row.0, row);
        check_equal(&rt, checked, Some(()));
    }
}
