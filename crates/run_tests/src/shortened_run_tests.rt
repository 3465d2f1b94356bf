//! Tests of `shortened_run` and of `virtual_run`: a run in which the selected line costs less, and
//! the delayed run of the same choice.
ghost use Rattle.std.specs.Prelude.{◌≡◌, length, IfOk, IfSome};
ghost use Rattle.run_engine.specs.Run.{IsChoice};

use crate::checks::check_equal;
use crate::guests::{Check, Program, SMALL, check_lines};
use crate::lead_tests::run_of;
use coz_types::{
    Account, Area, Ending, HartId, Image, Items, LineId, Outcome, PointId, Rights, Tick, Visit,
};
use dwarf_lines::{FileName, LineTable, Row};
use line_index::{LineIndex, build};
use progress_points::Points;
use shortened_run::{Choice, Short};
use std::alloc::{AllocError, Global};
use std::process::Abort;
use virtual_run::Machine;

/// addi a0, x0, 0; addi a7, x0, 93; ecall: exit with the code 0.
const EXIT: [u8; 12] = [0x13, 0x05, 0, 0, 0x93, 0x08, 0xD0, 0x05, 0x73, 0, 0, 0];

/// jal x0, 0: jumps to itself.
const JUMP: [u8; 12] = [0x6F, 0, 0, 0, 0, 0, 0, 0, 0, 0, 0, 0];

const CODE: Area = Area {
    start: 0x10000,
    size: 4096,
    rights: Rights {
        read: true,
        write: false,
        execute: true,
    },
    vaddr: 0x10000,
    offset: 0,
    filled: 12,
};

const FILES: [FileName<'static>; 1] = [FileName {
    directory: b"",
    name: b"exit.s",
}];

fn row(address: u64, line: u32) -> Row {
    Row {
        sequence: 0,
        address,
        file: Some(0),
        line,
        column: 0,
        is_stmt: true,
        ends: false,
    }
}

fn image_of(alloc: Global, file: &'static [u8; 12]) -> Result<Image<'static>, AllocError> {
    let areas = Vec::from_slice(alloc, &[CODE])?;
    Ok(Image::new(file, areas, 0x10000, 0, 1))
}

/// The second instruction has line 2, the others line 1.
fn table_of(alloc: Global) -> Result<LineTable<'static>, AllocError>
    ensures files { IfOk result (λ table. length table.files ≡ 1) }
    ensures rows { IfOk result (λ table. length table.rows ≡ 4) }
{
    let rows = [
        row(0x10000, 1),
        row(0x10004, 2),
        row(0x10008, 1),
        row(0x1000C, 0),
    ];
    Ok(LineTable {
        files: Items::new(Vec::from_slice(alloc, &FILES)?),
        rows: Items::new(Vec::from_slice(alloc, &rows)?),
        skipped: 0,
    })
}

fn index_of(alloc: Global, image: &Image) -> Result<LineIndex, AllocError> {
    let table = table_of(alloc)?;
    let index = build(alloc, &table, image);
    // By a call, since a drop in place is proved part by part.
    drop(table);
    index
}

fn check_index<R: Abort, C: Check>(rt: &R, alloc: Global, image: &Image, row: &C) -> Option<()> {
    let index = index_of(alloc, image).ok()?;
    let checked = check_lines(rt, alloc, image, &index, row);
    drop(index);
    checked
}

/// Checks a row over the program of a file.
fn check_file<R: Abort, C: Check>(
    rt: &R,
    alloc: Global,
    file: &'static [u8; 12],
    row: &C,
) -> Option<()> {
    let image = image_of(alloc, file).ok()?;
    let checked = check_index(rt, alloc, &image, row);
    drop(image);
    checked
}

/// One point, at a line.
fn point_at(alloc: Global, index: &LineIndex, line: LineId) -> Option<Points> {
    if line.0 < index.count() {
        Points::new(alloc, index, &[line]).ok()
    } else {
        None
    }
}

/// The choice of a run of at most 100 instructions, if it is within the limits.
fn choice_of(selected: Option<LineId>, speedup: u8, visit_limit: u64) -> Option<Choice>
    ensures { IfSome result IsChoice }
{
    if speedup > 95 || visit_limit < 1 || visit_limit > 100 {
        return None;
    }
    Some(Choice {
        selected,
        speedup,
        budget: 100,
        output_limit: 10,
        visit_limit,
        layout: SMALL,
    })
}

/// How a run ends: its ending, its net time, its starts, the number of its visits, and the first
/// visit.
type End = (Ending, Tick, u64, usize, Option<Visit>);

/// The choice of a run with a point at the second instruction, and how the run ends.
struct Shortened {
    selected: Option<LineId>,
    speedup: u8,
    visit_limit: u64,
    end: End,
}

/// A visit of hart 0 at the point 0.
const VISIT: Visit = Visit {
    point: PointId(0),
    hart: HartId(0),
    time: 200,
    delay: 0,
};

/// By hand: the three instructions take 100, 100 and 4,000 ticks, less the speedup if selected.
static SHORTENED: [Shortened; 5] = [
    Shortened {
        selected: None,
        speedup: 95,
        visit_limit: 10,
        end: (Ending::Exited(0), 4200, 0, 1, Some(VISIT)),
    },
    Shortened {
        selected: Some(LineId(1)),
        speedup: 95,
        visit_limit: 10,
        end: (
            Ending::Exited(0),
            4105,
            1,
            1,
            Some(Visit { time: 105, ..VISIT }),
        ),
    },
    Shortened {
        selected: Some(LineId(1)),
        speedup: 0,
        visit_limit: 10,
        end: (Ending::Exited(0), 4200, 1, 1, Some(VISIT)),
    },
    Shortened {
        selected: Some(LineId(0)),
        speedup: 50,
        visit_limit: 10,
        end: (
            Ending::Exited(0),
            2150,
            2,
            1,
            Some(Visit { time: 150, ..VISIT }),
        ),
    },
    // The visits are full.
    Shortened {
        selected: Some(LineId(1)),
        speedup: 95,
        visit_limit: 1,
        end: (
            Ending::VisitsFull,
            105,
            1,
            1,
            Some(Visit { time: 105, ..VISIT }),
        ),
    },
];

/// Runs, and returns how the run has ended.
fn end_of(short: &mut Short) -> End {
    let ending = short.run();
    let visits = short.visits();
    let first = visits.first().copied();
    (ending, short.net(), short.starts(), visits.len(), first)
}

impl Check for Shortened {
    fn points(&self, alloc: Global, index: &LineIndex) -> Option<Points> {
        point_at(alloc, index, LineId(1))
    }

    fn check<R: Abort>(&self, rt: &R, alloc: Global, program: &Program) -> Option<()> {
        let Program {
            image,
            index,
            points,
        } = *program;
        let choice = choice_of(self.selected, self.speedup, self.visit_limit)?;
        let mut short = Short::new(alloc, image, index, points, b"", choice).ok()?;
        let ends = (end_of(&mut short), end_of(&mut short));
        drop(short);
        check_equal(rt, ends, (self.end, self.end));
        Some(())
    }
}

#[test]
fn a_selected_line_costs_less_and_a_second_run_changes_nothing(rt: HostRuntime) {
    for row in &SHORTENED {
        let checked = check_file(&rt, rt.alloc(), &EXIT, row);
        check_equal(&rt, checked, Some(()));
    }
}

/// A program, the line of its point and the choice of its run, and the delayed run.
struct Delayed {
    file: &'static [u8; 12],
    point: LineId,
    selected: Option<LineId>,
    speedup: u8,
    visit_limit: u64,
    /// When hart 0 is due first, in net ticks.
    due: Option<Tick>,
    /// The moment and the delay after two steps.
    stepped: (Tick, Tick),
    outcome: Outcome,
    /// What hart 0 has spent itself.
    own: Tick,
    first: Visit,
}

/// By hand: `EXIT` as above, and each jump takes 200 ticks.
static DELAYED: [Delayed; 3] = [
    Delayed {
        file: &EXIT,
        point: LineId(1),
        selected: Some(LineId(1)),
        speedup: 95,
        visit_limit: 10,
        due: Some(100),
        stepped: (200, 95),
        outcome: Outcome {
            ending: Ending::Exited(0),
            time: 4200,
            delay: 95,
            retired: 3,
            starts: 1,
        },
        own: 95,
        first: Visit { delay: 95, ..VISIT },
    },
    Delayed {
        file: &EXIT,
        point: LineId(1),
        selected: Some(LineId(0)),
        speedup: 50,
        visit_limit: 10,
        due: Some(50),
        stepped: (200, 2050),
        outcome: Outcome {
            ending: Ending::Exited(0),
            time: 4200,
            delay: 2050,
            retired: 3,
            starts: 2,
        },
        own: 2050,
        first: Visit { delay: 50, ..VISIT },
    },
    // The visits are full.
    Delayed {
        file: &JUMP,
        point: LineId(0),
        selected: None,
        speedup: 0,
        visit_limit: 3,
        due: Some(200),
        stepped: (400, 0),
        outcome: Outcome {
            ending: Ending::VisitsFull,
            time: 600,
            delay: 0,
            retired: 3,
            starts: 0,
        },
        own: 0,
        first: VISIT,
    },
];

fn check_machine<R: Abort>(rt: &R, machine: &mut Machine, row: &Delayed) {
    let due = machine.net_due(HartId(0));
    machine.step();
    machine.step();
    let stepped = (machine.now(), machine.raised());
    machine.run();
    let account = Account {
        own: row.own,
        paused: 0,
        credited: 0,
    };
    check_equal(
        rt,
        (
            (due, stepped),
            machine.outcome(),
            machine.account(HartId(0)),
            machine.visits().first().copied(),
        ),
        (
            (row.due, row.stepped),
            Some(row.outcome),
            Some(account),
            Some(row.first),
        ),
    );
}

impl Check for Delayed {
    fn points(&self, alloc: Global, index: &LineIndex) -> Option<Points> {
        point_at(alloc, index, self.point)
    }

    fn check<R: Abort>(&self, rt: &R, alloc: Global, program: &Program) -> Option<()> {
        let choice = choice_of(self.selected, self.speedup, self.visit_limit)?;
        let mut machine = run_of(alloc, program, choice).ok()?;
        check_machine(rt, &mut machine, self);
        drop(machine);
        Some(())
    }
}

#[test]
fn the_delayed_run_has_the_delays_of_the_selected_line(rt: HostRuntime) {
    for row in &DELAYED {
        let checked = check_file(&rt, rt.alloc(), row.file, row);
        check_equal(&rt, checked, Some(()));
    }
}
