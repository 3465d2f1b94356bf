//! Tests of `virtual_run` and of `shortened_run` on machines of the timing model that are not the
//! usual one.
ghost use Rattle.std.specs.Prelude.{◌≤◌, IfSome};
ghost use Rattle.timing_model.specs.Timing.{IsTiming};
ghost use Rattle.run_engine.specs.Run.{IsChoice, IsMachine};

use crate::checks::check_equal;
use crate::guests::{Check, EXIT, Program, SLEEP, SMALL, TWO_HARTS, check_source};
use coz_types::{Account, Ending, HartId, LineId, Outcome, PointId, Visit};
use line_index::LineIndex;
use progress_points::Points;
use shortened_run::Short;
use std::alloc::{AllocError, Global};
use std::process::Abort;
use timing_model::{Charge, Costs, Timing};
use virtual_run::{Choice, Machine};

/// Hart 0 makes harts 1 and 2, and each divides and exits.
const THREE_HARTS: &[u8] = b"li a0, 0x10F00\nli a7, 220\necall\nbeq a0, x0, child\n\
    li a0, 0x10F00\necall\n\
    child: div t0, t0, t0\nli a0, 0\nli a7, 93\necall\n";

/// Each of two harts calls sched_yield and exits.
const YIELDS: &[u8] = b"li a0, 0x10F00\nli a7, 220\necall\n\
    li a7, 124\necall\nli a0, 0\nli a7, 93\necall\n";

/// Calls two instructions that stand at its end, and exits.
const CALLS: &[u8] = b"jal x1, counts\nli a7, 93\necall\n\
    counts: addi t0, t0, 1\njalr x0, 0(x1)\n";

/// Calls two instructions that stand at its end, the first of which makes hart 1, and exits.
const MAKES: &[u8] = b"lui a0, 17\naddi a0, a0, -256\nli a7, 220\njal x1, makes\n\
    li a0, 0\nli a7, 93\necall\n\
    makes: ecall\njalr x0, 0(x1)\n";

/// Has the first three lines of `CALLS`, at the same addresses.
const THREE_LINES: &[u8] = b"nop\nnop\nnop\n";

/// Has the first seven lines of `MAKES`, at the same addresses.
const SEVEN_LINES: &[u8] = b"nop\nnop\nnop\nnop\nnop\nnop\nnop\n";

/// The costs of the usual machine.
const COSTS: Costs = Costs {
    integer: 1,
    jump: 2,
    load: 3,
    multiply: 3,
    atomic: 8,
    divide: 20,
    ecall: 40,
};

/// The usual machine.
const USUAL: Timing = Timing {
    cores: 256,
    slice: 100_000,
    costs: COSTS,
    charge: Charge::Nobody,
    seed: 0,
};

/// An account in which nothing is.
const NONE: Account = Account {
    own: 0,
    paused: 0,
    credited: 0,
};

/// A visit of hart 0 at the point.
const VISIT: Visit = Visit {
    point: PointId(0),
    hart: HartId(0),
    time: 0,
    delay: 0,
};

/// An outcome of a run that all harts leave with the code 0.
const EXITED: Outcome = Outcome {
    ending: Ending::Exited(0),
    time: 0,
    delay: 0,
    retired: 0,
    starts: 0,
};

/// The accounts of harts 0, 1 and 2, of those that were made.
type Accounts = (Option<Account>, Option<Account>, Option<Account>);

/// A program, the program whose lines it has, a machine, the choice of a run and the line of its
/// point, and what the delayed run leaves.
struct Row {
    source: &'static [u8],
    lines: &'static [u8],
    timing: Timing,
    selected: Option<LineId>,
    speedup: u8,
    budget: u64,
    point: LineId,
    outcome: Outcome,
    visits: &'static [Visit],
    accounts: Accounts,
}

/// By hand, from the costs of docs/FORMATS.md. An instruction takes 100 ticks for each cycle.
static ROWS: [Row; 14] = [
    // With two cores hart 1 starts as it is made, and each hart pauses for the other one.
    Row {
        source: TWO_HARTS,
        lines: TWO_HARTS,
        timing: Timing { cores: 2, ..USUAL },
        selected: Some(LineId(4)),
        speedup: 50,
        budget: 100,
        point: LineId(6),
        outcome: Outcome {
            time: 8750,
            delay: 100,
            retired: 13,
            starts: 2,
            ..EXITED
        },
        visits: &[
            Visit {
                time: 4750,
                delay: 100,
                ..VISIT
            },
            Visit {
                hart: HartId(1),
                time: 4750,
                delay: 100,
                ..VISIT
            },
        ],
        accounts: (
            Some(Account {
                own: 50,
                paused: 50,
                ..NONE
            }),
            Some(Account {
                own: 50,
                paused: 50,
                ..NONE
            }),
            None,
        ),
    },
    // On one core hart 1 starts as hart 0 exits, which credits it then. While a hart waits for a
    // core it does not pause.
    Row {
        source: TWO_HARTS,
        lines: TWO_HARTS,
        timing: Timing { cores: 1, ..USUAL },
        selected: Some(LineId(4)),
        speedup: 50,
        budget: 100,
        point: LineId(6),
        outcome: Outcome {
            time: 13000,
            delay: 100,
            retired: 13,
            starts: 2,
            ..EXITED
        },
        visits: &[
            Visit {
                time: 4700,
                delay: 50,
                ..VISIT
            },
            Visit {
                hart: HartId(1),
                time: 9000,
                delay: 100,
                ..VISIT
            },
        ],
        accounts: (
            Some(Account { own: 50, ..NONE }),
            Some(Account {
                own: 50,
                credited: 50,
                ..NONE
            }),
            None,
        ),
    },
    // The run ends before hart 1 has had a core.
    Row {
        source: TWO_HARTS,
        lines: TWO_HARTS,
        timing: Timing { cores: 1, ..USUAL },
        selected: Some(LineId(4)),
        speedup: 50,
        budget: 6,
        point: LineId(4),
        outcome: Outcome {
            ending: Ending::Spent,
            time: 4500,
            delay: 50,
            retired: 6,
            starts: 1,
        },
        visits: &[Visit {
            time: 4500,
            delay: 50,
            ..VISIT
        }],
        accounts: (Some(Account { own: 50, ..NONE }), Some(NONE), None),
    },
    // A slice of two cycles ends: hart 1 has it from 4400 to 4600, and hart 0 from then to 4800.
    Row {
        source: TWO_HARTS,
        lines: TWO_HARTS,
        timing: Timing {
            cores: 1,
            slice: 2,
            ..USUAL
        },
        selected: None,
        speedup: 0,
        budget: 100,
        point: LineId(6),
        outcome: Outcome {
            time: 13000,
            retired: 13,
            ..EXITED
        },
        visits: &[
            Visit {
                hart: HartId(1),
                time: 4900,
                ..VISIT
            },
            Visit {
                time: 9000,
                ..VISIT
            },
        ],
        accounts: (Some(NONE), Some(NONE), None),
    },
    // A slice is of net time: with line 5 selected there is room for a third instruction in it.
    Row {
        source: TWO_HARTS,
        lines: TWO_HARTS,
        timing: Timing {
            cores: 1,
            slice: 2,
            ..USUAL
        },
        selected: Some(LineId(4)),
        speedup: 50,
        budget: 100,
        point: LineId(6),
        outcome: Outcome {
            time: 13000,
            delay: 100,
            retired: 13,
            starts: 2,
            ..EXITED
        },
        visits: &[
            Visit {
                hart: HartId(1),
                time: 4700,
                delay: 50,
                ..VISIT
            },
            Visit {
                time: 5000,
                delay: 100,
                ..VISIT
            },
        ],
        accounts: (
            Some(Account {
                own: 50,
                credited: 50,
                ..NONE
            }),
            Some(Account {
                own: 50,
                credited: 50,
                ..NONE
            }),
            None,
        ),
    },
    // sched_yield gives the core up: hart 1 starts at 8400, and hart 0 goes on at 12500.
    Row {
        source: YIELDS,
        lines: YIELDS,
        timing: Timing { cores: 1, ..USUAL },
        selected: None,
        speedup: 0,
        budget: 100,
        point: LineId(5),
        outcome: Outcome {
            time: 20900,
            retired: 14,
            ..EXITED
        },
        visits: &[
            Visit {
                time: 12600,
                ..VISIT
            },
            Visit {
                hart: HartId(1),
                time: 16800,
                ..VISIT
            },
        ],
        accounts: (Some(NONE), Some(NONE), None),
    },
    // Hart 0 wakes to a full core at 13700. It runs at once, stands in line as it retires, and goes
    // on as hart 1 exits at 18990.
    Row {
        source: SLEEP,
        lines: SLEEP,
        timing: Timing { cores: 1, ..USUAL },
        selected: Some(LineId(7)),
        speedup: 90,
        budget: 100,
        point: LineId(7),
        outcome: Outcome {
            time: 22990,
            delay: 90,
            retired: 17,
            starts: 1,
            ..EXITED
        },
        visits: &[Visit {
            time: 13800,
            delay: 90,
            ..VISIT
        }],
        accounts: (
            Some(Account { own: 90, ..NONE }),
            Some(Account { paused: 90, ..NONE }),
            None,
        ),
    },
    // A clone finds no core free: hart 2 is made at 8600, and starts as hart 1 exits at 10600.
    Row {
        source: THREE_HARTS,
        lines: THREE_HARTS,
        timing: Timing { cores: 2, ..USUAL },
        selected: None,
        speedup: 0,
        budget: 100,
        point: LineId(6),
        outcome: Outcome {
            time: 16800,
            retired: 21,
            ..EXITED
        },
        visits: &[
            Visit {
                hart: HartId(1),
                time: 6400,
                ..VISIT
            },
            Visit {
                time: 10600,
                ..VISIT
            },
            Visit {
                hart: HartId(2),
                time: 12600,
                ..VISIT
            },
        ],
        accounts: (Some(NONE), Some(NONE), Some(NONE)),
    },
    // With the division selected, hart 1 credits hart 2, which hart 0 made.
    Row {
        source: THREE_HARTS,
        lines: THREE_HARTS,
        timing: Timing { cores: 2, ..USUAL },
        selected: Some(LineId(6)),
        speedup: 50,
        budget: 100,
        point: LineId(6),
        outcome: Outcome {
            time: 17800,
            delay: 3000,
            retired: 21,
            starts: 3,
            ..EXITED
        },
        visits: &[
            Visit {
                hart: HartId(1),
                time: 6400,
                delay: 1000,
                ..VISIT
            },
            Visit {
                time: 11600,
                delay: 2000,
                ..VISIT
            },
            Visit {
                hart: HartId(2),
                time: 13600,
                delay: 3000,
                ..VISIT
            },
        ],
        accounts: (
            Some(Account {
                own: 1000,
                paused: 2000,
                ..NONE
            }),
            Some(Account {
                own: 1000,
                paused: 1000,
                ..NONE
            }),
            Some(Account {
                own: 1000,
                credited: 2000,
                ..NONE
            }),
        ),
    },
    // Each instruction of code without lines is charged to the line that called it.
    Row {
        source: CALLS,
        lines: THREE_LINES,
        timing: Timing {
            charge: Charge::Last,
            ..USUAL
        },
        selected: Some(LineId(0)),
        speedup: 50,
        budget: 100,
        point: LineId(1),
        outcome: Outcome {
            time: 4600,
            delay: 250,
            retired: 5,
            starts: 3,
            ..EXITED
        },
        visits: &[Visit {
            time: 600,
            delay: 250,
            ..VISIT
        }],
        accounts: (Some(Account { own: 250, ..NONE }), None, None),
    },
    // It is charged to nobody, on this machine as on the usual one.
    Row {
        source: CALLS,
        lines: THREE_LINES,
        timing: Timing { cores: 1, ..USUAL },
        selected: Some(LineId(0)),
        speedup: 50,
        budget: 100,
        point: LineId(1),
        outcome: Outcome {
            time: 4600,
            delay: 100,
            retired: 5,
            starts: 1,
            ..EXITED
        },
        visits: &[Visit {
            time: 600,
            delay: 100,
            ..VISIT
        }],
        accounts: (Some(Account { own: 100, ..NONE }), None, None),
    },
    // A hart that is made in code without lines is charged to the line that its maker came from.
    Row {
        source: MAKES,
        lines: SEVEN_LINES,
        timing: Timing {
            charge: Charge::Last,
            ..USUAL
        },
        selected: Some(LineId(3)),
        speedup: 50,
        budget: 100,
        point: LineId(4),
        outcome: Outcome {
            time: 9000,
            delay: 2300,
            retired: 13,
            starts: 4,
            ..EXITED
        },
        visits: &[
            Visit {
                time: 4900,
                delay: 2300,
                ..VISIT
            },
            Visit {
                hart: HartId(1),
                time: 4900,
                delay: 2300,
                ..VISIT
            },
        ],
        accounts: (
            Some(Account {
                own: 2200,
                paused: 100,
                ..NONE
            }),
            Some(Account {
                own: 100,
                paused: 100,
                credited: 2100,
            }),
            None,
        ),
    },
    // A system call that costs 300 cycles, and others that cost 10.
    Row {
        source: EXIT,
        lines: EXIT,
        timing: Timing {
            costs: Costs {
                integer: 10,
                ecall: 300,
                ..COSTS
            },
            ..USUAL
        },
        selected: Some(LineId(2)),
        speedup: 95,
        budget: 100,
        point: LineId(2),
        outcome: Outcome {
            time: 32000,
            delay: 28500,
            retired: 3,
            starts: 1,
            ..EXITED
        },
        visits: &[Visit {
            time: 32000,
            delay: 28500,
            ..VISIT
        }],
        accounts: (Some(Account { own: 28500, ..NONE }), None, None),
    },
    // By splitmix64 of this seed, instructions 2, 4, 6 and 8 of hart 0 and the first one of hart 1
    // cost twice. So the selected line costs 200 ticks in each hart.
    Row {
        source: TWO_HARTS,
        lines: TWO_HARTS,
        timing: Timing { seed: 19, ..USUAL },
        selected: Some(LineId(4)),
        speedup: 50,
        budget: 100,
        point: LineId(6),
        outcome: Outcome {
            time: 9200,
            delay: 200,
            retired: 13,
            starts: 2,
            ..EXITED
        },
        visits: &[
            Visit {
                hart: HartId(1),
                time: 5100,
                delay: 200,
                ..VISIT
            },
            Visit {
                time: 5200,
                delay: 200,
                ..VISIT
            },
        ],
        accounts: (
            Some(Account {
                own: 100,
                paused: 100,
                ..NONE
            }),
            Some(Account {
                own: 100,
                paused: 100,
                ..NONE
            }),
            None,
        ),
    },
];

/// The machine of a row, if it is within the limits.
fn timing_of(timing: Timing) -> Option<Timing>
    ensures { IfSome result IsTiming }
{
    if timing.cores < 1 || timing.cores > 256 {
        return None;
    }
    if timing.slice < 1 || timing.slice > 1_000_000_000 {
        return None;
    }
    let Costs { integer, ecall, .. } = timing.costs;
    if integer < 1 || integer > 10_000 || ecall < 1 || ecall > 10_000 {
        return None;
    }
    Some(Timing {
        costs: Costs {
            integer,
            ecall,
            ..Costs::usual()
        },
        ..timing
    })
}

/// The choice of a row, if it is within the limits.
fn choice_of(row: &Row) -> Option<Choice>
    ensures choice { IfSome result IsChoice }
    ensures few { IfSome result (λ choice. choice.budget ≤ 100) }
{
    if row.speedup > 95 || row.budget < 1 || row.budget > 100 {
        return None;
    }
    Some(Choice {
        selected: row.selected,
        speedup: row.speedup,
        budget: row.budget,
        output_limit: 10,
        visit_limit: 100,
        layout: SMALL,
    })
}

/// Checks that the visits of a shortened run are those of the delayed run without their delays.
fn check_visits<R: Abort>(rt: &R, delayed: &[Visit], shortened: &[Visit]) {
    check_equal(rt, shortened.len(), delayed.len());
    for (visit, expected) in shortened.iter().zip(delayed.iter()) {
        let net = Visit {
            time: expected.time.saturating_sub(expected.delay),
            delay: 0,
            ..*expected
        };
        check_equal(rt, *visit, net);
    }
}

/// Checks that a shortened run leaves the net part of what the row says of the delayed run.
fn check_short<R: Abort>(rt: &R, short: &mut Short, row: &Row) {
    let ending = short.run();
    let outcome = row.outcome;
    let net = outcome.time.saturating_sub(outcome.delay);
    check_equal(
        rt,
        (ending, short.net(), short.retired(), short.starts()),
        (outcome.ending, net, outcome.retired, outcome.starts),
    );
    check_visits(rt, row.visits, short.visits());
}

/// Checks that a delayed run leaves what the row says.
fn check_machine<R: Abort>(rt: &R, machine: &mut Machine, row: &Row) {
    machine.run();
    let accounts = (
        machine.account(HartId(0)),
        machine.account(HartId(1)),
        machine.account(HartId(2)),
    );
    check_equal(
        rt,
        (machine.outcome(), machine.visits(), accounts),
        (Some(row.outcome), row.visits, row.accounts),
    );
}

/// Checks the two runs of a row.
fn check_runs<R: Abort>(
    rt: &R,
    alloc: Global,
    program: &Program,
    timing: Timing,
    choice: Choice,
    row: &Row,
) -> Result<(), AllocError>
    requires choice { IsChoice choice }
    requires machine { IsMachine timing choice.budget }
{
    let Program {
        image,
        index,
        points,
    } = *program;
    let mut machine = Machine::on(alloc, image, index, points, timing, b"", choice)?;
    check_machine(rt, &mut machine, row);
    // By a call, since a drop in place is proved part by part.
    drop(machine);
    let mut short = Short::on(alloc, image, index, points, timing, b"", choice)?;
    check_short(rt, &mut short, row);
    drop(short);
    Ok(())
}

/// A row, with the lines and the point that its program has.
#[derive(Drop)]
struct OnLines<'r> {
    row: &'r Row,
    index: &'r LineIndex,
    points: &'r Points,
}

impl<'r> Check for OnLines<'r> {
    fn check<R: Abort>(&self, rt: &R, alloc: Global, program: &Program) -> Option<()> {
        let timing = timing_of(self.row.timing)?;
        let choice = choice_of(self.row)?;
        let program = Program {
            image: program.image,
            index: self.index,
            points: self.points,
        };
        check_runs(rt, alloc, &program, timing, choice, self.row).ok()
    }
}

impl Check for Row {
    fn points(&self, alloc: Global, index: &LineIndex) -> Option<Points> {
        if self.point.0 < index.count() {
            Points::new(alloc, index, &[self.point]).ok()
        } else {
            None
        }
    }

    fn check<R: Abort>(&self, rt: &R, alloc: Global, program: &Program) -> Option<()> {
        let row = OnLines {
            row: self,
            index: program.index,
            points: program.points,
        };
        check_source(rt, alloc, self.source, &row)
    }
}

#[test]
fn the_delayed_and_the_shortened_run_agree_on_each_machine(rt: HostRuntime) {
    for (number, row) in ROWS.iter().enumerate() {
        let checked = check_source(&rt, rt.alloc(), row.lines, row);
        check_equal(&rt, (number, checked), (number, Some(())));
    }
}
