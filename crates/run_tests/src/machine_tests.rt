//! Tests of `virtual_run`: machines with other budgets, output limits and layouts than those of the
//! commands.
ghost use Rattle.std.specs.Prelude.{IfSome};
ghost use Rattle.run_engine.specs.Run.{IsChoice};

use crate::checks::check_equal;
use crate::guests::{Check, Program, check_source};
use crate::lead_tests::run_of;
use coz_types::Ending;
use guest_memory::Layout;
use std::alloc::Global;
use std::process::Abort;
use virtual_run::Choice;

/// Writes 80 times 65,536 bytes, which are 5 MiB, and exits.
const WRITES: &[u8] = b"li s0, 80\n\
    again: li a0, 1\nla a1, text\nlui a2, 16\nli a7, 64\necall\n\
    addi s0, s0, -1\nbne s0, x0, again\n\
    li a0, 0\nli a7, 93\necall\n\
    .data\ntext: .zero 65536\n";

/// Exits with the sum of these: 1 if the break can be moved to two pages, 2 if it can be moved by
/// a byte more, 4 if three pages can be mapped, 8 if a page more can be mapped, 16 if the lowest
/// byte of two pages of stack can be written out, 32 if the byte below it can be.
const REGIONS: &[u8] = b"li a0, 0\nli a7, 214\necall\nmv s1, a0\n\
    lui t0, 2\nadd s2, s1, t0\nmv a0, s2\necall\nsub t1, a0, s2\nsltiu s0, t1, 1\n\
    addi s2, s2, 1\nmv a0, s2\necall\nsub t1, a0, s2\nsltiu t1, t1, 1\n\
    slli t1, t1, 1\nadd s0, s0, t1\n\
    lui a1, 3\nli a2, 3\nli a3, 34\nli a7, 222\necall\n\
    slt t1, x0, a0\nslli t1, t1, 2\nadd s0, s0, t1\n\
    lui a1, 1\necall\nslt t1, x0, a0\nslli t1, t1, 3\nadd s0, s0, t1\n\
    li t0, 64\nslli t0, t0, 32\nlui t1, 2\nsub s2, t0, t1\n\
    li a0, 1\nmv a1, s2\nli a2, 1\nli a7, 64\necall\n\
    slt t1, x0, a0\nslli t1, t1, 4\nadd s0, s0, t1\n\
    li a0, 1\naddi a1, s2, -1\necall\n\
    slt t1, x0, a0\nslli t1, t1, 5\nadd s0, s0, t1\n\
    mv a0, s0\nli a7, 93\necall\n";

/// Two pages below the break, three of mappings and two of stack.
const FEW_PAGES: Layout = Layout {
    brk: 8192,
    map: 12288,
    stack: 8192,
};

/// A program, and how its run ends.
struct Row {
    source: &'static [u8],
    budget: u64,
    output_limit: u64,
    has_few_pages: bool,
    ending: Ending,
    retired: u64,
    /// The number of bytes that are written.
    output: usize,
}

/// By hand: a round of `WRITES` is eight instructions, and the bits of `REGIONS` are those
/// above.
static ROWS: [Row; 5] = [
    // the greatest budget, and one byte more than the commands let be written
    Row {
        source: WRITES,
        budget: 1_000_000_000_000,
        output_limit: 4_194_305,
        has_few_pages: false,
        ending: Ending::OutputFull,
        retired: 519,
        output: 4_194_305,
    },
    Row {
        source: WRITES,
        budget: 100_000_001,
        output_limit: 5_242_880,
        has_few_pages: false,
        ending: Ending::OutputFull,
        retired: 639,
        output: 5_242_880,
    },
    Row {
        source: WRITES,
        budget: 644,
        output_limit: 67_108_864,
        has_few_pages: false,
        ending: Ending::Exited(0),
        retired: 644,
        output: 5_242_880,
    },
    Row {
        source: REGIONS,
        budget: 100,
        output_limit: 10,
        has_few_pages: false,
        ending: Ending::Exited(63),
        retired: 51,
        output: 2,
    },
    Row {
        source: REGIONS,
        budget: 100,
        output_limit: 10,
        has_few_pages: true,
        ending: Ending::Exited(21),
        retired: 51,
        output: 1,
    },
];

/// The choice of a row, if it is within the limits.
fn choice_of(row: &Row) -> Option<Choice>
    ensures { IfSome result IsChoice }
{
    if row.budget < 1 || row.budget > 1_000_000_000_000 {
        return None;
    }
    if row.output_limit < 1 || row.output_limit > 67_108_864 {
        return None;
    }
    Some(Choice {
        selected: None,
        speedup: 0,
        budget: row.budget,
        output_limit: row.output_limit,
        visit_limit: 1,
        layout: if row.has_few_pages {
            FEW_PAGES
        } else {
            Layout::usual()
        },
    })
}

impl Check for Row {
    fn check<R: Abort>(&self, rt: &R, alloc: Global, program: &Program) -> Option<()> {
        let choice = choice_of(self)?;
        let mut machine = run_of(alloc, program, choice).ok()?;
        let ending = machine.run();
        let found = (ending, machine.retired(), machine.output().len());
        // By a call, since a drop in place is proved part by part.
        drop(machine);
        check_equal(rt, found, (self.ending, self.retired, self.output));
        Some(())
    }
}

#[test]
fn a_machine_ends_at_its_budget_its_output_limit_and_its_regions(rt: HostRuntime) {
    for row in &ROWS {
        let checked = check_source(&rt, rt.alloc(), row.source, row);
        check_equal(&rt, checked, Some(()));
    }
}
