//! What is chosen for a run, and what it reads.

ghost use Rattle.std.specs.Prelude.{◌≡◌, ◌≤◌, option_map};
ghost use Rattle.coz_types.specs.declared.LineId.{LineId};
ghost use Rattle.coz_types.specs.declared.TheConstants.{MAX_BUDGET, MAX_SPEEDUP};
ghost use Rattle.run_engine.specs.Choices.{choice_of};
ghost use Rattle.run_engine.specs.Run.{IsChoice, is_selecting};

use coz_types::{Address, LineId, MAX_VISITS};
use guest_memory::Layout;
use line_index::LineIndex;
use progress_points::Points;
use timing_model::Timing;

/// The options of a run.
#[derive(Clone, Copy)]
pub struct Choice {
    /// The line whose instructions are to cost less.
    pub selected: Option<LineId>,
    /// By how many per cent they are to cost less, at most `MAX_SPEEDUP`.
    pub speedup: u8,
    /// The most instructions to retire, from 1 to 10^12.
    pub budget: u64,
    /// The most bytes of output, from 1 to 67,108,864.
    pub output_limit: u64,
    /// The most visits to keep, from 1 to 1,048,576.
    pub visit_limit: u64,
    /// The sizes of the stack and of the regions of brk and mmap.
    pub layout: Layout,
}

/// The most bytes that a run of a command writes.
pub const MAX_RUN_OUTPUT: u64 = 0x40_0000;

impl Choice {
    /// The options of a run of a command: a line or none, its speedup in percent and a budget
    /// in instructions, with the usual limits: 4 MiB of output, `MAX_VISITS` visits, and the
    /// sizes of `Layout::usual`.
    pub fn usual(selected: Option<LineId>, speedup: u8, budget: u64) -> Choice
        requires speedup { speedup ≤ MAX_SPEEDUP }
        requires some_budget { 1 ≤ budget }
        requires few { budget ≤ MAX_BUDGET }
        ensures choice { result
            ≡ choice_of (option_map (λ (line : LineId). line.0) selected) speedup budget }
        ensures within { IsChoice result }
    {
        Choice {
            selected,
            speedup,
            budget,
            output_limit: MAX_RUN_OUTPUT,
            visit_limit: MAX_VISITS,
            layout: Layout::usual(),
        }
    }
}

/// The lines, the progress points, the machine and the options of a run.
#[derive(Clone, Copy)]
pub struct Setting<'a> {
    /// The lines of the program.
    pub index: &'a LineIndex,
    /// The progress points.
    pub points: &'a Points,
    /// The machine of the timing model that the program runs on.
    pub timing: Timing,
    /// The options.
    pub choice: Choice,
}

impl<'a> Setting<'a> {
    /// Whether the address has the selected line. If none is selected, the index is not asked.
    #[inline(always)]
    pub fn has_selected(&self, address: Address) -> bool
        ensures { result ≡ is_selecting self.now address }
    {
        match self.choice.selected {
            Some(line) => self.index.has_line(line, address),
            None => false,
        }
    }
}
