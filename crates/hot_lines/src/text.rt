//! The text of a run that counted.
ghost use Rattle.std.specs.Prelude.{◌++◌, map};
ghost use Rattle.coz_files.specs.Gathered.{Gathers};
ghost use Rattle.coz_files.specs.Puts.{Puts};
ghost use Rattle.machines.specs.KeptVisits.{net_of};
ghost use Rattle.command_texts.specs.Text.{net_visits_text};
ghost use Rattle.hot_lines.specs.Lines.{lines_text};
ghost use Rattle.hot_lines.specs.HotRun.{hot_written};

use crate::left::HotRun;
use crate::line_texts::{HotLines, put_lines, put_names};
use command_texts::put_net_visits;
use coz_files::{PutAnswer, PutBuffer, Sink};
use line_index::LineIndex;

/// Puts the visits of a run, and a line for each of its lines.
fn put_run<O: Sink>(to: &mut PutBuffer, out: &mut O, run: &HotRun, index: &LineIndex)
    ensures { Gathers O.holds O.faults out.old out.new to.old to.new
        (net_visits_text (map net_of run.now.visits)
        ++ lines_text index.now.lines run.now.lines run.now.none run.now.all) }
{
    put_net_visits(to, out, run.visits.as_slice());
    let hot = HotLines {
        lines: run.lines.as_slice(),
        none: run.none,
        all: run.all,
    };
    put_lines(to, out, index, hot);
}

fn put_hot<O: Sink>(to: &mut PutBuffer, out: &mut O, run: &HotRun, index: &LineIndex, names: bool)
    ensures { Gathers O.holds O.faults out.old out.new to.old to.new
        (hot_written names index.now.lines run.now) }
{
    if names {
        put_names(to, out, index, run.lines.as_slice());
    } else {
        put_run(to, out, run, index);
    }
}

/// Puts the text of a run, of which an index has the labels: the visits and a line for each of its
/// lines, or their labels alone. It takes no memory.
pub fn write_hot<O: Sink>(run: &HotRun, index: &LineIndex, names: bool, out: &mut O) -> PutAnswer
    ensures { Puts O.holds O.faults out.old out.new result
        (hot_written names index.now.lines run.now) }
{
    let mut buffer = PutBuffer::new();
    put_hot(&mut buffer, out, run, index, names);
    buffer.finish(out)
}
