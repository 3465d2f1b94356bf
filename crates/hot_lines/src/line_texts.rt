//! The texts of lines.
ghost use Rattle.std.specs.Prelude.{◌≡◌, ◌≤◌, ◌++◌, codes, flat_map, All};
ghost use Rattle.coz_files.specs.Gathered.{Gathers};
ghost use Rattle.coz_files.specs.Puts.{Puts};
ghost use Rattle.line_index.specs.Lines.{label_at};
ghost use Rattle.hot_lines.specs.Lines.{share_of, cost_text, hot_line, none_line, lines_text, more_names, names_text};

use crate::lines::HotLine;
use coz_files::{PutAnswer, PutBuffer, Sink};
use coz_types::{LineId, Tick};
use line_index::LineIndex;
use profile_book::{put_field, put_named};

/// Lines of a run, and the work of the run in ticks.
#[derive(Clone, Copy)]
pub struct HotLines<'a> {
    /// The lines.
    pub lines: &'a [HotLine],
    /// The work of code that has no line.
    pub none: Tick,
    /// All work.
    pub all: Tick,
}

/// The label of the line at a position.
fn label_at(index: &LineIndex, line: u32) -> &[u8]
    ensures { result.now ≡ label_at index.now.lines line }
{
    if line < index.count() {
        return index.label(LineId(line)).bytes();
    }
    b""
}

/// The part of all work that some work is, in hundredths of a per cent, rounded down.
fn share_of(all: Tick, cost: Tick) -> u64
    requires { cost ≤ all }
    ensures { result ≡ share_of all cost }
{
    if all == 0 {
        return 0;
    }
    (u128::from(cost) * 10_000 / u128::from(all)) as u64
}

/// Puts how much some work is, and its share of all.
fn put_cost<O: Sink>(to: &mut PutBuffer, out: &mut O, all: Tick, cost: Tick)
    requires { cost ≤ all }
    ensures { Gathers O.holds O.faults out.old out.new to.old to.new
        (cost_text all cost) }
{
    put_named(to, out, b" cost ", cost);
    put_named(to, out, b" share ", share_of(all, cost));
    to.push(out, b"\n");
}

fn put_hot_line<O: Sink>(
    to: &mut PutBuffer,
    out: &mut O,
    index: &LineIndex,
    all: Tick,
    line: HotLine,
)
    requires { line.cost ≤ all }
    ensures { Gathers O.holds O.faults out.old out.new to.old to.new
        (hot_line index.now.lines all line) }
{
    put_field(to, out, b"line ", label_at(index, line.line));
    put_named(to, out, b" starts ", line.starts);
    put_cost(to, out, all, line.cost);
}

fn put_hot_lines<O: Sink>(
    to: &mut PutBuffer,
    out: &mut O,
    index: &LineIndex,
    all: Tick,
    lines: &[HotLine],
)
    requires { All (λ (line : HotLine). line.cost ≤ all) lines.now }
    ensures { Gathers O.holds O.faults out.old out.new to.old to.new
        (flat_map (hot_line index.now.lines all) lines.now) }
{
    for line in lines {
        put_hot_line(to, out, index, all, *line);
    }
}

/// Puts the work of code that has no line, if there is some.
fn put_none<O: Sink>(to: &mut PutBuffer, out: &mut O, all: Tick, none: Tick)
    requires { none ≤ all }
    ensures { Gathers O.holds O.faults out.old out.new to.old to.new (none_line all none) }
{
    if none > 0 {
        to.push(out, b"none");
        put_cost(to, out, all, none);
    }
}

/// Puts the text of lines of a program. It takes no memory.
pub fn put_lines<O: Sink>(to: &mut PutBuffer, out: &mut O, index: &LineIndex, hot: HotLines)
    requires lines { All (λ (line : HotLine). line.cost ≤ hot.all) hot.lines.now }
    requires none { hot.none ≤ hot.all }
    ensures { Gathers O.holds O.faults out.old out.new to.old to.new
        (lines_text index.now.lines hot.entry.lines.now hot.entry.none hot.entry.all) }
{
    put_hot_lines(to, out, index, hot.all, hot.lines);
    put_none(to, out, hot.all, hot.none);
}

fn put_more_name<O: Sink>(to: &mut PutBuffer, out: &mut O, index: &LineIndex, line: HotLine)
    ensures { Gathers O.holds O.faults out.old out.new to.old to.new
        (more_names index.now.lines line) }
{
    put_field(to, out, b",", label_at(index, line.line));
}

fn put_more_names<O: Sink>(to: &mut PutBuffer, out: &mut O, index: &LineIndex, lines: &[HotLine])
    ensures { Gathers O.holds O.faults out.old out.new to.old to.new
        (flat_map (more_names index.now.lines) lines.now) }
{
    for line in lines {
        put_more_name(to, out, index, *line);
    }
}

/// Puts the labels of lines of a program, with a comma between, on one line. It takes no memory.
pub fn put_names<O: Sink>(to: &mut PutBuffer, out: &mut O, index: &LineIndex, lines: &[HotLine])
    ensures { Gathers O.holds O.faults out.old out.new to.old to.new
        (names_text index.now.lines lines.now) }
{
    if let Some((first, more)) = lines.split_first() {
        to.push(out, label_at(index, first.line));
        put_more_names(to, out, index, more);
    }
    to.push(out, b"\n");
}
