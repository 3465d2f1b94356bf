//! The sequences of lines that keep their addresses.

ghost use Rattle.std.specs.Prelude.{◌≡◌, ℕ, ◌≤◌, ◌<◌, ◌++◌, ◌∷◌, [], true, false, All, IfOk};
ghost use Rattle.line_index.specs.Index.{has_line};
ghost use Rattle.line_write.specs.Unit.{IsWritable, view, views};
ghost use Rattle.line_remap.specs.Marks.{IsMark, mark_of, marks_of};
ghost use Rattle.line_remap.specs.Runs.{Adds, AreKept, AreRuns, IsRun, path_bytes};
ghost use Rattle.line_remap.specs.Sound.{IsSound};

use crate::marks::Mark;
use crate::raw_paths::unwritten;
use coz_types::{Address, LineId};
use line_index::LineIndex;
use line_write::Sequence;
use std::alloc::{AllocError, Global};

/// The most bytes that the paths of sequences have together, 128 MiB: four times those of the
/// largest file of a program.
const MAX_PATHS: usize = 0x800_0000;

/// Sequences, whose paths have at most 128 MiB together.
#[derive(Drop)]
pub struct Sequences {
    /// The sequences.
    pub list: Vec<Sequence>,
    /// The sum of the lengths of their paths, in bytes.
    pub bytes: usize,

    ghost counted: { bytes ≡ path_bytes list.items },

    ghost few: { bytes ≤ 0x800_0000 },
}

impl Sequences {
    /// No sequences.
    pub fn new(alloc: Global) -> Sequences
        ensures { result.list.items ≡ [] }
    {
        Sequences {
            list: Vec::new(alloc),
            bytes: 0,
        }
    }

    /// Adds a sequence. Out of memory too if the paths would have more than 128 MiB together.
    pub fn push(&mut self, sequence: Sequence) -> Result<(), AllocError>
        ensures { IfOk result (λ _.
            self.new.list.items ≡ self.old.list.items ++ sequence ∷ []) }
    {
        let bytes = self.bytes.saturating_add(sequence.path.len());
        if bytes > MAX_PATHS {
            return Err(AllocError);
        }
        self.list.push(sequence)?;
        self.bytes = bytes;
        Ok(())
    }
}

/// The first address from an entry address of a line on that has not the line.
fn run_end(index: &LineIndex, line: LineId, entry: Address) -> Address
    requires { IsSound index.now }
    ensures inside { (a : ℕ) → entry ≤ a → a < result → has_line index.now line.0 a ≡ true }
    ensures end { has_line index.now line.0 result ≡ false }
    ensures forward { entry ≤ result }
{
    let mut end = entry;
    while index.has_line(line, end) {
        end += 1;
    }
    end
}

/// The sequence from an entry address of a line on.
fn run(
    alloc: Global,
    index: &LineIndex,
    mark: &Mark,
    entry: Address,
) -> Result<Sequence, AllocError>
    requires sound { IsSound index.now }
    requires right { IsMark index.now mark.now }
    ensures run { IfOk result (λ s. IsRun index.now (mark_of mark.now) entry (view s)) }
    ensures writable { IfOk result (λ s. IsWritable (view s)) }
{
    let end = run_end(index, mark.line, entry);
    let path = unwritten(alloc, mark.location.path)?;
    Ok(Sequence {
        path,
        number: mark.location.number,
        address: entry,
        size: end - entry,
    })
}

/// Adds a sequence for each entry address of a line.
fn push_runs(
    alloc: Global,
    out: &mut Sequences,
    index: &LineIndex,
    mark: &Mark,
) -> Result<(), AllocError>
    requires sound { IsSound index.now }
    requires right { IsMark index.now mark.now }
    ensures { IfOk result (λ _. Adds (AreRuns index.now (mark_of mark.now))
        (views out.old.list.items) (views out.new.list.items)) }
{
    for entry in index.entries(mark.line) {
        let sequence = run(alloc, index, mark, *entry)?;
        out.push(sequence)?;
    }
    Ok(())
}

/// Adds the sequences of lines that keep their addresses.
pub fn push_kept(
    alloc: Global,
    out: &mut Sequences,
    index: &LineIndex,
    marks: &[Mark],
) -> Result<(), AllocError>
    requires sound { IsSound index.now }
    requires right { All (IsMark index.now) marks.now }
    ensures { IfOk result (λ _. Adds (AreKept index.now (marks_of marks.now))
        (views out.old.list.items) (views out.new.list.items)) }
{
    for mark in marks {
        push_runs(alloc, out, index, mark)?;
    }
    Ok(())
}
