//! The lines of a program, by address and by name. A line is a written path and a number: its path
//! is escaped as in labels, and so it is ordered and looked for.
#![tactic(auto)]

mod backwards;
mod blocks;
mod capacity;
mod changes;
mod endings;
mod entries;
mod entry;
mod find;
mod labels;
mod lines;
mod lists;
mod named;
mod parts;
mod paths;
mod places;
mod spans;
mod suffixes;
mod turns;
mod written;

ghost use Rattle.std.specs.Prelude.{◌≡◌, ◌≤◌, ◌<◌, ℕ, true, length, IfOk, Some, option_map, map, slice_get};
ghost use Rattle.coz_types.specs.declared.TheConstants.{MAX_PROGRAM};
ghost use Rattle.coz_types.specs.Labels.{Text, is_label, label_before};
ghost use Rattle.dwarf_lines.specs.Registers.{view};
ghost use Rattle.line_index.specs.Lines.{label, position_named};
ghost use Rattle.line_index.specs.Index.{Index, IsIndex, has_line, position_at};
ghost use Rattle.line_index.specs.Listed.{IsListed};

use crate::changes::{LineChange, line_at};
use crate::endings::Endings;
use crate::lines::{Key, lines_of};
use crate::lists::Lists;
use crate::named::named_files;
use crate::parts::parts_of;
use crate::places::places_of;
use crate::spans::covering_rows;
use crate::turns::is_within;
use coz_types::{Address, Image, Label, LineId};
use dwarf_lines::LineTable;
use std::alloc::{AllocError, Global};
use std::marker::Model;
pub use suffixes::{backward_cmp, ending_cmp};

/// The lines of a program: where each begins, and which one an address has.
#[derive(Drop)]
pub struct LineIndex {
    paths: Vec<Vec<u8>>,
    endings: Endings,
    lines: Vec<Key>,
    labels: Vec<Label>,
    entries: Lists,
    changes: Vec<LineChange>,
    turns: Lists,
}

impl Model for LineIndex {
    ghost use Rattle.line_index.specs.Index.{Index};

    ghost Value = { Index };

    ghost use Rattle.line_index.specs.View.{index_view, IsWhole};

    ghost view = { index_view };

    ghost invariant = { IsWhole };
}

impl LineIndex {
    /// The number of lines.
    pub fn count(&self) -> u32
        ensures { result ≡ length self.now.lines }
    {
        self.lines.len() as u32
    }

    /// The line of an address, unless it has none.
    pub fn line_of(&self, address: Address) -> Option<LineId>
        ensures { result ≡ option_map (λ k. record { 0 = k }) (position_at self.now address) }
    {
        line_at(&self.changes, address)
    }

    /// Whether an address has this line. Its own turns alone are asked, and not those of all
    /// lines.
    #[inline]
    pub fn has_line(&self, line: LineId, address: Address) -> bool
        ensures { result ≡ has_line self.now line.0 address }
    {
        match self.turns.get(line.0 as usize) {
            Some(turns) => is_within(turns, address),
            None => false,
        }
    }

    /// The addresses at which runs of addresses with this line begin, rising.
    pub fn entries(&self, line: LineId) -> &[Address]
        requires { line.0 < length self.now.lines }
        ensures { slice_get self.now.entries line.0 ≡ Some result.now }
    {
        self.entries.list(line.0 as usize)
    }

    /// The label of the line: its path, a colon and its number. Labels rise with the lines.
    pub fn label(&self, line: LineId) -> &Label
        requires { line.0 < length self.now.lines }
        ensures label { slice_get (map label self.now.lines) line.0 ≡ Some result.now }
        ensures right { is_label result.now ≡ true }
        ensures rises { (earlier : ℕ) (other : Text) → earlier < line.0
            → slice_get (map label self.now.lines) earlier ≡ Some other
            → label_before other result.now ≡ true }
    {
        &self.labels[line.0 as usize]
    }

    /// The line of this written path and number, else the first whose path ends
    /// with a slash and the text.
    pub fn find(&self, path: &[u8], number: u32) -> Option<LineId>
        ensures { result
            ≡ option_map (λ k. record { 0 = k }) (position_named path.now number self.now.lines) }
    {
        find::find(&self.paths, &self.endings, &self.lines, path, number).map(LineId)
    }
}

/// The index of a program's line table.
pub fn build(alloc: Global, table: &LineTable, image: &Image) -> Result<LineIndex, AllocError>
    requires few_rows { length table.now.rows ≤ MAX_PROGRAM }
    requires few_files { length table.now.files ≤ MAX_PROGRAM }
    ensures index { IfOk result (λ index. IsIndex (view table.now) image.now.areas index) }
    ensures listed { IfOk result (λ index. IsListed (view table.now) image.now.areas index) }
{
    let rows = table.rows.as_slice();
    let files = table.files.as_slice();
    let covering = covering_rows(alloc, rows, image.areas())?;
    let named = named_files(alloc, rows, files, &covering)?;
    let places = places_of(alloc, &named)?;
    let lines = lines_of(alloc, rows, &places.positions, &covering)?;
    let parts = parts_of(alloc, &places.paths, &lines.keys, &lines.changes)?;
    Ok(LineIndex {
        paths: places.paths,
        endings: parts.endings,
        lines: lines.keys,
        labels: parts.labels,
        entries: parts.entries,
        changes: lines.changes,
        turns: parts.turns,
    })
}

fn is_shared<T: Send + Sync>() {}

// Workers share an index.
fn index_is_shared() {
    is_shared::<LineIndex>()
}
