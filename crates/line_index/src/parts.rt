//! What an index has beside its lines, by which it is asked.

ghost use Rattle.std.specs.Prelude.{◌≡◌, ◌<◌, ◌^◌, ℕ, [], None, length, map, get_or, IfOk, All};
ghost use Rattle.line_index.specs.declared.lines.Key.{Key};
ghost use Rattle.line_index.specs.Changes.{changes_of};
ghost use Rattle.line_index.specs.Endings.{HoldsLines, IsSearchable};
ghost use Rattle.line_index.specs.Index.{line_at};
ghost use Rattle.line_index.specs.Keys.{AreStarts, HasPath, IsBelow, texts};
ghost use Rattle.line_index.specs.Lines.{label};
ghost use Rattle.line_index.specs.Turns.{turns};

use crate::changes::LineChange;
use crate::endings::{Endings, endings_of};
use crate::entries::entries;
use crate::labels::labels;
use crate::lines::Key;
use crate::lists::Lists;
use crate::turns::turns;
use coz_types::Label;
use std::alloc::{AllocError, Global};

/// The lists that are made of the paths, the lines and their changes.
#[derive(Drop)]
pub struct Parts {
    /// The addresses at which each line begins.
    pub entries: Lists,
    /// The label of each line.
    pub labels: Vec<Label>,
    /// The lines by how their paths end.
    pub endings: Endings,
    /// The addresses at which each line begins and ends, in turn.
    pub turns: Lists,
}

/// The parts of these paths, lines and changes.
pub fn parts_of(
    alloc: Global,
    paths: &[Vec<u8>],
    lines: &[Key],
    changes: &[LineChange],
) -> Result<Parts, AllocError>
    requires few { length paths.now < 2 ^ 32 }
    requires few_lines { length lines.now < 2 ^ 32 }
    requires have_paths { All (HasPath (texts paths.now)) lines.now }
    requires few_changes { length changes.now < 2 ^ 31 }
    requires below { All (IsBelow (length lines.now)) (changes_of changes.now) }
    ensures entries { IfOk result (λ parts.
        AreStarts (length lines.now) (changes_of changes.now) parts.entries) }
    ensures labels { IfOk result (λ parts. parts.labels.items
        ≡ map (λ (key : Key). label (line_at (texts paths.now) key)) lines.now) }
    ensures searchable { IfOk result (λ parts.
        IsSearchable (texts paths.now) parts.endings) }
    ensures endings { IfOk result (λ parts. HoldsLines lines.now parts.endings) }
    ensures turns { IfOk result (λ parts. (k : ℕ)
        → get_or parts.turns k [] ≡ turns k None (changes_of changes.now)) }
{
    let entries = entries(alloc, changes, lines.len())?;
    let endings = endings_of(alloc, paths, lines)?;
    let turns = turns(alloc, changes, lines.len())?;
    let labels = labels(alloc, paths, lines)?;
    Ok(Parts {
        entries,
        labels,
        endings,
        turns,
    })
}
