//! Where each line begins.

ghost use Rattle.std.specs.Prelude.{◌≡◌, ◌+◌, ◌≤◌, ◌<◌, ◌^◌, ◌++◌, [], ◌∷◌, ◌&&◌, not, None, ℕ, length, IfOk, OnOk, All, if◌then◌else◌};
ghost use Rattle.line_index.specs.Changes.{place_of, changes_of};
ghost use Rattle.line_index.specs.Keys.{IsBelow, AreStarts, is_at, starts};
ghost use Rattle.line_index.specs.Lists.{addresses_of};

use crate::changes::LineChange;
use crate::lists::{Lists, Mark, add_mark, lists_of};
use coz_types::LineId;
use std::alloc::{AllocError, Global};

/// Marks the beginning of the line of a change, unless the address before has that line too.
fn add_start(
    marks: &mut Vec<Mark>,
    before: Option<LineId>,
    change: LineChange,
) -> Result<(), AllocError>
    ensures few { OnOk result (length marks.new.items ≤ length marks.old.items + 1) }
    ensures added { OnOk result ((k : ℕ) → addresses_of k marks.new.items
        ≡ addresses_of k marks.old.items
        ++ (if is_at k (place_of change.line) && not (is_at k (place_of before))
        then change.address ∷ [] else [])) }
{
    if before == change.line {
        return Ok(());
    }
    add_mark(marks, change.line, change.address)
}

/// A mark of each address at which a line begins.
fn start_marks(alloc: Global, changes: &[LineChange]) -> Result<Vec<Mark>, AllocError>
    ensures few { IfOk result (λ marks. length marks.items ≤ length changes.now) }
    ensures each { IfOk result (λ marks.
        (k : ℕ) → addresses_of k marks.items ≡ starts k None (changes_of changes.now)) }
{
    let mut marks = Vec::with_capacity(alloc, changes.len())?;
    let mut before = None;
    for change in changes {
        add_start(&mut marks, before, *change)?;
        before = change.line;
    }
    Ok(marks)
}

/// The addresses at which each line begins.
pub fn entries(alloc: Global, changes: &[LineChange], count: usize) -> Result<Lists, AllocError>
    requires few { length changes.now < 2 ^ 32 }
    requires below { All (IsBelow count) (changes_of changes.now) }
    ensures { IfOk result (λ lists. AreStarts count (changes_of changes.now) lists) }
{
    let marks = start_marks(alloc, changes)?;
    lists_of(alloc, &marks, count)
}
