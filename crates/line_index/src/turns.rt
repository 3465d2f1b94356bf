//! Where each line begins and ends.

ghost use Rattle.std.specs.Prelude.{◌≡◌, ℕ, ◌++◌, [], ◌∷◌, length, get_or, IfOk, OnOk, All, None, ◌+◌, ◌*◌, ◌^◌, ◌≤◌, ◌<◌, if◌then◌else◌};
ghost use Rattle.line_index.specs.Changes.{place_of, changes_of};
ghost use Rattle.line_index.specs.Keys.{IsBelow, is_at};
ghost use Rattle.line_index.specs.Lists.{addresses_of};
ghost use Rattle.line_index.specs.Turns.{Rises, is_different, is_within, turns};

use crate::changes::LineChange;
use crate::lists::{Lists, Mark, add_mark, lists_of};
use coz_types::{Address, LineId};
use std::alloc::{AllocError, Global};

/// Marks the end of the line that ends at a change, and the beginning of the one that begins.
fn add_turns(
    marks: &mut Vec<Mark>,
    before: Option<LineId>,
    change: LineChange,
) -> Result<(), AllocError>
    ensures few { OnOk result (length marks.new.items ≤ length marks.old.items + 2) }
    ensures added { OnOk result
        ((k : ℕ) → addresses_of k marks.new.items ≡ addresses_of k marks.old.items
        ++ (if is_different (is_at k (place_of before)) (is_at k (place_of change.line))
        then change.address ∷ [] else [])) }
{
    if before == change.line {
        return Ok(());
    }
    add_mark(marks, before, change.address)?;
    add_mark(marks, change.line, change.address)
}

/// A mark of each address at which a line begins or ends.
fn turn_marks(alloc: Global, changes: &[LineChange]) -> Result<Vec<Mark>, AllocError>
    requires { length changes.now < 2 ^ 31 }
    ensures few { IfOk result (λ marks. length marks.items ≤ length changes.now * 2) }
    ensures each { IfOk result (λ marks.
        (k : ℕ) → addresses_of k marks.items ≡ turns k None (changes_of changes.now)) }
{
    let mut marks = Vec::with_capacity(alloc, changes.len() * 2)?;
    let mut before = None;
    for change in changes {
        add_turns(&mut marks, before, *change)?;
        before = change.line;
    }
    Ok(marks)
}

/// The addresses at which each line begins and, in turn with these, ends.
pub fn turns(alloc: Global, changes: &[LineChange], count: usize) -> Result<Lists, AllocError>
    requires few { length changes.now < 2 ^ 31 }
    requires below { All (IsBelow count) (changes_of changes.now) }
    ensures { IfOk result (λ lists.
        (k : ℕ) → get_or lists k [] ≡ turns k None (changes_of changes.now)) }
{
    let marks = turn_marks(alloc, changes)?;
    lists_of(alloc, &marks, count)
}

/// Whether an address lies after a beginning and before the end that follows: it has passed an odd
/// number of turns.
#[inline]
pub fn is_within(turns: &[Address], address: Address) -> bool
    requires { Rises 0 turns.now }
    ensures { result ≡ is_within address turns.now }
{
    turns.partition_point(|turn| *turn <= address) % 2 == 1
}
