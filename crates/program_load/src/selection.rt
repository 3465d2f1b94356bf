//! The lines that a request names.
ghost use Rattle.std.specs.Prelude.{◌≡◌, ◌<◌, ℕ, List, [], true, length, Option, option_map, All, IfOk, IfSome, IsSome};
ghost use Rattle.std.specs.List.Sorted.{IsStrictlySortedBy};
ghost use Rattle.std.specs.Option.{option_copied};
ghost use Rattle.std.specs.Ordering.{nat_cmp};
ghost use Rattle.coz_types.specs.declared.LineId.{LineId};
ghost use Rattle.progress_points.specs.Points.{IsPoints};
ghost use Rattle.experiment_plan.specs.Lists.{is_line, is_list};
ghost use Rattle.experiment_plan.specs.Selected.{id_of, ids, selected};
ghost use Rattle.program_load.specs.Selection.{all_lines, line_named, lines_named};
ghost use Rattle.program_load.specs.Verdict.{Verdict, named_verdict, points_verdict};
ghost use Rattle.program_load.specs.Answer.{verdict_after, IsMemory, FailedToRead};

use crate::fault::Fault;
use coz_types::LineId;
use coz_words::Word;
use experiment_plan::{SelectError, line_found, select};
use file_read::FileFault;
use line_index::LineIndex;
use progress_points::Points;
use std::alloc::{AllocError, Global};

/// The bytes of a word, if there is one.
pub fn bytes_of<'r>(word: &'r Option<Word>) -> Option<&'r [u8]>
    ensures { option_copied result ≡ word.now }
{
    match word {
        Some(word) => Some(word.text().as_bytes()),
        None => None,
    }
}

/// The line that a text names, if there is a text. Err says that the program has no such line.
pub fn line_named<'r>(
    index: &LineIndex,
    line: Option<&'r [u8]>,
) -> Result<Option<LineId>, Fault<'r>>
    requires { IfSome line (λ text. is_line text.now ≡ true) }
    ensures no_read { FailedToRead result → ⊥ }
    ensures verdict { (next : Option ℕ → Verdict) →
        verdict_after result (λ line. next (option_map id_of line))
        ≡ named_verdict (line_named index.now.lines (option_copied line.entry)) next }
    ensures some { IsSome line.entry → IfOk result (λ line. IsSome line) }
{
    let Some(text) = line else {
        return Ok(None);
    };
    match line_found(index, text) {
        Some(line) => Ok(Some(line)),
        None => Err(Fault::NoLine(text)),
    }
}

/// The lines that a list names, as they rise and each once.
fn lines_of<'r>(alloc: Global, index: &LineIndex, list: &'r [u8]) -> Result<Vec<LineId>, Fault<'r>>
    requires { is_list list.now ≡ true }
    ensures no_read { FailedToRead result → ⊥ }
    ensures verdict { (IsMemory result → ⊥) → (next : List ℕ → Verdict) →
        verdict_after result (λ lines. next (ids lines.items))
        ≡ named_verdict (selected index.now.lines list.now) next }
    ensures rising { IfOk result (λ lines. IsStrictlySortedBy nat_cmp (ids lines.items)) }
    ensures below { IfOk result (λ lines.
        All (λ (line : LineId). line.0 < length index.now.lines) lines.items) }
{
    match select(alloc, index, list) {
        Ok(lines) => Ok(lines),
        Err(SelectError::NoLine { start, length }) => {
            let piece = &list[start as usize..(start + length) as usize];
            Err(Fault::NoLine(piece))
        }
        Err(SelectError::Memory) => Err(Fault::File(FileFault::Memory)),
    }
}

/// All lines of a program.
fn all_lines(alloc: Global, index: &LineIndex) -> Result<Vec<LineId>, AllocError>
    ensures all { IfOk result (λ lines. ids lines.items ≡ all_lines index.now.lines) }
    ensures rising { IfOk result (λ lines. IsStrictlySortedBy nat_cmp (ids lines.items)) }
    ensures below { IfOk result (λ lines.
        All (λ (line : LineId). line.0 < length index.now.lines) lines.items) }
{
    let mut lines = Vec::new(alloc);
    for line in 0..index.count() {
        lines.push(LineId(line))?;
    }
    Ok(lines)
}

/// The lines that are selected in turn: those of a list, or all if there is none.
pub fn selected_lines<'r>(
    alloc: Global,
    index: &LineIndex,
    list: Option<&'r [u8]>,
) -> Result<Vec<LineId>, Fault<'r>>
    requires { IfSome list (λ text. is_list text.now ≡ true) }
    ensures no_read { FailedToRead result → ⊥ }
    ensures verdict { (IsMemory result → ⊥) → (next : List ℕ → Verdict) →
        verdict_after result (λ lines. next (ids lines.items))
        ≡ named_verdict
        (lines_named index.now.lines (all_lines index.now.lines) (option_copied list.entry)) next }
    ensures rising { IfOk result (λ lines. IsStrictlySortedBy nat_cmp (ids lines.items)) }
    ensures below { IfOk result (λ lines.
        All (λ (line : LineId). line.0 < length index.now.lines) lines.items) }
{
    match list {
        Some(list) => lines_of(alloc, index, list),
        None => Ok(all_lines(alloc, index)?),
    }
}

/// The lines that a list names, as they rise and each once, or none if there is no list.
/// Err is the first piece that names no line of the program, or that memory ran out.
pub fn listed_lines<'r>(
    alloc: Global,
    index: &LineIndex,
    list: Option<&'r [u8]>,
) -> Result<Vec<LineId>, Fault<'r>>
    requires { IfSome list (λ text. is_list text.now ≡ true) }
    ensures no_read { FailedToRead result → ⊥ }
    ensures verdict { (IsMemory result → ⊥) → (next : List ℕ → Verdict) →
        verdict_after result (λ lines. next (ids lines.items))
        ≡ named_verdict (lines_named index.now.lines [] (option_copied list.entry)) next }
    ensures below { IfOk result (λ lines.
        All (λ (line : LineId). line.0 < length index.now.lines) lines.items) }
{
    match list {
        Some(list) => lines_of(alloc, index, list),
        None => Ok(Vec::new(alloc)),
    }
}

/// The points of these lines, if there are not too many.
pub fn points_of<'r>(
    alloc: Global,
    index: &LineIndex,
    lines: &[LineId],
) -> Result<Points, Fault<'r>>
    requires { All (λ (line : LineId). line.0 < length index.now.lines) lines.now }
    ensures no_read { FailedToRead result → ⊥ }
    ensures verdict { (IsMemory result → ⊥) → (next : List ℕ → Verdict) →
        verdict_after result (λ points. next points.lines) ≡ points_verdict (ids lines.now) next }
    ensures points { IfOk result (IsPoints index.now (ids lines.now)) }
{
    Ok(Points::new(alloc, index, lines)?)
}

/// The progress points of a list, or none if there is none.
pub fn progress_points<'r>(
    alloc: Global,
    index: &LineIndex,
    list: Option<&'r [u8]>,
) -> Result<Points, Fault<'r>>
    requires { IfSome list (λ text. is_list text.now ≡ true) }
    ensures no_read { FailedToRead result → ⊥ }
    ensures verdict { (IsMemory result → ⊥) → (next : List ℕ → Verdict) →
        verdict_after result (λ points. next points.lines)
        ≡ named_verdict (lines_named index.now.lines [] (option_copied list.entry))
        (λ named. points_verdict named next) }
    ensures points { IfOk result (λ points. IsPoints index.now points.lines points) }
    ensures below { IfOk result (λ points.
        All (λ line. line < length index.now.lines) points.lines) }
{
    let lines = listed_lines(alloc, index, list)?;
    points_of(alloc, index, &lines)
}
