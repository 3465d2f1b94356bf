//! The notes of each hart.
ghost use Rattle.std.specs.Prelude.{◌≡◌, ◌+◌, ◌<◌, ◌^◌, All, Some, None, get_or};
ghost use Rattle.coz_types.specs.declared.TheConstants.{HARTS};
ghost use Rattle.machines.specs.Places.{change, change_each};
ghost use Rattle.timing_laws.specs.Noted.{last_line, made, note_of, noted, notes_after};
ghost use Rattle.timing_steps.specs.State.{number_of};
ghost use Rattle.timing_state.specs.Notes.{held_note, note_as, notes_of};

use crate::Places;
use coz_types::{HartId, LineId};
use guest_futex::HartList;

/// What is noted of a hart that was made.
#[derive(Clone, Copy)]
pub struct Note {
    /// The line of the last instruction with a line that it has retired, or that its maker had
    /// retired when it was made.
    pub last: Option<LineId>,
    /// How many instructions it has retired.
    pub count: u64,
}

/// The note of a hart that has retired nothing.
pub(crate) const FIRST_NOTE: Note = Note {
    last: None,
    count: 0,
};

/// The note of a hart.
#[inline(always)]
pub(crate) fn note_of(notes: &Places<Option<Note>>, hart: HartId) -> Note
    ensures { note_as result ≡ note_of (notes_of notes.now) hart.0 }
{
    match notes.get(hart, None) {
        Some(note) => note,
        None => FIRST_NOTE,
    }
}

/// The last line of a hart that had this one, once it retires an instruction of a line or of none.
#[inline(always)]
fn last_line(line: Option<LineId>, last: Option<LineId>) -> Option<LineId>
    ensures { number_of result ≡ last_line (number_of line) (number_of last) }
{
    match line {
        Some(line) => Some(line),
        None => last,
    }
}

/// The note of a hart once it retires an instruction of a line or of none.
#[inline(always)]
fn noted(line: Option<LineId>, before: Note) -> Note
    requires few { before.count + 1 < 2 ^ 64 }
    ensures note { note_as result ≡ noted (number_of line) (note_as before) }
    ensures last { number_of result.last
        ≡ last_line (number_of line) (number_of before.last) }
{
    Note {
        last: last_line(line, before.last),
        count: before.count + 1,
    }
}

/// Notes that a hart retires an instruction of this line. Returns its last line then.
#[inline(never)]
fn pass_any(notes: &mut Places<Option<Note>>, hart: HartId, line: Option<LineId>) -> Option<LineId>
    requires low { hart.0 < HARTS }
    requires few { (note_of (notes_of notes.old) hart.0).count + 1 < 2 ^ 64 }
    ensures notes { notes_of notes.new ≡ change None hart.0
        (λ _. Some (noted (number_of line) (note_of (notes_of notes.old) hart.0)))
        (notes_of notes.old) }
    ensures last { number_of result
        ≡ last_line (number_of line) (note_of (notes_of notes.old) hart.0).last }
{
    let before = note_of(notes, hart);
    let after = noted(line, before);
    notes.put(hart, Some(after), None);
    after.last
}

/// `pass_any`, with the common case first: the hart has a note.
#[inline(always)]
pub(crate) fn pass(
    notes: &mut Places<Option<Note>>,
    hart: HartId,
    line: Option<LineId>,
) -> Option<LineId>
    requires low { hart.0 < HARTS }
    requires few { (note_of (notes_of notes.old) hart.0).count + 1 < 2 ^ 64 }
    ensures notes { notes_of notes.new ≡ change None hart.0
        (λ _. Some (noted (number_of line) (note_of (notes_of notes.old) hart.0)))
        (notes_of notes.old) }
    ensures last { number_of result
        ≡ last_line (number_of line) (note_of (notes_of notes.old) hart.0).last }
{
    let Some(before) = notes.get(hart, None) else {
        return pass_any(notes, hart, line);
    };
    let after = noted(line, before);
    notes.set(hart, Some(after));
    after.last
}

/// The note of a hart that was made or woken: its own, or one with this last line.
fn made_note(notes: &Places<Option<Note>>, hart: HartId, last: Option<LineId>) -> Note
    ensures { Some (note_as result)
        ≡ made (number_of last) (held_note (get_or notes.now hart.0 None)) }
{
    match notes.get(hart, None) {
        Some(note) => note,
        None => Note { last, count: 0 },
    }
}

/// Notes the harts that a retirement made: each begins with this last line.
#[inline]
pub(crate) fn note_made(notes: &mut Places<Option<Note>>, others: &HartList, last: Option<LineId>)
    requires low { All (λ hart. hart < HARTS) others.now }
    ensures { notes_of notes.new
        ≡ change_each None others.now (λ _. made (number_of last)) (notes_of notes.old) }
{
    let harts = others.harts();
    for i in 0..harts.len() {
        let note = made_note(notes, harts[i], last);
        notes.put(harts[i], Some(note), None);
    }
}

/// Notes a retirement: of its hart, and of the harts that it made.
#[inline]
pub(crate) fn note_retirement(
    notes: &mut Places<Option<Note>>,
    hart: HartId,
    line: Option<LineId>,
    others: &HartList,
)
    requires low { hart.0 < HARTS }
    requires few { (note_of (notes_of notes.old) hart.0).count + 1 < 2 ^ 64 }
    requires others { All (λ hart. hart < HARTS) others.now }
    ensures { notes_of notes.new
        ≡ notes_after (number_of line) hart.0 others.now (notes_of notes.old) }
{
    let last = pass(notes, hart, line);
    note_made(notes, others, last);
}
