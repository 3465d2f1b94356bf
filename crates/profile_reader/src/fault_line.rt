//! The line of the first wrong item of a profile's text.
ghost use Rattle.coz_files.specs.Puts.{Continues};
ghost use Rattle.profile_reader.specs.ItemNames.{book_line};

use crate::fault::BookFault;
use coz_files::{PutAnswer, Sink};
use file_read::put_kind_at;

/// Puts the name of the first wrong item of a profile's text and its offset in bytes, unless a put
/// failed before. The caller puts the program's name before, and ends the line.
pub fn put_book_fault<S: Sink>(sink: &mut S, so_far: PutAnswer, fault: BookFault) -> PutAnswer
    ensures { Continues S.holds S.faults sink.old sink.new so_far result (book_line fault) }
{
    put_kind_at(sink, so_far, b"profile: ", fault.field.name(), fault.place)
}
