//! How a reader goes on in a text.
ghost use Rattle.std.specs.Prelude.{◌≡◌};
ghost use Rattle.profile_reader.specs.Items.{items_of};
ghost use Rattle.profile_reader.specs.Reading.{next, items_past, is_done};
ghost use Rattle.profile_reader.specs.Standing.{ahead};
ghost use Rattle.failures.specs.declared.Failure.TheVariants.{Fault};

use crate::cursor::Cursor;
use crate::fault::{BookError, BookFault, BookField};
use crate::item::item_length;

/// The start of a text.
pub fn start(bytes: &[u8]) -> Cursor<'_>
    ensures rest { result.rest.now ≡ bytes.now }
    ensures place { result.place ≡ 0 }
{
    Cursor {
        rest: bytes,
        place: 0,
    }
}

/// Whether nothing is ahead.
pub fn is_done(at: Cursor<'_>) -> bool
    ensures { result ≡ is_done (items_of at.entry.rest.now) }
{
    at.rest.is_empty()
}

/// The next item, which is empty at the end of the text, and the cursor after it.
pub fn next_item<'a>(at: Cursor<'a>) -> (&'a [u8], Cursor<'a>)
    ensures item { result.0.now ≡ next (items_of at.entry.rest.now) }
    ensures behind { ahead result.1 ≡ items_past (ahead at.entry) }
{
    if at.rest.is_empty() {
        return (at.rest, at);
    }
    let (item, rest) = at.rest.split_at(item_length(at.rest));
    let place = at.place + item.len() as u64;
    (item, Cursor { rest, place })
}

/// The fault that this kind is missing here.
pub fn fault(at: Cursor<'_>, field: BookField) -> BookError
    ensures { result ≡ Fault (record { field = field; place = at.entry.place }) }
{
    BookError::Fault(BookFault {
        field,
        place: at.place,
    })
}
