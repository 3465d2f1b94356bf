//! Lines that are put piece by piece.
ghost use Rattle.std.specs.Prelude.{decimal};
ghost use Rattle.coz_files.specs.Puts.{Continues};

use crate::{PutAnswer, Sink, put_next};
use itoa::Buffer;

/// Puts a number in decimal, unless a put failed before.
pub fn put_number<S: Sink>(sink: &mut S, so_far: PutAnswer, n: u64) -> PutAnswer
    ensures { Continues S.holds S.faults sink.old sink.new so_far result (decimal n) }
{
    let mut buffer = Buffer::new();
    put_next(sink, so_far, buffer.format(n).as_bytes())
}
