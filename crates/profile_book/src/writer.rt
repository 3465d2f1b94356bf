//! The writer of a profile's text.
ghost use Rattle.std.specs.Prelude.{◌≡◌, IfOk};
ghost use Rattle.coz_files.specs.Puts.{Puts};
ghost use Rattle.profile_book.specs.Profile.{profile_text};

use crate::profile::Profile;
use crate::text_sink::TextSink;
use crate::written_lines::{put_blocks, put_head, put_points};
use coz_files::{PutAnswer, PutBuffer, Sink};
use std::alloc::{AllocError, Global};

/// Puts the text of a profile. It takes no memory.
pub fn write_profile<O: Sink>(profile: &Profile, out: &mut O) -> PutAnswer
    ensures { Puts O.holds O.faults out.old out.new result (profile_text profile.now) }
{
    let mut buffer = PutBuffer::new();
    put_head(&mut buffer, out, profile);
    put_points(&mut buffer, out, profile.points.as_slice());
    put_blocks(&mut buffer, out, profile.summaries.as_slice());
    buffer.finish(out)
}

/// The text of a profile, the very bytes that `write_profile` puts.
pub fn profile_text(alloc: Global, profile: &Profile) -> Result<Vec<u8>, AllocError>
    ensures { IfOk result (λ text. text.items ≡ profile_text profile.now) }
{
    let mut sink = TextSink::new(alloc);
    match write_profile(profile, &mut sink) {
        PutAnswer::Done => Ok(sink.text),
        PutAnswer::Failed => Err(AllocError),
    }
}
