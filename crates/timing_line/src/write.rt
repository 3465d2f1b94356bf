//! The text of a profile on a machine.
ghost use Rattle.std.specs.Prelude.{◌≡◌, ◌++◌};
ghost use Rattle.coz_files.specs.Puts.{Puts};
ghost use Rattle.profile_book.specs.Profile.{profile_text};
ghost use Rattle.timing_line.specs.Line.{timing_text};

use crate::{is_usual, put_timing};
use coz_files::{PutAnswer, PutBuffer, Sink};
use profile_book::{Profile, write_profile};
use timing_model::Timing;

/// Puts the line that names a machine. It puts nothing of the usual one.
fn write_line<O: Sink>(timing: &Timing, out: &mut O) -> PutAnswer
    ensures { Puts O.holds O.faults out.old out.new result (timing_text timing.now) }
{
    let mut buffer = PutBuffer::new();
    put_timing(&mut buffer, out, timing);
    buffer.finish(out)
}

/// Puts the line that names a machine, unless it is the usual one, and the text of a profile. It
/// takes no memory.
pub fn write_timed<O: Sink>(timing: &Timing, profile: &Profile, out: &mut O) -> PutAnswer
    ensures { Puts O.holds O.faults out.old out.new result
        (timing_text timing.now ++ profile_text profile.now) }
{
    if is_usual(timing) {
        return write_profile(profile, out);
    }
    match write_line(timing, out) {
        PutAnswer::Done => write_profile(profile, out),
        PutAnswer::Failed => PutAnswer::Failed,
    }
}
