//! What is printed of a profile on a machine.
ghost use Rattle.coz_files.specs.Puts.{Puts};
ghost use Rattle.std.specs.Prelude.{◌++◌};
ghost use Rattle.command_texts.specs.Printed.{text_bytes};
ghost use Rattle.timing_line.specs.Line.{timing_text};

use command_texts::{Printed, put_text};
use coz_files::{PutAnswer, PutBuffer, Sink};
use timing_line::put_timing;
use timing_model::Timing;

/// A profile on a machine that is to be written.
#[derive(Drop)]
pub struct Gain {
    /// The machine.
    pub timing: Timing,
    /// The profile, and the status beside it.
    pub profile: Printed,
}

// The text takes no memory.
impl coz_serve::Printed for Gain {
    ghost use Rattle.gain_cli.specs.Answer.{status_in, text_in};

    ghost status_of = { status_in };

    ghost text_of = { text_in };

    fn status(&self) -> u8 {
        self.profile.status
    }

    fn put<O: Sink>(&self, out: &mut O) -> PutAnswer {
        put_gain(out, self)
    }
}

/// Puts the line of a machine, or nothing for the usual one.
fn put_line<O: Sink>(out: &mut O, timing: &Timing) -> PutAnswer
    ensures { Puts O.holds O.faults out.old out.new result (timing_text timing.now) }
{
    let mut buffer = PutBuffer::new();
    put_timing(&mut buffer, out, timing);
    buffer.finish(out)
}

/// Puts the line of the machine, and then the profile.
fn put_gain<O: Sink>(out: &mut O, gain: &Gain) -> PutAnswer
    ensures { Puts O.holds O.faults out.old out.new result
        (timing_text gain.now.timing ++ text_bytes gain.now.profile.text) }
{
    match put_line(out, &gain.timing) {
        PutAnswer::Done => put_text(out, &gain.profile.text),
        PutAnswer::Failed => PutAnswer::Failed,
    }
}
