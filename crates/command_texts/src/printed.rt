//! A text that is to be written, and the status beside it.
ghost use Rattle.std.specs.Prelude.{◌≡◌};
ghost use Rattle.coz_files.specs.Puts.{Puts};
ghost use Rattle.command_texts.specs.Printed.{ending_status, has_exited, text_bytes};

use causal_curves::{Curve, write_curves};
use coz_files::{PutAnswer, Sink};
use coz_types::{Ending, Items};
use line_index::LineIndex;
use path_texts::{CriticalPath, write_path};
use profile_book::{Profile, write_profile};

/// A text that is to be written.
#[derive(Drop)]
pub enum Text {
    /// A text in memory.
    Bytes(Vec<u8>),
    /// The text of a profile.
    Profile(Profile),
    /// The text of curves.
    Curves(Items<Curve>),
    /// The text of a critical path, whose shares are of the lines of this index.
    Path(CriticalPath, LineIndex),
}

/// A text that is to be written, and the status beside it.
#[derive(Drop)]
pub struct Printed {
    /// The status of the command if the text is put: 0 or 1.
    pub status: u8,
    /// The text.
    pub text: Text,
}

impl coz_serve::Printed for Printed {
    ghost use Rattle.command_texts.specs.Printed.{text_bytes};

    ghost status_of = { λ printed. printed.status };

    ghost text_of = { λ printed. text_bytes printed.text };

    fn status(&self) -> u8 {
        self.status
    }

    fn put<O: Sink>(&self, out: &mut O) -> PutAnswer {
        put_text(out, &self.text)
    }
}

/// Puts a text.
pub fn put_text<O: Sink>(out: &mut O, text: &Text) -> PutAnswer
    ensures { Puts O.holds O.faults out.old out.new result (text_bytes text.now) }
{
    match text {
        Text::Bytes(bytes) => out.put(bytes),
        Text::Profile(profile) => write_profile(profile, out),
        Text::Curves(curves) => write_curves(curves.as_slice(), out),
        Text::Path(path, index) => write_path(path, index, out),
    }
}

/// Whether a run exited.
pub fn has_exited(ending: Ending) -> bool
    ensures { result ≡ has_exited ending }
{
    match ending {
        Ending::Exited(_) => true,
        _ => false,
    }
}

/// The status of a command whose run came to this end.
pub fn ending_status(ending: Ending) -> u8
    ensures { result ≡ ending_status ending }
{
    match ending {
        Ending::Exited(_) => 0,
        _ => 1,
    }
}
