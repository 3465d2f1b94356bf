//! What a program prints.
ghost use Rattle.std.specs.Prelude.{◌≡◌, ℕ, List};
ghost use Rattle.coz_files.specs.Puts.{Puts};

use coz_files::{PutAnswer, Sink};

/// What a program prints, with its exit status.
pub trait Printed {
    /// The exit status, if the text is written.
    ghost status_of: { Self → ℕ };

    /// The text.
    ghost text_of: { Self → List ℕ };

    /// The exit status, if the text is written.
    fn status(&self) -> u8
        ensures { result ≡ status_of self.now };

    /// Puts the text.
    fn put<O: Sink>(&self, out: &mut O) -> PutAnswer
        ensures { Puts O.holds O.faults out.old out.new result (text_of self.now) };
}
