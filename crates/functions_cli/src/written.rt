//! The file that is written.
use coz_files::{PutAnswer, Sink};
use coz_serve::Printed;

/// The file of a program in which each function is one line.
#[derive(Drop)]
pub struct Written {
    /// Its bytes.
    pub file: Vec<u8>,
}

impl Printed for Written {
    ghost use Rattle.functions_cli.specs.Program.{written_status, written_text};

    ghost status_of = { written_status };

    ghost text_of = { written_text };

    fn status(&self) -> u8 {
        0
    }

    fn put<O: Sink>(&self, out: &mut O) -> PutAnswer {
        out.put(self.file.as_slice())
    }
}
