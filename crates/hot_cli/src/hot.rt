//! What is printed of a run that counted.
use command_texts::ending_status;
use coz_files::{PutAnswer, Sink};
use coz_serve::Printed;
use hot_lines::{HotRun, write_hot};
use line_index::LineIndex;

/// A run that counted, and what is printed of it.
#[derive(Drop)]
pub struct Hot {
    /// The run.
    pub run: HotRun,
    /// The program's lines.
    pub index: LineIndex,
    /// Whether labels alone are printed.
    pub names: bool,
}

// 0 if the run exited, and else 1. The text takes no memory.
impl Printed for Hot {
    ghost use Rattle.hot_cli.specs.Answer.{text_in};
    ghost use Rattle.hot_cli.specs.Program.{hot_status};

    ghost status_of = { hot_status };

    ghost text_of = { text_in };

    fn status(&self) -> u8 {
        ending_status(self.run.ending)
    }

    fn put<O: Sink>(&self, out: &mut O) -> PutAnswer {
        write_hot(&self.run, &self.index, self.names, out)
    }
}
