//! What is printed of averages.
use average_curves::{Averages, write_averages};
use coz_files::{PutAnswer, Sink};
use coz_serve::Printed;

/// The averages of profiles, which are printed.
#[derive(Drop)]
pub struct Table {
    /// The averages.
    pub averages: Averages,
}

impl Printed for Table {
    ghost use Rattle.average_parts.specs.Program.{table_status, table_text};

    ghost status_of = { table_status };

    ghost text_of = { table_text };

    fn status(&self) -> u8 {
        0
    }

    fn put<O: Sink>(&self, out: &mut O) -> PutAnswer {
        write_averages(&self.averages, out)
    }
}
