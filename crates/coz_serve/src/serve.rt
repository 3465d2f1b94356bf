//! Writes an answer.
ghost use Rattle.coz_serve.specs.Written.{IsWritten, refused_by, shown_by};

use crate::fault::{Fault, tell};
use crate::printed::Printed;
use coz_files::{PutAnswer, Sink};
use file_read::FileFault;

/// Writes what a program prints to `out`, or the line of its fault to `err`, and returns the exit
/// status. If `out` fails, the line says so.
pub fn serve_with<A: Printed, L: Fault, O: Sink, E: Sink>(
    program: &[u8],
    answer: &Result<A, L>,
    out: &mut O,
    err: &mut E,
) -> u8
    ensures written { IsWritten program.now O.holds O.faults out.old out.new
        E.holds E.faults err.old err.new result
        (shown_by A.status_of A.text_of) (refused_by L.status_of L.line_of) answer.now }
{
    match answer {
        Ok(printed) => match printed.put(out) {
            PutAnswer::Done => printed.status(),
            PutAnswer::Failed => tell(err, program, &FileFault::Write),
        },
        Err(fault) => tell(err, program, fault),
    }
}
