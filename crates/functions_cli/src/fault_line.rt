//! The lines of faults, and their statuses.
ghost use Rattle.std.specs.Prelude.{◌≡◌};
ghost use Rattle.functions_cli.specs.Verdict.{refusal_text};

use crate::fault::{Fault, Refusal};
use coz_files::{PutAnswer, Sink, put_next};
use coz_serve::Fault as ServeFault;

/// The status of a program that has no such file.
const NO_FILE_STATUS: u8 = 14;

/// The text of the fault of a program that has no such file.
fn refusal_text(refusal: Refusal) -> &'static [u8]
    ensures { result.now ≡ refusal_text refusal }
{
    match refusal {
        Refusal::NoFunctions => b"no functions",
        Refusal::NoLines => b"no lines",
        Refusal::Overlap => b"section headers are loaded",
    }
}

impl<'a> ServeFault for Fault<'a> {
    ghost use Rattle.std.proofs.Common.{rules};
    ghost use Rattle.functions_cli.specs.Answer.{fault_line, fault_status, shared_fault};
    ghost use Rattle.functions_cli.specs.Faults.{functions_is_fault};

    ghost shared = { shared_fault };

    ghost status_of = { fault_status };

    ghost line_of = { fault_line };

    ghost greatest = { 14 };

    ghost is_fault = { functions_is_fault };

    ghost is_great = { Prim.search rules };

    fn status(&self) -> u8 {
        match self {
            Fault::Step(fault) => fault.status(),
            Fault::Functions(_) => NO_FILE_STATUS,
        }
    }

    fn put_line<S: Sink>(&self, sink: &mut S, so_far: PutAnswer) -> PutAnswer {
        match self {
            Fault::Step(fault) => fault.put_line(sink, so_far),
            Fault::Functions(refusal) => put_next(sink, so_far, refusal_text(*refusal)),
        }
    }
}
