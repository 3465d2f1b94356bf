//! The lines of faults, and their statuses.
ghost use Rattle.std.specs.Prelude.{◌≡◌};
ghost use Rattle.coz_files.specs.Puts.{Continues};
ghost use Rattle.page_cli.specs.Answer.{fault_status, fault_line};

use crate::fault::Fault;
use coz_files::{PutAnswer, Sink, put_next};
use file_read::put_fault;
use profile_reader::put_book_fault;

fn status_of(fault: Fault) -> u8
    ensures { result ≡ fault_status fault.entry }
{
    match fault {
        Fault::File(fault) => file_read::status_of(fault),
        Fault::Profile(_) => 12,
    }
}

/// Puts the text of a fault, unless a put failed before.
fn put_line<S: Sink>(sink: &mut S, so_far: PutAnswer, fault: Fault) -> PutAnswer
    ensures { Continues S.holds S.faults sink.old sink.new so_far result
        (fault_line fault.entry) }
{
    match fault {
        Fault::File(fault) => put_fault(sink, so_far, fault),
        Fault::Profile(fault) => put_book_fault(sink, so_far, fault),
    }
}

impl<'a> coz_serve::Fault for Fault<'a> {
    ghost use Rattle.std.proofs.Common.{rules};
    ghost use Rattle.page_cli.specs.Answer.{fault_line, fault_status, shared_fault};
    ghost use Rattle.page_cli.specs.Faults.{page_is_fault};

    ghost shared = { shared_fault };

    ghost status_of = { fault_status };

    ghost line_of = { fault_line };

    ghost greatest = { 12 };

    ghost is_fault = { page_is_fault };

    ghost is_great = { Prim.search rules };

    fn status(&self) -> u8 {
        status_of(*self)
    }

    fn put_line<S: Sink>(&self, sink: &mut S, so_far: PutAnswer) -> PutAnswer {
        put_line(sink, so_far, *self)
    }
}
