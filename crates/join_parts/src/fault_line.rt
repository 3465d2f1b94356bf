//! The lines of faults, and their statuses.
ghost use Rattle.std.specs.Prelude.{◌≡◌};
ghost use Rattle.coz_files.specs.Puts.{Continues};
ghost use Rattle.join_parts.specs.Verdict.{kind_text, parts_line, profile_line};
ghost use Rattle.join_parts.specs.Answer.{fault_status, fault_line};

use crate::fault::Fault;
use coz_files::{PutAnswer, Sink, put_next};
use file_read::{put_fault, put_two};
use profile_join::PartKind;
use profile_reader::{BookFault, put_book_fault};

fn status_of(fault: &Fault) -> u8
    ensures { result ≡ fault_status fault.now }
{
    match fault {
        Fault::File(fault) => file_read::status_of(*fault),
        Fault::Profile(..) => 12,
        Fault::Parts(..) => 14,
        Fault::Timing(..) => 14,
    }
}

/// Puts the text of a malformed profile, unless a put failed before.
fn put_profile<S: Sink>(sink: &mut S, so_far: PutAnswer, fault: BookFault, path: &str) -> PutAnswer
    ensures { Continues S.holds S.faults sink.old sink.new so_far result
        (profile_line path.now fault) }
{
    let answer = put_book_fault(sink, so_far, fault);
    put_two(sink, answer, b" in ", path.as_bytes())
}

/// Puts the name of what is unlike, and the label that is in two parts, unless a put failed before.
fn put_kind<S: Sink>(sink: &mut S, so_far: PutAnswer, kind: &PartKind) -> PutAnswer
    ensures { Continues S.holds S.faults sink.old sink.new so_far result (kind_text kind.now) }
{
    match kind {
        PartKind::Budget => put_next(sink, so_far, b"Budget"),
        PartKind::Points => put_next(sink, so_far, b"Points"),
        PartKind::Speedups => put_next(sink, so_far, b"Speedups"),
        PartKind::Baseline => put_next(sink, so_far, b"Baseline"),
        PartKind::Twice(label) => put_two(sink, so_far, b"Twice ", label.bytes()),
    }
}

/// Puts the text of profiles that are no parts of one, unless a put failed before.
fn put_parts<S: Sink>(sink: &mut S, so_far: PutAnswer, kind: &PartKind, path: &str) -> PutAnswer
    ensures { Continues S.holds S.faults sink.old sink.new so_far result
        (parts_line kind.now path.now) }
{
    let answer = put_next(sink, so_far, b"parts: ");
    let answer = put_kind(sink, answer, kind);
    let answer = put_next(sink, answer, b" in ");
    put_next(sink, answer, path.as_bytes())
}

/// Puts the text of a fault, unless a put failed before.
fn put_line<S: Sink>(sink: &mut S, so_far: PutAnswer, fault: &Fault) -> PutAnswer
    ensures { Continues S.holds S.faults sink.old sink.new so_far result (fault_line fault.now) }
{
    match fault {
        Fault::File(fault) => put_fault(sink, so_far, *fault),
        Fault::Profile(fault, path) => put_profile(sink, so_far, *fault, path),
        Fault::Parts(kind, path) => put_parts(sink, so_far, kind, path),
        Fault::Timing(path) => put_two(sink, so_far, b"parts: Timing in ", path.as_bytes()),
    }
}

impl<'a> coz_serve::Fault for Fault<'a> {
    ghost use Rattle.std.proofs.Common.{rules};
    ghost use Rattle.join_parts.specs.Answer.{fault_line, fault_status, shared_fault};
    ghost use Rattle.join_parts.specs.Faults.{join_is_fault};

    ghost shared = { shared_fault };

    ghost status_of = { fault_status };

    ghost line_of = { fault_line };

    ghost greatest = { 14 };

    ghost is_fault = { join_is_fault };

    ghost is_great = { Prim.search rules };

    fn status(&self) -> u8 {
        status_of(self)
    }

    fn put_line<S: Sink>(&self, sink: &mut S, so_far: PutAnswer) -> PutAnswer {
        put_line(sink, so_far, self)
    }
}
