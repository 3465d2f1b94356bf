//! The lines of faults, and their statuses.
ghost use Rattle.std.specs.Prelude.{◌≡◌};
ghost use Rattle.coz_files.specs.Puts.{Continues};
ghost use Rattle.average_parts.specs.Verdict.{kind_text, unlike_line, profile_line};
ghost use Rattle.average_parts.specs.Answer.{fault_status, fault_line};

use crate::fault::{Fault, UnlikeKind};
use coz_files::{PutAnswer, Sink};
use file_read::{put_fault, put_two};
use profile_reader::{BookFault, put_book_fault};

fn status_of(fault: &Fault) -> u8
    ensures { result ≡ fault_status fault.now }
{
    match fault {
        Fault::File(fault) => file_read::status_of(*fault),
        Fault::Profile(..) => 12,
        Fault::Unlike(..) => 14,
    }
}

/// Puts the text of a malformed profile, unless a put failed before.
fn put_profile<S: Sink>(sink: &mut S, so_far: PutAnswer, fault: BookFault, path: &str) -> PutAnswer
    ensures { Continues S.holds S.faults sink.old sink.new so_far result
        (profile_line path.now fault) }
{
    let answer = put_book_fault(sink, so_far, fault);
    put_two(sink, answer, b" in ", path.as_bytes())
}

fn kind_text(kind: UnlikeKind) -> &'static [u8]
    ensures { result.now ≡ kind_text kind }
{
    match kind {
        UnlikeKind::Timing => b"Timing",
        UnlikeKind::Seed => b"Seed",
        UnlikeKind::Budget => b"Budget",
        UnlikeKind::Points => b"Points",
        UnlikeKind::Pairs => b"Pairs",
    }
}

/// Puts the text of a profile that is unlike those before it, unless a put failed before.
fn put_unlike<S: Sink>(sink: &mut S, so_far: PutAnswer, kind: UnlikeKind, path: &str) -> PutAnswer
    ensures { Continues S.holds S.faults sink.old sink.new so_far result
        (unlike_line kind path.now) }
{
    let answer = put_two(sink, so_far, b"unlike: ", kind_text(kind));
    put_two(sink, answer, b" in ", path.as_bytes())
}

/// Puts the text of a fault, unless a put failed before.
fn put_line<S: Sink>(sink: &mut S, so_far: PutAnswer, fault: &Fault) -> PutAnswer
    ensures { Continues S.holds S.faults sink.old sink.new so_far result (fault_line fault.now) }
{
    match fault {
        Fault::File(fault) => put_fault(sink, so_far, *fault),
        Fault::Profile(fault, path) => put_profile(sink, so_far, *fault, path),
        Fault::Unlike(kind, path) => put_unlike(sink, so_far, *kind, path),
    }
}

impl<'a> coz_serve::Fault for Fault<'a> {
    ghost use Rattle.std.proofs.Common.{rules};
    ghost use Rattle.average_parts.specs.Answer.{fault_line, fault_status, shared_fault};
    ghost use Rattle.average_parts.specs.Faults.{average_is_fault};

    ghost shared = { shared_fault };

    ghost status_of = { fault_status };

    ghost line_of = { fault_line };

    ghost greatest = { 14 };

    ghost is_fault = { average_is_fault };

    ghost is_great = { Prim.search rules };

    fn status(&self) -> u8 {
        status_of(self)
    }

    fn put_line<S: Sink>(&self, sink: &mut S, so_far: PutAnswer) -> PutAnswer {
        put_line(sink, so_far, self)
    }
}
