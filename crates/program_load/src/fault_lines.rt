//! The lines of faults, and their statuses.
ghost use Rattle.std.specs.Prelude.{◌≡◌, ◌++◌, decimal};
ghost use Rattle.coz_files.specs.Puts.{Continues};
ghost use Rattle.program_load.specs.FaultLines.{source_line};
ghost use Rattle.program_load.specs.Answer.{fault_status, fault_line};

use crate::fault::Fault;
use crate::kinds::{asm_kind_name, elf_kind_name, line_kind_name};
use coz_files::{PutAnswer, Sink, put_next, put_number};
use file_read::{put_fault, put_kind_at, put_two};
use profile_reader::put_book_fault;
use rv_asm::AsmFault;

fn status_of(fault: Fault) -> u8
    ensures { result ≡ fault_status fault.entry }
{
    match fault {
        Fault::File(fault) => file_read::status_of(fault),
        Fault::Program(_) => 3,
        Fault::Lines(_) => 4,
        Fault::NoLine(_) => 7,
        Fault::ManyPoints(_) => 7,
        Fault::ManyExperiments(_) => 9,
        Fault::Source(_) => 11,
        Fault::Profile(_) => 12,
    }
}

/// Puts a count that is too large, what it is of and its unit, unless a put failed before.
fn put_count<S: Sink>(
    sink: &mut S,
    so_far: PutAnswer,
    before: &[u8],
    count: u64,
    behind: &[u8],
) -> PutAnswer
    ensures { Continues S.holds S.faults sink.old sink.new so_far result
        (before.now ++ decimal count ++ behind.now) }
{
    let answer = put_next(sink, so_far, before);
    let answer = put_number(sink, answer, count);
    put_next(sink, answer, behind)
}

/// Puts the text of a source's fault, unless a put failed before.
fn put_source<S: Sink>(sink: &mut S, so_far: PutAnswer, fault: AsmFault) -> PutAnswer
    ensures { Continues S.holds S.faults sink.old sink.new so_far result (source_line fault) }
{
    let answer = put_next(sink, so_far, b"source: ");
    let answer = put_next(sink, answer, asm_kind_name(fault.kind));
    let answer = put_next(sink, answer, b" at line ");
    let answer = put_number(sink, answer, fault.line as u64);
    let answer = put_next(sink, answer, b" column ");
    put_number(sink, answer, fault.column as u64)
}

/// Puts the text of a fault, unless a put failed before.
fn put_line<S: Sink>(sink: &mut S, so_far: PutAnswer, fault: Fault) -> PutAnswer
    ensures { Continues S.holds S.faults sink.old sink.new so_far result
        (fault_line fault.entry) }
{
    match fault {
        Fault::File(fault) => put_fault(sink, so_far, fault),
        Fault::Program(fault) => {
            put_kind_at(
                sink,
                so_far,
                b"program: ",
                elf_kind_name(fault.kind),
                fault.place,
            )
        }
        Fault::Lines(fault) => {
            put_kind_at(
                sink,
                so_far,
                b"lines: ",
                line_kind_name(fault.kind),
                fault.place,
            )
        }
        Fault::NoLine(piece) => put_two(sink, so_far, b"selection: no line ", piece),
        Fault::ManyPoints(count) => put_count(sink, so_far, b"selection: ", count, b" points"),
        Fault::ManyExperiments(count) => {
            put_count(sink, so_far, b"plan: ", count, b" experiments")
        }
        Fault::Source(fault) => put_source(sink, so_far, fault),
        Fault::Profile(fault) => put_book_fault(sink, so_far, fault),
    }
}

impl<'a> coz_serve::Fault for Fault<'a> {
    ghost use Rattle.std.proofs.Common.{rules};
    ghost use Rattle.program_load.specs.Answer.{fault_line, fault_status, shared_fault};
    ghost use Rattle.program_load.specs.Faults.{step_is_fault};

    ghost shared = { shared_fault };

    ghost status_of = { fault_status };

    ghost line_of = { fault_line };

    ghost greatest = { 12 };

    ghost is_fault = { step_is_fault };

    ghost is_great = { Prim.search rules };

    fn status(&self) -> u8 {
        status_of(*self)
    }

    fn put_line<S: Sink>(&self, sink: &mut S, so_far: PutAnswer) -> PutAnswer {
        put_line(sink, so_far, *self)
    }
}
