//! Why a program prints nothing, and the line of that.
ghost use Rattle.std.specs.Prelude.{◌≡◌, ◌≤◌, ℕ, ◌++◌, List, Option, codes};
ghost use Rattle.coz_files.specs.Puts.{Continues, IsPut, Puts};
ghost use Rattle.file_read.specs.declared.fault.FileFault.{FileFault};
ghost use Rattle.coz_serve.specs.Faults.{IsFault};

use coz_files::{PutAnswer, Sink, put_next};
use file_read::{FileFault, put_fault};

/// Why a program prints nothing.
pub trait Fault {
    /// The fault, if it is one that each program may have.
    ghost shared: { Self → Option FileFault };

    /// The exit status.
    ghost status_of: { Self → ℕ };

    /// The text of the line, after the program's name.
    ghost line_of: { Self → List ℕ };

    /// The greatest exit status.
    ghost greatest: { ℕ };

    /// The exit status.
    fn status(&self) -> u8
        ensures { result ≡ status_of self.now };

    /// Puts the text of the line, unless a put failed before.
    fn put_line<S: Sink>(&self, sink: &mut S, so_far: PutAnswer) -> PutAnswer
        ensures { Continues S.holds S.faults sink.old sink.new so_far result (line_of self.now) };

    /// A fault that each program may have has the status and the line that it has in all of them.
    ghost is_fault: { (fault : Self) →
        IsFault greatest (shared fault) (status_of fault) (line_of fault) };

    /// The faults that each program may have are among them.
    ghost is_great: { 10 ≤ greatest };
}

impl<'a> Fault for FileFault<'a> {
    ghost use Rattle.std.specs.Prelude.{Some};
    ghost use Rattle.std.proofs.Common.{rules};
    ghost use Rattle.file_read.specs.Faults.{file_line, file_status};
    ghost use Rattle.coz_serve.specs.FileFaults.{file_is_fault};

    ghost shared = { λ fault. Some fault };

    ghost status_of = { λ fault. file_status fault };

    ghost line_of = { λ fault. file_line fault };

    ghost greatest = { 10 };

    ghost is_fault = { file_is_fault };

    ghost is_great = { Prim.search rules };

    fn status(&self) -> u8 {
        file_read::status_of(*self)
    }

    fn put_line<S: Sink>(&self, sink: &mut S, so_far: PutAnswer) -> PutAnswer {
        put_fault(sink, so_far, *self)
    }
}

/// Puts a line: the program's name, and the text of a fault.
fn put_whole<E: Sink, L: Fault>(err: &mut E, program: &[u8], fault: &L) -> PutAnswer
    ensures { Puts E.holds E.faults err.old err.new result
        (program.now ++ codes ": " ++ L.line_of fault.now ++ codes "\n") }
{
    let answer = put_next(err, PutAnswer::Done, program);
    let answer = put_next(err, answer, b": ");
    let answer = fault.put_line(err, answer);
    put_next(err, answer, b"\n")
}

/// Puts the line of a fault after the program's name, and returns the fault's status. A put that
/// fails changes nothing else.
pub fn tell<E: Sink, L: Fault>(err: &mut E, program: &[u8], fault: &L) -> u8
    ensures status { result ≡ L.status_of fault.now }
    ensures line { IsPut E.holds E.faults err.old err.new
        (program.now ++ codes ": " ++ L.line_of fault.now ++ codes "\n") }
{
    let _ = put_whole(err, program, fault);
    fault.status()
}
