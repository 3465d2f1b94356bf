//! An example of the libraries: prints the source line of an address of a program.
//!
//! The arguments are the program's file and the address, a decimal number:
//!
//! ```text
//! $ line_of one 65540
//! one.s:2
//! ```
#![tactic(auto)]

ghost use Rattle.std.specs.Prelude.{◌≤◌, length};
ghost use Rattle.coz_types.specs.declared.TheConstants.{MAX_PROGRAM};

use coz_files::{HostFiles, HostSink, Sink, words};
use coz_types::{Address, Label, MAX_PROGRAM};
use file_read::read_file;
use program_load::read_program;
use std::alloc::Global;
use std::process::ExitCode;

/// The label of the line of an address. None if the file is no program with a line table, if the
/// address has no line, or if it is out of memory.
fn label_of(alloc: Global, file: &[u8], address: Address) -> Option<Label>
    requires { length file.now ≤ MAX_PROGRAM }
{
    let Ok(program) = read_program(alloc, file) else {
        return None;
    };
    match program.index.line_of(address) {
        Some(line) => Label::copy(alloc, program.index.label(line).bytes()).ok(),
        None => None,
    }
}

fn main(rt: HostRuntime) -> ExitCode {
    let words = match words(&rt) {
        Ok(words) => words,
        Err(status) => return ExitCode::from(status),
    };
    let [path, address] = words.as_slice() else {
        return ExitCode::from(2);
    };
    let Ok(address) = address.parse::<Address>() else {
        return ExitCode::from(2);
    };
    let Ok(file) = read_file(rt.alloc(), &mut HostFiles::new(&rt), path, MAX_PROGRAM) else {
        return ExitCode::from(5);
    };
    let mut out = HostSink::new(rt.stdout());
    match label_of(rt.alloc(), &file, address) {
        Some(label) => {
            out.put(label.bytes());
            out.put(b"\n");
            ExitCode::from(0)
        }
        None => ExitCode::from(1),
    }
}
