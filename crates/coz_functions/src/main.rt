//! The program that writes a program with a line table in which each function is one line.
#![tactic(auto)]

use coz_files::{HostFiles, HostSink, words};
use functions_cli::serve_functions;
use std::process::ExitCode;

fn main(rt: HostRuntime) -> ExitCode {
    let words = match words(&rt) {
        Ok(words) => words,
        Err(status) => return ExitCode::from(status),
    };
    let mut files = HostFiles::new(&rt);
    let mut out = HostSink::new(rt.stdout());
    let mut err = HostSink::new(rt.stderr());
    let status = serve_functions(rt.alloc(), &words, &mut files, &mut out, &mut err);
    ExitCode::from(status)
}
