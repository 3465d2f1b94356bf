//! The program that makes the page of a profile.
#![tactic(auto)]

use coz_files::{HostFiles, HostSink, words};
use page_cli::serve;
use std::process::ExitCode;

fn main(rt: HostRuntime) -> ExitCode {
    let words = match words(&rt) {
        Ok(words) => words,
        Err(status) => return ExitCode::from(status),
    };
    let mut files = HostFiles::new(&rt);
    let mut out = HostSink::new(rt.stdout());
    let mut err = HostSink::new(rt.stderr());
    let status = serve(rt.alloc(), &words, &mut files, &mut out, &mut err);
    ExitCode::from(status)
}
