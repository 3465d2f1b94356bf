//! The program that profiles on a machine of other costs, cores or jitter.
#![tactic(auto)]

use coz_files::{FreeGate, HostFiles, HostSink, words};
use gain_cli::serve_gain;
use std::process::ExitCode;

fn main(rt: HostRuntime) -> ExitCode {
    let words = match words(&rt) {
        Ok(words) => words,
        Err(status) => return ExitCode::from(status),
    };
    let mut files = HostFiles::new(&rt);
    let mut out = HostSink::new(rt.stdout());
    let mut err = HostSink::new(rt.stderr());
    let status = serve_gain(
        &rt,
        rt.alloc(),
        &words,
        &mut files,
        &mut out,
        &mut err,
        &FreeGate,
    );
    ExitCode::from(status)
}
