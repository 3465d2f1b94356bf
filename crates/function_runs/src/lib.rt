//! The meaning of a program by function: which run it is that selects one of its lines.
//!
//! The function carries a law of the definitions in `specs/Runs.antt`, and does nothing else.
#![tactic(auto)]

ghost use Rattle.function_runs.specs.Runs.{FunctionsRunAlike};

/// A run of what `coz-functions` writes, with one of its lines selected, leaves what the run of the
/// program leaves that selects the addresses which have this line by function.
pub fn functions_run_alike()
    ensures { FunctionsRunAlike }
{}
