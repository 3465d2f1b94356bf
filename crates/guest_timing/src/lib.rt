//! Runs of a program on the machines of the timing model: other costs, jitter, code without lines
//! charged to its callers, and fewer cores than harts.
//!
//! The functions carry laws of the definitions in `specs/Timed.antt`, and do nothing else. The
//! law of virtual speedup holds on each of these machines, since `machines` proves it of any
//! lawful guest, and each of them is a guest around coz's own.
#![tactic(auto)]

ghost use Rattle.guest_timing.specs.Timed.{TimedRunsKeepTheLaw, UsualRunsAreTheRuns, MachineRunsAreTimed, NoCoreIsIdle};

/// On each machine of the timing model the net part of what the delayed run leaves is what the
/// shortened run leaves.
pub fn timed_runs_keep_the_law()
    ensures { TimedRunsKeepTheLaw }
{}

/// With a core for each hart, the costs of `cost_table`, nothing charged to callers and no jitter,
/// a run leaves what it leaves in `coz profile`.
pub fn usual_runs_are_the_runs()
    ensures { UsualRunsAreTheRuns }
{}

/// A run of the engine on a machine leaves what the run of the guest with the machine's costs, with
/// notes, on cores leaves.
pub fn machine_runs_are_timed()
    ensures { MachineRunsAreTimed }
{}

/// No core is idle while a hart stands in line for one.
pub fn no_core_is_idle()
    ensures { NoCoreIsIdle }
{}
