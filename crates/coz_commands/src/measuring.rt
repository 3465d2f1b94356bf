//! The latency of a run at a speedup, forked from a lead.
ghost use Rattle.std.specs.Prelude.{◌≡◌, ◌-◌, ◌≤◌, Some, IsSome};
ghost use Rattle.coz_types.specs.declared.TheConstants.{MAX_SPEEDUP};
ghost use Rattle.coz_types.specs.declared.ending.Ending.{Ending};
ghost use Rattle.machines.specs.Records.{net, record_of};
ghost use Rattle.machines.specs.Standing.{delayed_record};
ghost use Rattle.machines.specs.Lead.{at_speedup};
ghost use Rattle.run_engine.specs.Seen.{experiment_of};
ghost use Rattle.virtual_run.specs.Lead.{arguments};
ghost use Rattle.virtual_run.specs.DelayedRun.{outcome_of, IsSmall};
ghost use Rattle.coz_commands.specs.Measured.{measured_in};

use coz_types::{Ending, Outcome, PointId, Tick};
use latency_points::{Latency, measure};
use virtual_run::{Lead, Machine};

/// The ending of a run, its time, and the latency of its requests up to then.
#[derive(Clone, Copy)]
pub struct RunLatency {
    /// The ending of the run.
    pub ending: Ending,
    /// The moment of its last retirement less the delay then, in ticks.
    pub net: Tick,
    /// The latency of its requests up to that moment.
    pub latency: Latency,
}

/// The outcome of a run that has ended.
fn outcome_of(machine: &Machine) -> Outcome
    requires { IsSome machine.now.state.ending }
    ensures outcome { Some result ≡ outcome_of machine.now.state }
    ensures small { IsSmall result }
    ensures in_time { result.delay ≤ result.time }
{
    let Some(outcome) = machine.outcome() else {
        unreachable!()
    };
    outcome
}

/// The moment of the last retirement less the delay then, in ticks.
fn net_end(outcome: Outcome) -> Tick
    requires { outcome.delay ≤ outcome.time }
    ensures { result ≡ outcome.time - outcome.delay }
{
    outcome.time - outcome.delay
}

/// The latency of a run that has ended.
fn latency_of_run(machine: &Machine, arrive: &[PointId], depart: &[PointId]) -> RunLatency
    requires { IsSome machine.now.state.ending }
    ensures { (ending : Ending) → machine.now.state.ending ≡ Some ending
        → result ≡ measured_in arrive.now depart.now
        (net (record_of (experiment_of machine.now) machine.now.state ending)) }
{
    let outcome = outcome_of(machine);
    let net = net_end(outcome);
    RunLatency {
        ending: outcome.ending,
        net,
        latency: measure(machine.visits(), arrive, depart, net),
    }
}

/// The latency of the run of a lead's line at a speedup: the machine is forked from the lead,
/// and run to its end.
pub fn latency_at<'a>(
    lead: &Lead<'a>,
    machine: &mut Machine<'a>,
    speedup: u8,
    arrive: &[PointId],
    depart: &[PointId],
) -> RunLatency
    requires small { speedup ≤ MAX_SPEEDUP }
    requires arguments { arguments machine.old ≡ arguments lead.now }
    ensures arguments { arguments machine.new ≡ arguments lead.now }
    ensures measured { result ≡ measured_in arrive.now depart.now
        (net (delayed_record (at_speedup speedup (experiment_of lead.now)))) }
{
    lead.fork(machine, speedup);
    machine.run();
    latency_of_run(machine, arrive, depart)
}
