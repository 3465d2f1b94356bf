//! What a profile keeps of a run.
ghost use Rattle.std.specs.Prelude.{◌≡◌, ◌≤◌, true, length, IfOk, IsSome, Some};
ghost use Rattle.coz_types.specs.declared.TheConstants.{MAX_SPEEDUP};
ghost use Rattle.coz_types.specs.declared.ending.Ending.{Ending};
ghost use Rattle.coz_types.specs.Labels.{is_label};
ghost use Rattle.coz_types.specs.Ranges.{IsSummary};
ghost use Rattle.machines.specs.Records.{record_of};
ghost use Rattle.run_engine.specs.Seen.{experiment_of};
ghost use Rattle.profile_pool.specs.Summaries.{summary_of};

use crate::known::{KnownOutput, digest_of_output};
use crate::outcomes::ended;
use coz_types::{Label, Summary};
use progress_points::Points;
use run_summary::summary_of_run;
use std::alloc::{AllocError, Global};
use virtual_run::Machine;

/// The summary of a run that has ended, of a machine that was made with these points:
/// its outcome, its output and visits as digests, and how often each point was visited. `known` is
/// what an earlier run wrote; its digest is taken if this run wrote the same.
pub fn summarise(
    alloc: Global,
    machine: &Machine,
    label: &Label,
    speedup: u8,
    points: &Points,
    known: &mut KnownOutput,
) -> Result<Summary, AllocError>
    requires points { machine.now.points ≡ points.now }
    requires ended { IsSome machine.now.state.ending }
    ensures summary { (ending : Ending) → machine.now.state.ending ≡ Some ending
        → IfOk result (λ summary. summary ≡
        summary_of label.now speedup (length points.now.lines)
        (record_of (experiment_of machine.now) machine.now.state ending)) }
    ensures ranges { is_label label.now ≡ true → speedup ≤ MAX_SPEEDUP
        → IfOk result (IsSummary (length points.now.lines)) }
{
    let visits = machine.visits();
    let output = machine.output();
    let digest = digest_of_output(alloc, known, output)?;
    let outcome = ended(machine.outcome());
    let points = points.count();
    summary_of_run(
        alloc,
        label.bytes(),
        speedup,
        outcome,
        output,
        digest,
        points,
        visits,
    )
}
