//! The summary of a run, and that of a run which differs from it in its line alone.
ghost use Rattle.std.specs.Prelude.{◌≡◌, ◌≤◌, All, IfOk, length, map};
ghost use Rattle.coz_types.specs.declared.TheConstants.{MAX_VISITS};
ghost use Rattle.coz_types.specs.declared.record.Visit.{Visit};
ghost use Rattle.machines.specs.KeptVisits.{net_of};
ghost use Rattle.run_summary.specs.Summaries.{is_undelayed, kept, relabelled};

use crate::counts::counts_of_visits;
use crate::digests::digest_of_visits;
use coz_types::{Digest, Items, Label, Outcome, Summary, Visit};
use std::alloc::{AllocError, Global};

/// The summary of a run with `points` points: its outcome, the length of its output and the given
/// digest of it, how often each point was visited, and the digest of its net visits.
pub fn summary_of_run(
    alloc: Global,
    label: &[u8],
    speedup: u8,
    outcome: Outcome,
    output: &[u8],
    digest: Digest,
    points: u32,
    visits: &[Visit],
) -> Result<Summary, AllocError>
    requires few { length visits.now ≤ MAX_VISITS }
    requires in_time { All (λ (visit : Visit). visit.delay ≤ visit.time) visits.now }
    ensures { IfOk result (λ summary. summary ≡ kept label.now speedup outcome
        (length output.now) digest points (map net_of visits.now)) }
{
    let selected = Label::copy(alloc, label)?;
    let counts = counts_of_visits(alloc, points, visits)?;
    Ok(Summary {
        selected,
        speedup,
        outcome,
        length: output.len() as u64,
        output: digest,
        counts: Items::new(counts),
        visits: digest_of_visits(visits),
    })
}

/// Whether a run at this speedup, whose line starts so often, delays nothing.
pub fn is_undelayed(speedup: u8, starts: u64) -> bool
    ensures { result ≡ is_undelayed speedup starts }
{
    speedup == 0 || starts == 0
}

/// A summary with another label, speedup and number of starts.
pub fn relabelled(
    alloc: Global,
    summary: &Summary,
    label: &[u8],
    speedup: u8,
    starts: u64,
) -> Result<Summary, AllocError>
    ensures { IfOk result (λ new. new ≡ relabelled label.now speedup starts summary.now) }
{
    let label = Label::copy(alloc, label)?;
    let counts = Vec::from_slice(alloc, summary.counts.as_slice())?;
    Ok(Summary {
        selected: label,
        speedup,
        outcome: Outcome {
            starts,
            ..summary.outcome
        },
        length: summary.length,
        output: summary.output,
        counts: Items::new(counts),
        visits: summary.visits,
    })
}
