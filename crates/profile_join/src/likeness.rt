//! What the parts of one profile have in common.
ghost use Rattle.std.specs.Prelude.{◌≡◌, ◌<◌, true, false, length, option_copied, All};
ghost use Rattle.std.specs.List.{find};
ghost use Rattle.profile_join.specs.Parts.{speedups_in, first_group, blocks_of, is_baseline, unlabelled, CameAs, AreTimes, AllCameAs, IsKind, IsUnlike, head_of, Head};

use crate::fault::{PartFault, PartKind};
use coz_types::{Label, Summary};
use profile_book::Profile;
use profile_labels::group_length;

/// Returns whether two lists of blocks have the same speedups.
fn same_speedups(a: &[Summary], b: &[Summary]) -> bool
    ensures same { result ≡ true → speedups_in a.now ≡ speedups_in b.now }
    ensures other { result ≡ false → speedups_in a.now ≡ speedups_in b.now → ⊥ }
{
    if a.len() != b.len() {
        return false;
    }
    for i in 0..a.len() {
        if a[i].speedup != b[i].speedup {
            return false;
        }
    }
    true
}

/// Returns whether two lists of labels are equal.
fn same_labels(a: &[Label], b: &[Label]) -> bool
    ensures same { result ≡ true → a.now ≡ b.now }
    ensures other { result ≡ false → a.now ≡ b.now → ⊥ }
{
    if a.len() != b.len() {
        return false;
    }
    for i in 0..a.len() {
        if a[i].bytes() != b[i].bytes() {
            return false;
        }
    }
    true
}

/// Returns whether two blocks differ in nothing but their labels and their starts.
fn same_run(a: &Summary, b: &Summary) -> bool
    ensures same { result ≡ true → unlabelled a.now ≡ unlabelled b.now }
    ensures other { result ≡ false → unlabelled a.now ≡ unlabelled b.now → ⊥ }
{
    a.speedup == b.speedup
        && a.outcome.ending == b.outcome.ending
        && a.outcome.time == b.outcome.time
        && a.outcome.delay == b.outcome.delay
        && a.outcome.retired == b.outcome.retired
        && a.length == b.length
        && a.output == b.output
        && a.counts.as_slice() == b.counts.as_slice()
        && a.visits == b.visits
}

/// Returns whether the blocks of each label have the speedups of these.
fn have_speedups(speedups: &[Summary], summaries: &[Summary]) -> bool
    ensures same { result ≡ true → AreTimes (speedups_in speedups.now) summaries.now }
    ensures other { result ≡ false → AreTimes (speedups_in speedups.now) summaries.now → ⊥ }
{
    let mut rest = summaries;
    while !rest.is_empty() {
        let (group, behind) = rest.split_at(group_length(rest));
        if !same_speedups(group, speedups) {
            return false;
        }
        rest = behind;
    }
    true
}

/// Returns whether each block at speedup 0 equals the first one of all but for its label and
/// its starts.
fn baselines_agree(first: Option<&Summary>, summaries: &[Summary]) -> bool
    ensures same { result ≡ true → AllCameAs (option_copied first.entry) summaries.now }
    ensures other { result ≡ false → AllCameAs (option_copied first.entry) summaries.now → ⊥ }
{
    let Some(first) = first else {
        return true;
    };
    for i in 0..summaries.len() {
        if summaries[i].speedup == 0 && !same_run(&summaries[i], first) {
            return false;
        }
    }
    true
}

/// Returns in what a part first differs from this budget, these points, the speedups of this
/// group and the first block at speedup 0.
fn kind_of(
    budget: u64,
    points: &[Label],
    group: &[Summary],
    first: Option<&Summary>,
    part: &Profile,
) -> Option<PartKind>
    ensures { IsKind (record {
      budget = budget;
      points = points.now;
      speedups = speedups_in group.now;
      first = option_copied first.entry;
    }) part.now result }
{
    if part.budget != budget {
        return Some(PartKind::Budget);
    }
    if !same_labels(part.points.as_slice(), points) {
        return Some(PartKind::Points);
    }
    if !have_speedups(group, part.summaries.as_slice()) {
        return Some(PartKind::Speedups);
    }
    if !baselines_agree(first, part.summaries.as_slice()) {
        return Some(PartKind::Baseline);
    }
    None
}

/// Returns the blocks of the first label of the first part that has one.
fn first_group(parts: &[Profile]) -> &[Summary]
    ensures { result.now ≡ first_group parts.now }
{
    for part in parts {
        let summaries = part.summaries.as_slice();
        if !summaries.is_empty() {
            return &summaries[..group_length(summaries)];
        }
    }
    &[]
}

/// Returns the first of the blocks that is at speedup 0.
fn baseline_in(summaries: &[Summary]) -> Option<&Summary>
    ensures { option_copied result ≡ find is_baseline summaries.now }
{
    summaries.iter().find(|summary| summary.speedup == 0)
}

/// Returns the first block at speedup 0 of all parts.
fn first_baseline(parts: &[Profile]) -> Option<&Summary>
    ensures { option_copied result ≡ find is_baseline (blocks_of parts.now) }
{
    for part in parts {
        let found = baseline_in(part.summaries.as_slice());
        if found.is_some() {
            return found;
        }
    }
    None
}

/// Returns the first part that is unlike the parts before it, and in what.
pub fn unlike(parts: &[Profile]) -> Option<PartFault>
    requires some { 0 < length parts.now }
    ensures { IsUnlike (head_of parts.now) parts.now result }
{
    let group = first_group(parts);
    let first = first_baseline(parts);
    for i in 0..parts.len() {
        if let Some(kind) = kind_of(
            parts[0].budget,
            parts[0].points.as_slice(),
            group,
            first,
            &parts[i],
        ) {
            return Some(PartFault { kind, part: i });
        }
    }
    None
}
