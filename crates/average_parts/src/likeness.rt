//! Whether profiles can be averaged together.
ghost use Rattle.std.specs.Prelude.{◌≡◌, true, None, length, option_copied, All};
ghost use Rattle.average_parts.specs.Likeness.{is_full, is_full_part, first_full, seed_among, pairs_like, kind_of, unlike_part, IsLike, count_points, count_runs};

use crate::fault::UnlikeKind;
use crate::part::Part;
use crate::same::{machines_like, same_pairs, same_points};
use profile_book::Profile;

/// A profile that is unlike those before it.
#[derive(Clone, Copy)]
pub struct Unlike {
    /// In what it is unlike.
    pub kind: UnlikeKind,
    /// Its position.
    pub part: usize,
}

/// Whether a run of the profile has a speedup over 0.
pub fn is_full(profile: &Profile) -> bool
    ensures { result ≡ is_full profile.now }
{
    profile
        .summaries
        .as_slice()
        .iter()
        .any(|summary| summary.speedup != 0)
}

fn first_full(parts: &[Part]) -> Option<&Part>
    ensures { option_copied result ≡ first_full parts.now }
{
    parts.iter().find(|part| is_full(&part.profile))
}

fn seed_among(seed: u64, parts: &[Part]) -> bool
    ensures { result ≡ seed_among seed parts.now }
{
    parts.iter().any(|part| part.timing.seed == seed)
}

/// Whether a profile has the lines and speedups of this one, if it must.
fn pairs_like(full: Option<&Part>, part: &Part) -> bool
    ensures like { result ≡ pairs_like (option_copied full.entry) part.now }
    ensures as_many { result ≡ true → is_full_part part.now ≡ true
        → length part.now.profile.summaries ≡ count_runs (option_copied full.entry) }
{
    match full {
        Some(full) => {
            if is_full(&part.profile) || part.timing.seed == 0 {
                same_pairs(
                    part.profile.summaries.as_slice(),
                    full.profile.summaries.as_slice(),
                )
            } else {
                true
            }
        }
        None => !is_full(&part.profile),
    }
}

/// In what a profile is unlike the first one and those before it.
fn kind_of(first: &Part, full: Option<&Part>, before: &[Part], part: &Part) -> Option<UnlikeKind>
    ensures kind { result ≡ kind_of first.now (option_copied full.entry) before.now part.now }
    ensures like { result ≡ None
        → IsLike (length first.now.profile.points) (count_runs (option_copied full.entry)) part.now }
{
    if !machines_like(&first.timing, &part.timing) {
        return Some(UnlikeKind::Timing);
    }
    if seed_among(part.timing.seed, before) {
        return Some(UnlikeKind::Seed);
    }
    if part.profile.budget != first.profile.budget {
        return Some(UnlikeKind::Budget);
    }
    if !same_points(
        part.profile.points.as_slice(),
        first.profile.points.as_slice(),
    ) {
        return Some(UnlikeKind::Points);
    }
    if !pairs_like(full, part) {
        return Some(UnlikeKind::Pairs);
    }
    None
}

/// The first profile that is unlike those before it.
pub fn unlike_part(parts: &[Part]) -> Option<Unlike>
    ensures unlike { result ≡ unlike_part parts.now }
    ensures like { result ≡ None
        → All (IsLike (count_points parts.now) (count_runs (first_full parts.now))) parts.now }
{
    let full = first_full(parts);
    for i in 0..parts.len() {
        if let Some(kind) = kind_of(&parts[0], full, &parts[..i], &parts[i]) {
            return Some(Unlike { kind, part: i });
        }
    }
    None
}
