//! The profiles of seeds, those that add to the base alone, and that of the exact schedule.
ghost use Rattle.std.specs.Prelude.{◌≡◌, ◌≤◌, ◌++◌, length, All, IfOk};
ghost use Rattle.average_values.specs.Values.{most_runs};
ghost use Rattle.average_curves.specs.Curves.{IsAveraged};
ghost use Rattle.average_parts.specs.Verdict.{IsRightPart};
ghost use Rattle.average_parts.specs.Likeness.{IsLike, count_points, count_runs, first_full, are_several, is_exact, seeds_of, bases_of, exact_of, averaged_of};

use crate::likeness::is_full;
use crate::part::Part;
use average_curves::Averaged;
use coz_types::Items;
use profile_book::Profile;
use std::alloc::{AllocError, Global};

/// Profiles by what they are for.
#[derive(Drop)]
struct Chosen {
    /// Those of seeds.
    seeds: Vec<Profile>,
    /// Those that add to the base alone.
    bases: Vec<Profile>,
    /// That of the exact schedule.
    exact: Option<Profile>,
}

fn is_exact(several: bool, part: &Part) -> bool
    ensures { result ≡ is_exact several part.now }
{
    several && part.timing.seed == 0
}

fn choose(alloc: Global, parts: Vec<Part>) -> Result<Chosen, AllocError>
    ensures seeds { IfOk result (λ chosen.
        chosen.seeds.items ≡ seeds_of (are_several parts.items) parts.items) }
    ensures bases { IfOk result (λ chosen.
        chosen.bases.items ≡ bases_of (are_several parts.items) parts.items) }
    ensures exact { IfOk result (λ chosen.
        chosen.exact ≡ exact_of (are_several parts.items) parts.items) }
{
    let several = parts.len() > 1;
    let mut seeds = Vec::new(alloc);
    let mut bases = Vec::new(alloc);
    let mut exact = None;
    for part in parts {
        let has_exact_schedule = is_exact(several, &part);
        let has_speedups = is_full(&part.profile);
        let Part { timing: _, profile } = part;
        if has_exact_schedule {
            exact = Some(profile);
        } else if has_speedups {
            seeds.push(profile)?;
        } else {
            bases.push(profile)?;
        }
    }
    Ok(Chosen {
        seeds,
        bases,
        exact,
    })
}

fn both(mut first: Vec<Profile>, others: Vec<Profile>) -> Result<Vec<Profile>, AllocError>
    ensures { IfOk result (λ all. all.items ≡ first.items ++ others.items) }
{
    for profile in others {
        first.push(profile)?;
    }
    Ok(first)
}

/// What is averaged of these profiles.
pub fn averaged_of(alloc: Global, parts: Vec<Part>) -> Result<Averaged, AllocError>
    requires few { length parts.items ≤ most_runs }
    requires right { All IsRightPart parts.items }
    requires like { All (IsLike (count_points parts.items) (count_runs (first_full parts.items)))
        parts.items }
    ensures averaged { IfOk result (λ averaged. averaged ≡ averaged_of parts.items) }
    ensures sound { IfOk result IsAveraged }
{
    let Chosen {
        seeds,
        bases,
        exact,
    } = choose(alloc, parts)?;
    let count = seeds.len();
    let profiles = both(seeds, bases)?;
    Ok(Averaged {
        profiles: Items::new(profiles),
        seeds: count,
        exact,
    })
}
