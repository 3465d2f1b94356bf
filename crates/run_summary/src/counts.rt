//! How often each progress point was visited.
ghost use Rattle.std.specs.Prelude.{◌≡◌, ◌≤◌, length, map, IfOk};
ghost use Rattle.coz_types.specs.declared.TheConstants.{MAX_VISITS};
ghost use Rattle.machines.specs.KeptVisits.{net_of};
ghost use Rattle.run_summary.specs.Kept.{counts_of};

use coz_types::Visit;
use std::alloc::{AllocError, Global};

/// The number of visits of each of `points` points.
pub fn counts_of_visits(
    alloc: Global,
    points: u32,
    visits: &[Visit],
) -> Result<Vec<u64>, AllocError>
    requires few { length visits.now ≤ MAX_VISITS }
    ensures { IfOk result (λ counts. counts.items ≡ counts_of points (map net_of visits.now)) }
{
    let mut counts = vec![in alloc; 0u64; points as usize]?;
    for visit in visits {
        let point = usize::from(visit.point.0);
        if point < counts.len() {
            counts[point] += 1;
        }
    }
    Ok(counts)
}
