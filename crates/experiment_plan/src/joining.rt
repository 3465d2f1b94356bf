//! The lines of two lists together.
ghost use Rattle.std.specs.Prelude.{◌≡◌, ◌≤◌, ◌<◌, ℕ, ◌++◌, map, length, All, IfOk};
ghost use Rattle.coz_types.specs.declared.TheConstants.{MAX_POINTS};
ghost use Rattle.coz_types.specs.declared.LineId.{LineId};
ghost use Rattle.coz_types.specs.declared.PointId.{PointId};
ghost use Rattle.experiment_plan.specs.Selected.{ids, rising_numbers, places_among};

use crate::selection::rising_lines;
use coz_types::{LineId, PointId};
use std::alloc::{AllocError, Global};

/// The lines of two lists, as they rise and each once. Err: out of memory.
pub fn joined(alloc: Global, first: &[LineId], second: &[LineId]) -> Result<Vec<LineId>, AllocError>
    ensures lines { IfOk result (λ lines.
        ids lines.items ≡ rising_numbers (ids first.now ++ ids second.now)) }
    ensures below { (most : ℕ) → All (λ (line : LineId). line.0 < most) first.now
        → All (λ (line : LineId). line.0 < most) second.now
        → IfOk result (λ lines. All (λ (line : LineId). line.0 < most) lines.items) }
{
    let mut lines = Vec::from_slice(alloc, first)?;
    lines.extend_from_slice(second)?;
    rising_lines(&mut lines)?;
    Ok(lines)
}

/// The indices of the lines of a list among some lines, in rising order.
/// Err: out of memory.
pub fn places_among(
    alloc: Global,
    lines: &[LineId],
    list: &[LineId],
) -> Result<Vec<PointId>, AllocError>
    requires { length lines.now ≤ MAX_POINTS }
    ensures { IfOk result (λ places.
        map (λ (position : PointId). position.0) places.items
        ≡ places_among (ids lines.now) (ids list.now)) }
{
    let mut places = Vec::new(alloc);
    for (position, line) in lines.iter().enumerate() {
        if list.contains(line) {
            places.push(PointId(position as u16))?;
        }
    }
    Ok(places)
}
