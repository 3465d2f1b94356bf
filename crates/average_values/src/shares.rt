//! The cost of a line, and whether two values differ.
ghost use Rattle.std.specs.Prelude.{◌≡◌, ◌<◌, ◌≤◌, ◌*◌, ◌^◌, IfSome};
ghost use Rattle.std.specs.Int.RustNames.{unsigned_abs};
ghost use Rattle.average_values.specs.Values.{cost, differ, IsBase, IsSum, most_runs};
ghost use Rattle.coz_types.specs.declared.TheConstants.{MAX_NUMBER, MAX_SPEEDUP};

use crate::pace::Pace;

/// What a line costs, in hundredths of a per cent of the net time of the base, rounded down: the
/// delay of runs at one speedup over that speedup. None if the base has no net time.
pub fn cost(base: Pace, bases: u64, delay: u128, runs: u64, speedup: u8) -> Option<u128>
    requires base { IsBase base }
    requires bases { bases ≤ most_runs }
    requires delay { delay ≤ most_runs * MAX_NUMBER }
    requires some { 0 < runs }
    requires runs { runs ≤ most_runs }
    requires faster { 0 < speedup }
    ensures { result ≡ cost base bases delay runs speedup }
{
    if base.net == 0 {
        return None;
    }
    let whole = base.net * (runs as u128 * speedup as u128);
    Some(delay * 1_000_000 * bases as u128 / whole)
}

/// Whether two values differ by more than 200, and by more than three errors.
pub fn differ(exact: i128, value: i128, error: Option<u128>) -> bool
    requires exact { IsSum exact }
    requires value { IsSum value }
    requires error { IfSome error (λ e. e < 2 ^ 126) }
    ensures { result ≡ differ exact value error }
{
    let apart = exact.abs_diff(value);
    match error {
        Some(error) => apart > 200 && apart > 3 * error,
        None => apart > 200,
    }
}
