//! How far values are from their mean.
ghost use Rattle.std.specs.Prelude.{◌≡◌, ◌<◌, ◌≤◌, ◌*◌, pos, All, length};
ghost use Rattle.std.specs.Int.RustNames.{unsigned_abs};
ghost use Rattle.average_values.specs.Values.{total, deviation, spread, IsSum, most_runs, most_sum, most_deviation};
ghost use Rattle.wide_numbers.specs.Wide.{number};

use crate::sums::total;
use wide_numbers::Wide;

fn distance(count: u64, sum: i128, value: i128) -> u128
    requires count { count ≤ most_runs }
    requires sum { unsigned_abs sum ≤ count * most_sum }
    requires value { IsSum value }
    ensures { result ≡ deviation count sum value }
{
    (count as i128 * value).abs_diff(sum)
}

/// How far a value is from the mean of this number of values with this sum, times their number.
fn deviation(count: u64, sum: i128, value: i128) -> u128
    requires count { count ≤ most_runs }
    requires sum { unsigned_abs sum ≤ count * most_sum }
    requires value { IsSum value }
    ensures deviation { result ≡ deviation count sum value }
    ensures small { result ≤ most_deviation count }
{
    distance(count, sum, value)
}

/// The sum of the squares of how far values are from their mean, each times their number.
pub fn spread(values: &[i128]) -> Wide
    requires few { length values.now ≤ most_runs }
    requires small { All IsSum values.now }
    ensures spread { number result ≡ spread values.now }
    ensures small { number result ≤ length values.now
        * (most_deviation (length values.now) * most_deviation (length values.now)) }
{
    let count = values.len() as u64;
    let sum = total(values);
    let mut squares = Wide::new(0);
    for value in values {
        let far = deviation(count, sum, *value);
        squares = squares.plus(Wide::new(far).times(far));
    }
    squares
}
