//! The mean of values.
ghost use Rattle.std.specs.Prelude.{◌≡◌, ◌<◌, ◌≤◌, ◌*◌, All, length};
ghost use Rattle.std.specs.Int.RustNames.{unsigned_abs};
ghost use Rattle.average_values.specs.Values.{total, mean, IsSum, IsValue, most_runs, most_sum, most_value};

/// The sum of values.
pub fn total(values: &[i128]) -> i128
    requires few { length values.now ≤ most_runs }
    requires small { All IsSum values.now }
    ensures total { result ≡ total values.now }
    ensures small { unsigned_abs result ≤ length values.now * most_sum }
    ensures of_values { All IsValue values.now
        → unsigned_abs result ≤ length values.now * most_value }
{
    let mut sum: i128 = 0;
    for value in values {
        sum += *value;
    }
    sum
}

/// The mean of values, rounded down.
pub fn mean(values: &[i128]) -> i128
    requires some { 0 < length values.now }
    requires few { length values.now ≤ most_runs }
    requires small { All IsValue values.now }
    ensures mean { result ≡ mean values.now }
    ensures small { IsValue result }
{
    total(values).div_euclid(values.len() as i128)
}
