//! The standard error of a mean.
ghost use Rattle.std.specs.Prelude.{◌≡◌, ◌<◌, ◌≤◌, ◌*◌, ◌^◌, All, length};
ghost use Rattle.average_values.specs.Values.{scale, IsSum, Spread, IsBounded, variance, error_from, most_runs, most_parts};
ghost use Rattle.wide_numbers.specs.Wide.{number};

use crate::spread::spread;
use std::marker::Model;
use wide_numbers::{Wide, root_of_quotient};

/// The variance of a mean: squares over scale.
#[derive(Drop)]
pub struct Variance {
    squares: Wide,
    scale: u128,
}

impl Model for Variance {
    ghost Value = { Spread };

    ghost view = { λ v. record { squares = number v.squares; scale = v.scale } };

    ghost invariant = { λ v. IsBounded (record { squares = number v.squares; scale = v.scale }) };
}

/// What the variance of a mean of sums of this many parts is over, if it is of this many values.
fn scale(parts: u128, count: u128) -> u128
    requires parts { parts ≤ most_parts }
    requires some { 2 ≤ count }
    requires count { count ≤ most_runs }
    ensures { result ≡ scale parts count }
{
    let cube = count * count * count;
    parts * parts * cube * (count - 1)
}

/// The variance of the mean of these values, each a sum of `parts` parts. None for fewer than two.
pub fn variance_of(parts: u64, values: &[i128]) -> Option<Variance>
    requires some { 0 < parts }
    requires parts { parts ≤ most_parts }
    requires few { length values.now ≤ most_runs }
    requires small { All IsSum values.now }
    ensures { result ≡ variance parts values.now }
{
    if values.len() < 2 {
        return None;
    }
    Some(Variance {
        squares: spread(values),
        scale: scale(parts as u128, values.len() as u128),
    })
}

/// The root of the sum of two variances, rounded down.
pub fn error_of(variance: &Variance, base: &Variance) -> u128
    ensures error { result ≡ error_from variance.now base.now }
    ensures small { result < 2 ^ 126 }
{
    let mine = variance.squares.times(base.scale);
    let others = base.squares.times(variance.scale);
    root_of_quotient(mine.plus(others), variance.scale * base.scale)
}
