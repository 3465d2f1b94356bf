//! The root of the quotient of two numbers.
ghost use Rattle.std.specs.Prelude.{◌≡◌, ◌*◌, ◌/◌, ◌^◌, ◌<◌, ◌≤◌, nat_le};
ghost use Rattle.wide_numbers.specs.Root.{root};
ghost use Rattle.wide_numbers.specs.Wide.{number};

use crate::wide::Wide;

/// Roots are below 2^126.
const ROOTS: u128 = 1 << 126;

/// Whether the square of a number, times the divisor, is at most the dividend.
fn is_in(candidate: u128, dividend: Wide, divisor: u128) -> bool
    requires small { candidate < 2 ^ 127 }
    requires divisor { divisor < 2 ^ 128 }
    ensures { result ≡ nat_le (candidate * candidate * divisor) (number dividend) }
{
    Wide::new(candidate)
        .times(candidate)
        .times(divisor)
        .is_at_most(dividend)
}

/// The floor of the root of the quotient, which is below 2^126.
pub fn root_of_quotient(dividend: Wide, divisor: u128) -> u128
    requires some { 0 < divisor }
    requires small { number dividend < 2 ^ 252 * divisor }
    ensures root { result ≡ root (number dividend / divisor) }
    ensures small { result < 2 ^ 126 }
{
    let mut low: u128 = 0;
    let mut high: u128 = ROOTS;
    while low + 1 < high {
        let middle = (low + high) / 2;
        if is_in(middle, dividend, divisor) {
            low = middle;
        } else {
            high = middle;
        }
    }
    low
}
