//! What a visit takes, against the run without a speedup.
ghost use Rattle.std.specs.Prelude.{◌≡◌, ◌*◌, ◌≤◌, pos, ◌-ℤ◌, ◌*ℤ◌, ◌<ℤ◌, ◌≤ℤ◌};
ghost use Rattle.std.specs.Int.{int_div_euclid};
ghost use Rattle.coz_types.specs.declared.TheConstants.{MAX_NUMBER, MAX_COUNT};
ghost use Rattle.causal_curves.specs.Curves.{net, visits, value_over};
ghost use Rattle.causal_curves.specs.Measured.{IsMeasured, most_product};

use coz_types::Summary;

fn net(summary: &Summary) -> u64
    requires { summary.now.outcome.delay ≤ summary.now.outcome.time }
    ensures { result ≡ net summary.now }
{
    summary.outcome.time - summary.outcome.delay
}

fn visits(summary: &Summary, point: usize) -> u64
    requires { IsMeasured point summary.now }
    ensures count { result ≡ visits point summary.now }
    ensures within { result ≤ MAX_COUNT }
{
    summary.counts.as_slice()[point]
}

fn product(net: u64, visits: u64) -> i128
    requires net { net ≤ MAX_NUMBER }
    requires visits { visits ≤ MAX_COUNT }
    ensures { result ≡ pos (net * visits) }
{
    net as i128 * visits as i128
}

// In ten thousandths, rounded down.
fn share(whole: i128, part: i128) -> i128
    requires some { pos 0 <ℤ whole }
    requires whole { whole ≤ℤ pos most_product }
    requires part { part ≤ℤ pos most_product }
    requires least { pos 0 ≤ℤ part }
    ensures { result ≡ int_div_euclid ((whole -ℤ part) *ℤ pos 10000) whole }
{
    ((whole - part) * 10_000).div_euclid(whole)
}

/// The net time that a visit takes less than in the base, in hundredths of a per cent, rounded
/// down. None if either has no visit of the point, or the base has no net time.
pub fn value_over(point: usize, base: &Summary, summary: &Summary) -> Option<i128>
    requires base { IsMeasured point base.now }
    requires summary { IsMeasured point summary.now }
    ensures { result ≡ value_over point base.now summary.now }
{
    let first = visits(base, point);
    let count = visits(summary, point);
    let time = net(base);
    if first == 0 || (count == 0 || time == 0) {
        return None;
    }
    Some(share(product(time, count), product(net(summary), first)))
}
