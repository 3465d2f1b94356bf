//! The value of a run against a base.
ghost use Rattle.std.specs.Prelude.{◌≡◌, ◌*◌, ◌≤◌, pos, ◌-ℤ◌, ◌*ℤ◌, ◌<ℤ◌, ◌≤ℤ◌, IfSome};
ghost use Rattle.std.specs.Int.{int_div_euclid};
ghost use Rattle.std.specs.Int.RustNames.{unsigned_abs};
ghost use Rattle.average_values.specs.Values.{value, IsPace, IsBase, IsValue, most_product, most_value};

/// Net time and visits of a progress point: of one run, or summed over the runs of a base.
#[derive(Clone, Copy, Debug, PartialEq, Eq)]
pub struct Pace {
    /// The net time in ticks.
    pub net: u128,
    /// How often the point was visited.
    pub visits: u128,
}

fn product(net: u128, visits: u128) -> i128
    requires { net * visits ≤ most_product }
    ensures { result ≡ pos (net * visits) }
{
    (net * visits) as i128
}

// In ten thousandths, rounded down.
fn share(whole: i128, part: i128) -> i128
    requires some { pos 0 <ℤ whole }
    requires whole { whole ≤ℤ pos most_product }
    requires part { part ≤ℤ pos most_product }
    requires least { pos 0 ≤ℤ part }
    ensures share { result ≡ int_div_euclid ((whole -ℤ part) *ℤ pos 10000) whole }
    ensures small { IsValue result }
{
    ((whole - part) * 10_000).div_euclid(whole)
}

/// The net time that a visit takes less than in the base, in hundredths of a per cent, rounded
/// down. None if either has no visit, or the base has no net time.
pub fn value(base: Pace, run: Pace) -> Option<i128>
    requires base { IsBase base }
    requires run { IsPace run }
    ensures value { result ≡ value base run }
    ensures small { IfSome result IsValue }
{
    if base.visits == 0 || (run.visits == 0 || base.net == 0) {
        return None;
    }
    let whole = product(base.net, run.visits);
    let part = product(run.net, base.visits);
    Some(share(whole, part))
}
