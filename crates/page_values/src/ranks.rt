//! The order of lines in a table, and which of them it shows.
ghost use Rattle.std.specs.Prelude.{◌≡◌, ◌+◌, ◌<◌, ◌≤◌, cond, length, take, IfOk};
ghost use Rattle.causal_curves.specs.Curves.{greater};
ghost use Rattle.page_values.specs.Ranks.{by_mean, folded, greatest_gain, is_folded, is_small, listed, standing, stands};

use crate::harm::worst_of;
use crate::shapes::mean_of;
use crate::table_lines::shown;
use causal_curves::Curve;
use coz_types::Items;
use std::alloc::AllocError;
use std::cmp::Reverse;

/// The size of a value, in hundredths of a per cent, that is not small.
const MIN_SIZE: u128 = 20;

fn is_small(value: Option<i128>) -> bool
    ensures { result ≡ is_small value }
{
    match value {
        Some(value) => value.unsigned_abs() < MIN_SIZE,
        None => true,
    }
}

/// Whether each value of the curve at a speedup over 0 is absent, or less than 0.2 per cent in size.
pub fn is_folded(curve: &Curve) -> bool
    ensures { result ≡ is_folded curve.now }
{
    is_small(curve.gain) && is_small(worst_of(curve.steps.as_slice()))
}

/// The count, with one more if the curve is not folded.
fn counted(count: u64, curve: &Curve) -> u64
    requires { count < 18446744073709551615 }
    ensures { result ≡ count + cond (stands curve.now) 1 0 }
{
    if is_folded(curve) { count } else { count + 1 }
}

/// The number of curves that are not folded.
pub fn standing(curves: &[Curve]) -> u64
    ensures count { result ≡ standing curves.now }
    ensures within { result ≤ length curves.now }
{
    let mut count = 0;
    for curve in curves {
        count = counted(count, curve);
    }
    count
}

/// The first of the curves: at most this many, and none of those that are folded if these are the
/// last.
pub fn listed(curves: &[Curve], most: u64) -> &[Curve]
    ensures { result.now ≡ listed most curves.now }
{
    &curves[..most.min(standing(curves)) as usize]
}

/// The folded curves, if they are the last: as many as there is room for behind the others in a
/// table of this many lines.
pub fn folded(curves: &[Curve], most: u64) -> &[Curve]
    ensures { result.now ≡ folded most curves.now }
{
    let stands = standing(curves);
    shown(&curves[stands as usize..], most.saturating_sub(stands))
}

/// The curves by point, the folded ones last, then by the mean of their values, the greatest first;
/// those that tie keep their order. Fails only if out of memory.
pub fn by_mean(curves: Items<Curve>) -> Result<Items<Curve>, AllocError>
    ensures { IfOk result (λ ranked. ranked ≡ by_mean curves) }
{
    let mut curves = curves.into_vec();
    curves.sort_by_cached_key(|curve| {
        let mean = mean_of(curve.steps.as_slice());
        (curve.point, is_folded(curve), Reverse(mean))
    })?;
    Ok(Items::new(curves))
}

fn greater(a: Option<i128>, b: Option<i128>) -> Option<i128>
    ensures { result ≡ greater a b }
{
    if a.cmp(&b).is_lt() { b } else { a }
}

/// The greatest gain of the curves, in hundredths of a per cent. None if all are absent.
pub fn greatest_gain(curves: &[Curve]) -> Option<i128>
    ensures { result ≡ greatest_gain curves.now }
{
    let mut gain = None;
    for i in (0..curves.len()).rev() {
        gain = greater(gain, curves[i].gain);
    }
    gain
}
