//! The first lines of a table.
ghost use Rattle.std.specs.Prelude.{◌≡◌, take};

use causal_curves::Curve;

/// The first of the curves, at most this many.
pub(crate) fn shown(curves: &[Curve], most: u64) -> &[Curve]
    ensures { result.now ≡ take most curves.now }
{
    &curves[..most.min(curves.len() as u64) as usize]
}
