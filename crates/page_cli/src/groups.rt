//! The curves of one progress point.
ghost use Rattle.std.specs.Prelude.{◌≡◌, ◌<◌, ◌≤◌, ◌==◌, ◌∷◌, length, take, drop};
ghost use Rattle.page_cli.specs.Page.{by_point};

use causal_curves::Curve;

fn have_one_point(a: &Curve, b: &Curve) -> bool
    ensures { result ≡ (a.now.point == b.now.point) }
{
    a.point == b.point
}

/// The number of curves, from the first on, that are of the first one's point.
pub fn group_length(curves: &[Curve]) -> usize
    requires { 0 < length curves.now }
    ensures some { 0 < result }
    ensures within { result ≤ length curves.now }
    ensures group { by_point curves.now
        ≡ take result curves.now ∷ by_point (drop result curves.now) }
{
    for i in 1..curves.len() {
        if !have_one_point(&curves[i - 1], &curves[i]) {
            return i;
        }
    }
    curves.len()
}
