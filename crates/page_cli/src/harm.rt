//! The lines that hurt.
ghost use Rattle.std.specs.Prelude.{◌≡◌, IfOk};
ghost use Rattle.std.specs.List.{filter};
ghost use Rattle.page_cli.specs.Harm.{hurts, harmful_curves};

use causal_curves::Curve;
use coz_types::{Items, Label};
use page_values::{is_folded, worst_of};
use std::alloc::{AllocError, Global};

fn hurts(curve: &Curve) -> bool
    ensures { result ≡ hurts curve.now }
{
    match worst_of(curve.steps.as_slice()) {
        Some(worst) => worst < 0,
        None => false,
    }
}

fn copy(alloc: Global, curve: &Curve) -> Result<Curve, AllocError>
    ensures { IfOk result (λ copy. copy ≡ curve.now) }
{
    let selected = Label::copy(alloc, curve.selected.bytes())?;
    let steps = Vec::from_slice(alloc, curve.steps.as_slice())?;
    Ok(Curve {
        point: curve.point,
        selected,
        gain: curve.gain,
        steps: Items::new(steps),
    })
}

/// Copies of the curves whose least value is below 0.
fn copies(alloc: Global, curves: &[Curve]) -> Result<Vec<Curve>, AllocError>
    ensures { IfOk result (λ copies. copies.items ≡ filter hurts curves.now) }
{
    let mut copies = Vec::new(alloc);
    for curve in curves {
        if hurts(curve) {
            copies.push(copy(alloc, curve)?)?;
        }
    }
    Ok(copies)
}

/// Copies of the curves whose least value is below 0, by point, the folded ones last, and the least
/// value first. Fails only if out of memory.
pub fn harmful(alloc: Global, curves: &[Curve]) -> Result<Items<Curve>, AllocError>
    ensures { IfOk result (λ harmful. harmful ≡ harmful_curves curves.now) }
{
    let mut copies = copies(alloc, curves)?;
    copies.sort_by_cached_key(|curve| {
        let worst = worst_of(curve.steps.as_slice());
        (curve.point, is_folded(curve), worst)
    })?;
    Ok(Items::new(copies))
}
