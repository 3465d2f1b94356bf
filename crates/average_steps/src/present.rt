//! Values that may be absent.
ghost use Rattle.std.specs.Prelude.{◌≡◌, ◌≤◌, All, length, map, option_map, IfOk, IfSome, is_some};
ghost use Rattle.std.specs.List.{list_all};
ghost use Rattle.std.specs.Global.{Vec};
ghost use Rattle.average_values.specs.Values.{IsValue, IsSum};
ghost use Rattle.average_steps.specs.Steps.{or_zero, present, items_of};

use std::alloc::{AllocError, Global};

fn all_present(values: &[Option<i128>]) -> bool
    ensures { result ≡ list_all is_some values.now }
{
    values.iter().all(|value| value.is_some())
}

fn or_zero(value: Option<i128>) -> i128
    ensures { result ≡ or_zero value }
{
    match value {
        Some(value) => value,
        None => 0,
    }
}

fn or_zeros(alloc: Global, values: &[Option<i128>]) -> Result<Vec<i128>, AllocError>
    ensures { IfOk result (λ found. found.items ≡ map or_zero values.now) }
{
    let mut found = Vec::with_capacity(alloc, values.len())?;
    for value in values {
        found.push(or_zero(*value))?;
    }
    Ok(found)
}

/// The values, if all are present.
pub fn present(alloc: Global, values: &[Option<i128>]) -> Result<Option<Vec<i128>>, AllocError>
    ensures present { IfOk result (λ found. option_map items_of found ≡ present values.now) }
    ensures count { IfOk result (λ found. IfSome found (λ vs.
        length vs.items ≡ length values.now)) }
    ensures values { All (λ v. IfSome v IsValue) values.now → IfOk result (λ found.
        IfSome found (λ vs. All IsValue vs.items)) }
    ensures sums { All (λ v. IfSome v IsSum) values.now → IfOk result (λ found.
        IfSome found (λ vs. All IsSum vs.items)) }
{
    if !all_present(values) {
        return Ok(None);
    }
    Ok(Some(or_zeros(alloc, values)?))
}
