//! Whether two machines, two lists of labels or two lists of runs are the same.
ghost use Rattle.std.specs.Prelude.{◌≡◌, true, length};
ghost use Rattle.average_parts.specs.Likeness.{are_like, charge_like, machines_like, same_points, same_pairs, same_pair};

use coz_types::{Label, Summary};
use timing_model::{Charge, Costs, Timing};

fn are_like(a: &Costs, b: &Costs) -> bool
    ensures { result ≡ are_like a.now b.now }
{
    let cheap = a.integer == b.integer && a.jump == b.jump && a.load == b.load;
    cheap
        && a.multiply == b.multiply
        && a.atomic == b.atomic
        && a.divide == b.divide
        && a.ecall == b.ecall
}

fn charge_like(a: Charge, b: Charge) -> bool
    ensures { result ≡ charge_like a b }
{
    match (a, b) {
        (Charge::Nobody, Charge::Nobody) => true,
        (Charge::Last, Charge::Last) => true,
        _ => false,
    }
}

/// Whether two machines are the same but for their seeds.
pub fn machines_like(a: &Timing, b: &Timing) -> bool
    ensures { result ≡ machines_like a.now b.now }
{
    a.cores == b.cores
        && a.slice == b.slice
        && are_like(&a.costs, &b.costs)
        && charge_like(a.charge, b.charge)
}

/// Whether two lists have the same labels.
pub fn same_points(a: &[Label], b: &[Label]) -> bool
    ensures same { result ≡ same_points a.now b.now }
    ensures as_many { result ≡ true → length a.now ≡ length b.now }
{
    if a.len() != b.len() {
        return false;
    }
    for i in 0..a.len() {
        if a[i].bytes() != b[i].bytes() {
            return false;
        }
    }
    true
}

/// Whether two runs are of the same line and speedup.
fn same_pair(a: &Summary, b: &Summary) -> bool
    ensures { result ≡ same_pair a.now b.now }
{
    a.selected.bytes() == b.selected.bytes() && a.speedup == b.speedup
}

/// Whether two lists of runs are of the same lines and speedups.
pub fn same_pairs(a: &[Summary], b: &[Summary]) -> bool
    ensures same { result ≡ same_pairs a.now b.now }
    ensures as_many { result ≡ true → length a.now ≡ length b.now }
{
    if a.len() != b.len() {
        return false;
    }
    for i in 0..a.len() {
        if !same_pair(&a[i], &b[i]) {
            return false;
        }
    }
    true
}
