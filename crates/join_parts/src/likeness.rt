//! Whether parts are of one machine.
ghost use Rattle.std.specs.Prelude.{◌≡◌};
ghost use Rattle.join_parts.specs.Machines.{are_like, charge_like, is_like, unlike_part};

use crate::part::Part;
use timing_model::{Charge, Costs, Timing};

fn are_like(a: &Costs, b: &Costs) -> bool
    ensures { result ≡ are_like a.now b.now }
{
    let cheap = a.integer == b.integer && a.jump == b.jump && a.load == b.load;
    cheap
        && a.multiply == b.multiply
        && a.atomic == b.atomic
        && a.divide == b.divide
        && a.ecall == b.ecall
}

fn charge_like(a: Charge, b: Charge) -> bool
    ensures { result ≡ charge_like a b }
{
    match (a, b) {
        (Charge::Nobody, Charge::Nobody) => true,
        (Charge::Last, Charge::Last) => true,
        _ => false,
    }
}

/// Whether two machines are the same.
fn is_like(a: &Timing, b: &Timing) -> bool
    ensures { result ≡ is_like a.now b.now }
{
    a.cores == b.cores
        && a.slice == b.slice
        && are_like(&a.costs, &b.costs)
        && charge_like(a.charge, b.charge)
        && a.seed == b.seed
}

/// Returns the place of the first part that is of another machine than the first one.
pub fn unlike_part(parts: &[Part]) -> Option<usize>
    ensures { result ≡ unlike_part parts.now }
{
    for i in 0..parts.len() {
        if !is_like(&parts[0].timing, &parts[i].timing) {
            return Some(i);
        }
    }
    None
}
