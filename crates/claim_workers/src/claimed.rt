//! Claims with what their work gave, and their order.
ghost use Rattle.std.specs.Prelude.{◌≡◌, ℕ, IfOk, List};
ghost use Rattle.std.specs.List.{flat_map, range_with_len};
ghost use Rattle.coz_types.specs.declared.record.Summary.{Summary};
ghost use Rattle.claim_workers.specs.Worked.{EachClaim};

use coz_types::{Items, Summary};
use std::alloc::{AllocError, Global};

/// A claim and the summaries that its work gave.
#[derive(Drop)]
pub struct Claimed {
    /// The claim's number.
    pub claim: u32,
    /// The summaries of the claim, in the order of its work.
    pub summaries: Items<Summary>,
}

/// The summaries of all claims, in the order of the claims.
pub fn in_order(alloc: Global, mut done: Vec<Claimed>) -> Result<Vec<Summary>, AllocError>
    ensures { (f : ℕ → List Summary) (n : ℕ) → EachClaim f n done.items →
        IfOk result (λ summaries. summaries.items ≡ flat_map f (range_with_len 0 n)) }
{
    done.sort_by_key(|claimed| claimed.claim)?;
    let mut summaries = Vec::new(alloc);
    for claimed in done {
        let Claimed {
            claim: _,
            summaries: given,
        } = claimed;
        let mut more = given.into_vec();
        summaries.append(&mut more)?;
    }
    Ok(summaries)
}
