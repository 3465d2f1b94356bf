//! The order of blocks.
ghost use Rattle.std.specs.Prelude.{◌≡◌};
ghost use Rattle.profile_join.specs.Order.{block_cmp, tag_cmp};

use crate::tagged::{NumberedPart, Tagged};
use coz_types::Summary;
use profile_labels::label_order;
use std::cmp::Ordering;

/// Returns the order of two blocks: by label, then by speedup.
pub fn block_order(a: &Summary, b: &Summary) -> Ordering
    ensures { result ≡ block_cmp a.now b.now }
{
    label_order(a.selected.bytes(), b.selected.bytes()).then(a.speedup.cmp(&b.speedup))
}

/// Returns the order of two blocks with their parts: by block, then by the number of the part.
pub fn tag_order(a: &Tagged, b: &Tagged) -> Ordering
    ensures { result ≡ tag_cmp a.now b.now }
{
    block_order(&a.summary, &b.summary).then(a.part.cmp(&b.part))
}

/// Returns the order of the first blocks of two parts; a part without a block comes first.
pub fn first_block_order(a: &NumberedPart, b: &NumberedPart) -> Ordering {
    match (
        a.summaries.as_slice().first(),
        b.summaries.as_slice().first(),
    ) {
        (Some(a), Some(b)) => block_order(a, b),
        (Some(_), None) => Ordering::Greater,
        (None, Some(_)) => Ordering::Less,
        (None, None) => Ordering::Equal,
    }
}
