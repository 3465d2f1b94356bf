//! Blocks with the parts that they come from.
use coz_types::{Items, Summary};

/// The blocks of a part.
#[derive(Drop)]
pub struct NumberedPart {
    /// The number of the part, from 0.
    pub number: usize,
    /// The blocks of the part.
    pub summaries: Items<Summary>,
}

/// A block and the part that it comes from.
#[derive(Drop)]
pub struct Tagged {
    /// The number of the part, from 0.
    pub part: usize,
    /// The block.
    pub summary: Summary,
}
