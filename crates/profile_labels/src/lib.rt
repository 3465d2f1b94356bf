//! What the lists of a profile are read, cut and sorted by: the spelling and the order of
//! labels, groups of one label, and stable sorting.
#![tactic(auto)]

mod groups;
mod labels;
mod numbers;

pub use groups::group_length;
pub use labels::{is_before, is_label, label_order};
pub use numbers::decimal;
