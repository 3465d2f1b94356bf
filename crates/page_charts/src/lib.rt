//! The pictures of a page, its values in per cent, and its curves in words.
#![tactic(auto)]

mod axes;
mod chart;
mod percent;
mod words;

pub use chart::{harm_top_for, is_notable, put_chart, put_small, top_for};
pub use percent::{put_cost, put_value, put_worst};
pub use words::{put_gain, put_items};
