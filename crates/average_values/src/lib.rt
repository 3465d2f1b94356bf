//! What several runs of one kind say together: their values against a common base, the mean of
//! values, and its standard error.
#![tactic(auto)]

mod error;
mod pace;
mod shares;
mod spread;
mod sums;

pub use error::{Variance, error_of, variance_of};
pub use pace::{Pace, value};
pub use shares::{cost, differ};
pub use sums::{mean, total};
