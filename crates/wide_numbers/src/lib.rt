//! Whole numbers below 2^384, and the root of the quotient of two numbers.
#![tactic(auto)]

mod root;
mod wide;

pub use root::root_of_quotient;
pub use wide::Wide;
