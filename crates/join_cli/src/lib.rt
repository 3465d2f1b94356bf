//! The program that joins profiles.
#![tactic(auto)]

mod ranges;
mod top;

pub use ranges::profiles_right;
pub use top::serve_join;
