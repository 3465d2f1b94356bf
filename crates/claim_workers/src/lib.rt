//! Workers that draw claims from one word, whatever the work of a claim is.
#![tactic(auto)]

mod claimed;
mod gathering;
mod job;
mod pool;
mod work;
mod worker;

pub use pool::run_claims;
pub use work::ClaimWork;
