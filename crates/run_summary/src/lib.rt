//! What a profile keeps of a run: the digest of its net visits, how many each point has, and its
//! summary.
#![tactic(auto)]

mod counts;
mod digests;
mod summaries;

pub use counts::counts_of_visits;
pub use digests::{digest_of_bytes, digest_of_visits};
pub use summaries::{is_undelayed, relabelled, summary_of_run};
