//! Tests of the libraries that run a guest, and nothing else.
#![tactic(auto)]

#[cfg(test)]
mod checks;
#[cfg(test)]
mod counted_tests;
#[cfg(test)]
mod delay_credits_tests;
#[cfg(test)]
mod experiment_claims_tests;
#[cfg(test)]
mod fork_tests;
#[cfg(test)]
mod guests;
#[cfg(test)]
mod hart_schedule_tests;
#[cfg(test)]
mod latency_points_tests;
#[cfg(test)]
mod lead_tests;
#[cfg(test)]
mod machine_tests;
#[cfg(test)]
mod path_tests;
#[cfg(test)]
mod plain_tests;
#[cfg(test)]
mod shortened_run_tests;
#[cfg(test)]
mod timed_guest_tests;
#[cfg(test)]
mod timing_tests;
