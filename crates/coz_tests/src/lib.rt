//! Tests of the top call over files, arguments and programs that it assembles, and nothing else.
#![tactic(auto)]

#[cfg(test)]
mod argument_tests;
#[cfg(test)]
mod call_tests;
#[cfg(test)]
mod calls;
#[cfg(test)]
mod checks;
#[cfg(test)]
mod latency_tests;
#[cfg(test)]
mod path_tests;
#[cfg(test)]
mod pipe_tests;
#[cfg(test)]
mod profile_tests;
#[cfg(test)]
mod program_tests;
#[cfg(test)]
mod sleep_tests;
#[cfg(test)]
mod sources;
#[cfg(test)]
mod workers_tests;
