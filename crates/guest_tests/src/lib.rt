//! Tests of the libraries of which a guest is made, and nothing else.
#![tactic(auto)]

#[cfg(test)]
mod checks;
#[cfg(test)]
mod cost_table_tests;
#[cfg(test)]
mod guest_areas_tests;
#[cfg(test)]
mod guest_futex_tests;
#[cfg(test)]
mod guest_memory_tests;
#[cfg(test)]
mod rv_alu_tests;
#[cfg(test)]
mod rv_decode_tests;
#[cfg(test)]
mod rv_execute_tests;
