//! Tests of the top calls over files of the greatest sizes, and of the top calls of all programs
//! but `coz` over arguments, files and sinks, and nothing else.
#![tactic(auto)]

#[cfg(test)]
mod calls;
#[cfg(test)]
mod files;
#[cfg(test)]
mod functions_tests;
#[cfg(test)]
mod gain_tests;
#[cfg(test)]
mod hot_files;
#[cfg(test)]
mod hot_tests;
#[cfg(test)]
mod info_tests;
#[cfg(test)]
mod join_files;
#[cfg(test)]
mod join_tests;
#[cfg(test)]
mod large;
#[cfg(test)]
mod limit_tests;
#[cfg(test)]
mod page_tests;
#[cfg(test)]
mod path_tests;
#[cfg(test)]
mod programs;
#[cfg(test)]
mod sinks;
