//! Tests of the libraries that read words and sources and write programs, and nothing else.
#![tactic(auto)]

#[cfg(test)]
mod coz_words_tests;
#[cfg(test)]
mod experiment_plan_tests;
#[cfg(test)]
mod gain_words_tests;
#[cfg(test)]
mod image_write_tests;
#[cfg(test)]
mod rv_asm_tests;
