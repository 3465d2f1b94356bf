//! The run of a program under virtual time.
//!
//! Its delays are those of C. Curtsinger and E. D. Berger, "Coz: finding code that counts
//! with causal profiling", SOSP 2015. There a sampler meets the selected line now and then and the
//! threads really sleep; here each start of the line counts, and both it and the pauses are exact.
#![tactic(auto)]

mod accounts;
mod hasten;
mod lead;
mod machine;

pub use lead::Lead;
pub use machine::Machine;
pub use run_engine::Choice;
