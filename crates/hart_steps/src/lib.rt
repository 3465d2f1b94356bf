//! The steps of one hart: fetch, decode and execute, over code that was decoded ahead.
//!
//! `Code` keeps the words of a program's code with their instructions. `step_on` lets a hart
//! execute one instruction after another, while no mark is reached and no other hart is due.
#![tactic(auto)]

mod code;
mod steps;

pub use code::{Code, Word};
pub use steps::{Advance, instr_at, step_at, step_on};
