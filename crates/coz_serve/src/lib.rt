//! What all programs do in the same way: a program computes a text, or a fault, from its arguments
//! and files. It prints the text and returns a status, or it prints the line of the fault.
//!
//! Each program defines what it prints (`Printed`), its faults (`Fault`), and its verdict
//! (`Program` in `specs/Serves.antt`). `serve_with` then keeps one contract for all of them:
//! `Serves`. `inform` prints a program's help and its version.
#![tactic(auto)]

mod fault;
mod info;
mod printed;
mod serve;

pub use fault::{Fault, tell};
pub use info::{Info, info_in, inform};
pub use printed::Printed;
pub use serve::serve_with;
