//! The words of a program's code, and marks beside them.
//!
//! `code_span` says which words they are. `Marks` says of each of them whether its line is the
//! selected one, and whether a progress point is there.
#![tactic(auto)]

mod marks;
mod span;

pub use marks::{Mark, MarkedLine, Marks};
pub use span::{CodeSpan, MAX_WORDS, code_span};
