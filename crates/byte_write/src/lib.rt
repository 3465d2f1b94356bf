//! The bytes of written files: numbers, the programs of line units, and ELF headers.
#![tactic(auto)]

mod file;
mod leb;
mod numbers;
mod sequence;
mod words;

pub use file::{push_places, with_section};
pub use numbers::{push_double, push_doubles, push_half, push_word};
pub use sequence::push_sequence;
pub use words::push_words;
