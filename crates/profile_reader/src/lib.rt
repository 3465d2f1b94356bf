//! The grammar of a profile's text, its first fault, and its reader.
#![tactic(auto)]

mod block_lines;
mod blocks;
mod cursor;
mod digests;
mod endings;
mod fault;
mod fault_line;
mod field_values;
mod fields;
mod item;
mod numbers;
mod order;
mod reader;
mod scan;

pub use fault::{BookError, BookFault, BookField};
pub use fault_line::put_book_fault;
pub use reader::{
    labels_rise_or_fall, read_profile, texts_have_no_fault, texts_tell_their_profile,
};

/// The most bytes of a profile that is read from a file.
pub const MAX_PROFILE: u64 = 268435456;
