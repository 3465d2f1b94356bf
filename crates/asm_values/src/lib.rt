//! The numbers in an assembled program: the addresses of its text, its data and its entry, and the
//! parts of a number that instructions can hold.
//!
//! ```text
//! text_address(4);            // 0x1_0004
//! data_address(5, 0);         // 0x1_1000: 5 bytes of text fill a part of one page
//! entry_address(Some(4), 8);  // 0x1_0004
//! entry_address(Some(8), 8);  // 0x1_0000: a text of 8 bytes has none at offset 8
//!
//! immediate(2047);            // Some(2047): addi holds it
//! immediate(2048);            // None
//! upper(2048);                // 1: lui puts 4096 into the register,
//! lower(2048);                // -2048: and addiw adds this
//! ```
#![tactic(auto)]

mod addresses;
mod parts;

pub use addresses::{data_address, entry_address, text_address, up_to_multiple};
pub use parts::{immediate, low_bits, lower, upper};

/// The address at which the text begins.
pub const TEXT_START: u64 = 0x1_0000;
