//! The tokens of a line of assembly, the registers, and the table of the statements
//! by their first words.
//!
//! ```text
//! tokens(alloc, b"li a0, 1")?;  // Name(b"li"), Name(b"a0"), Mark(b','), Number(1)
//! register_of(b"a0");           // Some(Register::X10)
//! ```
#![tactic(auto)]

mod form;
mod line;
mod register;
mod table;
mod words;

pub use form::{Alone, Form, Order, Section, Size, Width};
pub use line::{Placed, Token, TokenError, is_blank, tokens};
pub use register::{Register, number_of};
pub use table::{form_of, register_of};

/// The most bytes of a source.
pub const MAX_SOURCE: u64 = 0x40_0000;

/// Why a source is rejected: in each line `Lines`, `Byte` and `Token` are judged first,
/// and then what stands in it from left to right; `Missing` and `Far` come after
/// all lines, and `Empty` last.
#[derive(Clone, Copy, Debug, PartialEq, Eq)]
pub enum AsmKind {
    /// There are more than 65,536 lines.
    Lines,
    /// A byte that may not stand in a source.
    Byte,
    /// Bytes that form no token.
    Token,
    /// A label that is there already.
    Twice,
    /// A statement's first token is no instruction and no directive.
    Name,
    /// A statement that the section doesn't take.
    Section,
    /// A token that the statement doesn't have there, a missing or a spare one.
    Operand,
    /// A number out of its range.
    Range,
    /// A section would have more than 1,048,576 bytes.
    Much,
    /// A label that is nowhere.
    Missing,
    /// A branch or a jump that doesn't reach its label, or is an odd number of bytes away from it.
    Far,
    /// There is no instruction.
    Empty,
}
