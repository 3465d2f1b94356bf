//! Writes a line unit in which each sequence is one line (DWARF 4, section 6.2).
//!
//! ```text
//! let unit = write_unit(alloc, &sequences)?; // the bytes of a section `.debug_line`
//! ```
#![tactic(auto)]

mod header;
mod program;

ghost use Rattle.std.specs.Prelude.{◌≡◌, ◌<◌, ◌≤◌, ◌+◌, ◌^◌, ◌++◌, length, All, IfOk, IfErr};
ghost use Rattle.coz_types.specs.declared.TheConstants.{MAX_PROGRAM};
ghost use Rattle.line_write.specs.declared.UnitError.TheVariants.{Memory};
ghost use Rattle.line_write.specs.Answers.{IsTooLong};
ghost use Rattle.line_write.specs.Lines.{GivesLines};
ghost use Rattle.line_write.specs.Unit.{IsWritable, views, body, unit, with_count};

use crate::header::header;
use crate::program::program;
use byte_write::{push_half, push_word};
use coz_types::{Address, MAX_PROGRAM};
use std::alloc::{AllocError, Global};

/// Consecutive addresses that have one line.
#[derive(Drop)]
pub struct Sequence {
    /// The path of the line's file.
    pub path: Vec<u8>,
    /// The number of the line in its file, from 1 on.
    pub number: u32,
    /// The first address.
    pub address: Address,
    /// The number of addresses.
    pub size: u64,
}

/// Why there is no unit.
#[derive(Clone, Copy, PartialEq, Eq)]
pub enum UnitError {
    /// The file would have more than 33,554,432 bytes.
    TooLong,
    /// Out of memory.
    Memory,
}

impl From<AllocError> for UnitError {
    ghost from_gives = { λ _ error. error ≡ Memory };

    fn from(_: AllocError) -> UnitError {
        UnitError::Memory
    }
}

/// The bytes of the version number and of the length of the header.
const VERSION_AND_LENGTH: usize = 6;

/// The bytes of these and of the length of the unit.
const COUNTS: usize = 10;

/// The version of the unit.
const VERSION: u16 = 4;

/// Appends the bytes, after their count in four bytes.
pub fn push_counted(out: &mut Vec<u8>, bytes: &[u8]) -> Result<(), AllocError>
    requires { length bytes.now < 2 ^ 32 }
    ensures { IfOk result (λ _. out.new.items ≡ out.old.items ++ with_count bytes.now) }
{
    push_word(out, bytes.len() as u32)?;
    out.extend_from_slice(bytes)
}

/// The unit with this header and this program.
fn unit(alloc: Global, header: &[u8], program: &[u8]) -> Result<Vec<u8>, AllocError>
    requires { length header.now + length program.now < 2 ^ 31 }
    ensures { IfOk result (λ v. v.items ≡ with_count (body header.now program.now)) }
{
    let mut out = Vec::new(alloc);
    push_word(
        &mut out,
        (VERSION_AND_LENGTH + header.len() + program.len()) as u32,
    )?;
    push_half(&mut out, VERSION)?;
    push_counted(&mut out, header)?;
    out.extend_from_slice(program)?;
    Ok(out)
}

/// Returns a line unit of version 4 with one sequence for each of these, in their order. By it an
/// address has the line of the first sequence that has the address.
///
/// Fails if the unit would have more than 33,554,432 bytes, or if memory runs out.
pub fn write_unit(alloc: Global, sequences: &[Sequence]) -> Result<Vec<u8>, UnitError>
    requires writable { All IsWritable (views sequences.now) }
    ensures bytes { IfOk result (λ v. v.items ≡ unit (views sequences.now)) }
    ensures short { IfOk result (λ v. length v.items ≤ MAX_PROGRAM) }
    ensures too_long { IfErr result (IsTooLong (views sequences.now)) }
    ensures gives { IfOk result (λ v. GivesLines (views sequences.now) v.items) }
{
    let header = header(alloc, sequences)?;
    if header.len() > MAX_PROGRAM as usize {
        return Err(UnitError::TooLong);
    }
    let program = program(alloc, sequences)?;
    if COUNTS + header.len() + program.len() > MAX_PROGRAM as usize {
        return Err(UnitError::TooLong);
    }
    Ok(unit(alloc, &header, &program)?)
}
