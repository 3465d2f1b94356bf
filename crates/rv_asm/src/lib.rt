//! Assembles a small RISC-V source into words and data.
#![tactic(auto)]

mod fill;
mod forms;
mod lines;
mod operands;
mod pieces;
mod state;

ghost use Rattle.std.specs.Prelude.{◌≡◌, ◌≤◌, length, IfOk};
ghost use Rattle.asm_tokens.specs.declared.TheConstants.{MAX_SOURCE};
ghost use Rattle.rv_asm.specs.Assembled.{IsProgram, assembled, view};
ghost use Rattle.failures.specs.Answers.{Gives};

use crate::fill::{entry, fill};
use crate::lines::take_lines;
pub use asm_tokens::AsmKind;
pub use asm_values::TEXT_START;
use coz_types::Items;
use failures::Failure;
use std::alloc::Global;

/// A fault, and where in the source it is: its line and the column of its first byte,
/// both counted from 1.
#[derive(Clone, Copy, PartialEq, Eq)]
pub struct AsmFault {
    /// The kind of the fault.
    pub kind: AsmKind,
    /// The line.
    pub line: u32,
    /// The column.
    pub column: u32,
}

/// Why a source isn't assembled.
pub type AsmError = Failure<AsmFault>;

/// An assembled source.
#[derive(Drop)]
pub struct Assembled {
    /// The bytes of the instructions, four for each.
    pub text: Items<u8>,
    /// The bytes of the data.
    pub content: Items<u8>,
    /// The line of each instruction, from 1.
    pub lines: Items<u32>,
    /// The address of the first instruction that runs.
    pub entry: u64,
}

/// Assembles a source of at most 4,194,304 bytes, or returns its first fault.
#[tactic(auto, unfolding(crate::specs::Assembled::assembled))]
pub fn assemble(alloc: Global, source: &[u8]) -> Result<Assembled, AsmError>
    requires { length source.now ≤ MAX_SOURCE }
    ensures value { Gives view result (assembled source.now) }
    ensures program { IfOk result (λ a. IsProgram (view a)) }
{
    let state = take_lines(alloc, source)?;
    let filled = fill(alloc, &state)?;
    if state.text == 0 {
        return Err(AsmError::Fault(AsmFault {
            kind: AsmKind::Empty,
            line: 1,
            column: 1,
        }));
    }
    Ok(Assembled {
        text: Items::new(filled.text),
        content: Items::new(filled.content),
        lines: Items::new(filled.lines),
        entry: entry(&state),
    })
}
