//! The registers of the line machine (DWARF 4, 6.2.2).

use crate::header::Header;
use crate::opcode::Operation;

/// The registers of a unit's program (DWARF 4, 6.2.2).
#[derive(Clone, Copy)]
pub struct Registers {
    /// The address of the next row.
    pub address: u64,
    /// The number of its file.
    pub file: u64,
    /// Wide enough for any program; it is judged when a row is appended.
    pub line: i128,
    /// The register `column`.
    pub column: u64,
    /// Whether it begins a statement.
    pub is_stmt: bool,
}

impl Registers {
    ghost use Rattle.std.specs.Prelude.{◌≡◌, ◌<◌, ◌^◌};
    ghost use Rattle.dwarf_lines.specs.Registers.{first_registers, registers_after, with_address_moved, address_step};
    ghost use Rattle.dwarf_lines.specs.Bounds.{IsLineWithin};
    ghost use Rattle.dwarf_lines.specs.Views.{header_view, operation_view};

    /// At the beginning of each sequence.
    pub fn fresh(header: &Header) -> Registers
        ensures { result ≡ first_registers (header_view header.now) }
    {
        Registers {
            address: 0,
            file: 1,
            line: 1,
            column: 0,
            is_stmt: header.is_stmt,
        }
    }

    /// After an operation, and at its row if it appends one.
    pub fn changed(self, header: &Header, operation: &Operation) -> Registers
        requires { IsLineWithin (2 ^ 100) self.line }
        ensures { result
            ≡ registers_after (header_view header.now) (operation_view operation.now) self }
    {
        match *operation {
            Operation::AdvancePc(count) => {
                self.moved(count.wrapping_mul(header.minimum_length as u64))
            }
            Operation::AdvanceLine(count) => Registers {
                line: self.line + count as i128,
                ..self
            },
            Operation::SetFile(file) => Registers { file, ..self },
            Operation::SetColumn(column) => Registers { column, ..self },
            Operation::NegateStmt => Registers {
                is_stmt: !self.is_stmt,
                ..self
            },
            Operation::ConstAddPc => self.moved(address_step(header, 255)),
            Operation::FixedAdvancePc(count) => self.moved(count as u64),
            Operation::Special(opcode) => Registers {
                line: self.line + line_step(header, opcode),
                ..self.moved(address_step(header, opcode))
            },
            Operation::SetAddress(address) => Registers { address, ..self },
            Operation::Copy | Operation::EndSequence | Operation::DefineFile(_) | Operation::Pass =>
                self,
        }
    }

    fn moved(self, step: u64) -> Registers
        ensures { result ≡ with_address_moved step self }
    {
        Registers {
            address: self.address.wrapping_add(step),
            ..self
        }
    }
}

ghost use Rattle.std.specs.Prelude.{◌≡◌, ◌<◌, ◌^◌, pos, ◌≤ℤ◌, ℤ, negsuc};
ghost use Rattle.dwarf_lines.specs.Registers.{address_step, line_step};
ghost use Rattle.dwarf_lines.specs.Views.{header_view};

/// By how much an opcode from opcode_base on moves the address.
fn address_step(header: &Header, opcode: u8) -> u64
    ensures { result ≡ address_step (header_view header.now) opcode }
{
    let adjusted = opcode.saturating_sub(header.opcode_base);
    (adjusted / header.line_range) as u64 * header.minimum_length as u64
}

/// By how much it moves the line.
fn line_step(header: &Header, opcode: u8) -> i128
    ensures exact { result ≡ line_step (header_view header.now) opcode }
    ensures low { negsuc 127 ≤ℤ result }
    ensures high { result ≤ℤ pos 381 }
{
    let adjusted = opcode.saturating_sub(header.opcode_base);
    header.line_base as i128 + (adjusted % header.line_range) as i128
}
