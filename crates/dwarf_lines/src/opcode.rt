//! The opcodes of a line program (DWARF 5, 6.2.5).

use crate::codes::{
    DW_LNE_DEFINE_FILE, DW_LNE_END_SEQUENCE, DW_LNE_SET_ADDRESS, DW_LNS_ADVANCE_LINE,
    DW_LNS_ADVANCE_PC, DW_LNS_CONST_ADD_PC, DW_LNS_COPY, DW_LNS_FIXED_ADVANCE_PC,
    DW_LNS_NEGATE_STMT, DW_LNS_SET_BASIC_BLOCK, DW_LNS_SET_COLUMN, DW_LNS_SET_EPILOGUE_BEGIN,
    DW_LNS_SET_FILE, DW_LNS_SET_ISA, DW_LNS_SET_PROLOGUE_END,
};
use crate::entries::read_file;
use crate::fields::{byte, half, pass, signed, unsigned};
use crate::header::Header;
use crate::{FileName, LineFault, LineKind};
use leb_cursor::Cursor;

/// An opcode with its operands.
#[derive(Clone, Copy, Drop)]
pub enum Operation<'a> {
    /// Appends a row.
    Copy,
    /// Advances the address by this many instructions (`minimum_instruction_length` bytes each).
    AdvancePc(u64),
    /// Advances the line.
    AdvanceLine(i64),
    /// Sets the number of the file.
    SetFile(u64),
    /// Sets the column.
    SetColumn(u64),
    /// Changes whether rows begin statements.
    NegateStmt,
    /// Advances the address as special opcode 255 does.
    ConstAddPc,
    /// Advances the address by this many bytes.
    FixedAdvancePc(u16),
    /// A special opcode: advances the address and the line, and appends a row.
    Special(u8),
    /// Appends the last row of a sequence, and begins anew.
    EndSequence,
    /// Sets the address.
    SetAddress(u64),
    /// Adds a file to those of the header.
    DefineFile(FileName<'a>),
    /// Changes nothing.
    Pass,
}

impl<'a> Operation<'a> {
    ghost use Rattle.std.specs.Prelude.{◌≡◌, ◌<◌};
    ghost use Rattle.dwarf_lines.specs.Reading.{Walks, Finds, operation, below_base, extended_at, body};
    ghost use Rattle.dwarf_lines.specs.Views.{operation_view, header_view};

    /// The next opcode and its operands. Err is the first wrong field.
    #[tactic(auto, unfolding(crate::specs::Reading::operation))]
    pub fn read(header: &Header<'a>, cursor: &mut Cursor<'a>) -> Result<Operation<'a>, LineFault>
        ensures { Walks operation_view result cursor.new
            (operation (header_view header.now) cursor.old) }
    {
        let place = cursor.place();
        let opcode = byte(cursor)?;
        if opcode >= header.opcode_base {
            return Ok(Operation::Special(opcode));
        }
        if opcode == 0 {
            return Operation::extended(header, place, cursor);
        }
        Operation::standard(opcode, header, cursor)
    }

    /// An opcode from 1 on that is below opcode_base.
    fn standard(
        opcode: u8,
        header: &Header<'a>,
        cursor: &mut Cursor<'a>,
    ) -> Result<Operation<'a>, LineFault>
        requires positive { 0 < opcode }
        requires below { opcode < header.now.opcode_base }
        ensures { Walks operation_view result cursor.new
            (below_base (header_view header.now) 0 opcode cursor.old) }
    {
        match opcode {
            DW_LNS_COPY => Ok(Operation::Copy),
            DW_LNS_ADVANCE_PC => Ok(Operation::AdvancePc(unsigned(cursor)?)),
            DW_LNS_ADVANCE_LINE => Ok(Operation::AdvanceLine(signed(cursor)?)),
            DW_LNS_SET_FILE => Ok(Operation::SetFile(unsigned(cursor)?)),
            DW_LNS_SET_COLUMN => Ok(Operation::SetColumn(unsigned(cursor)?)),
            DW_LNS_NEGATE_STMT => Ok(Operation::NegateStmt),
            DW_LNS_SET_BASIC_BLOCK | DW_LNS_SET_PROLOGUE_END | DW_LNS_SET_EPILOGUE_BEGIN => {
                Ok(Operation::Pass)
            }
            DW_LNS_CONST_ADD_PC => Ok(Operation::ConstAddPc),
            DW_LNS_FIXED_ADVANCE_PC => Ok(Operation::FixedAdvancePc(half(cursor)?)),
            DW_LNS_SET_ISA => {
                pass(1, cursor)?;
                Ok(Operation::Pass)
            }
            _ => {
                pass(header.lengths[opcode as usize - 1], cursor)?;
                Ok(Operation::Pass)
            }
        }
    }

    /// An extended opcode whose zero byte is at this place.
    fn extended(
        header: &Header<'a>,
        place: u64,
        cursor: &mut Cursor<'a>,
    ) -> Result<Operation<'a>, LineFault>
        ensures { Walks operation_view result cursor.new
            (extended_at (header_view header.now) place cursor.old) }
    {
        let size = unsigned(cursor)?;
        let inside = cursor.part(size)?;
        Operation::of_body(header, place, inside)
    }

    /// The operation of an extended opcode's body. Bytes that are left of the body are skipped.
    fn of_body(
        header: &Header<'a>,
        place: u64,
        mut inside: Cursor<'a>,
    ) -> Result<Operation<'a>, LineFault>
        ensures { Finds operation_view result (body (header_view header.now) place inside.entry) }
    {
        let size = inside.left();
        if size == 0 {
            return Ok(Operation::Pass);
        }
        match byte(&mut inside)? {
            DW_LNE_END_SEQUENCE => Ok(Operation::EndSequence),
            DW_LNE_SET_ADDRESS => {
                if size != 9 {
                    return Err(LineFault {
                        kind: LineKind::AddressLength,
                        place,
                    });
                }
                Ok(Operation::SetAddress(inside.double()?))
            }
            DW_LNE_DEFINE_FILE if header.version != 5 => {
                let file = read_file(header.directories.as_slice(), &mut inside)?;
                Ok(Operation::DefineFile(file))
            }
            _ => Ok(Operation::Pass),
        }
    }
}
