//! The codes of a line program (DWARF 5, 6.2.5).

// The standard opcodes (DWARF 5, 6.2.5.2).

/// Appends a row.
pub const DW_LNS_COPY: u8 = 1;
/// Adds a number of instructions to the address.
pub const DW_LNS_ADVANCE_PC: u8 = 2;
/// Adds a number with a sign to the line.
pub const DW_LNS_ADVANCE_LINE: u8 = 3;
/// Sets the file.
pub const DW_LNS_SET_FILE: u8 = 4;
/// Sets the column.
pub const DW_LNS_SET_COLUMN: u8 = 5;
/// Turns is_stmt round.
pub const DW_LNS_NEGATE_STMT: u8 = 6;
/// Marks the beginning of a basic block.
pub const DW_LNS_SET_BASIC_BLOCK: u8 = 7;
/// Adds to the address what the special opcode 255 adds.
pub const DW_LNS_CONST_ADD_PC: u8 = 8;
/// Adds two bytes as they stand to the address.
pub const DW_LNS_FIXED_ADVANCE_PC: u8 = 9;
/// Marks the end of a prologue.
pub const DW_LNS_SET_PROLOGUE_END: u8 = 10;
/// Marks the beginning of an epilogue.
pub const DW_LNS_SET_EPILOGUE_BEGIN: u8 = 11;
/// Sets the instruction set.
pub const DW_LNS_SET_ISA: u8 = 12;

// The extended opcodes (DWARF 5, 6.2.5.3); the third is of versions before 5.

/// Appends the last row of a sequence.
pub const DW_LNE_END_SEQUENCE: u8 = 1;
/// Sets the address.
pub const DW_LNE_SET_ADDRESS: u8 = 2;
/// Adds a file (DWARF 4, 6.2.5.3).
pub const DW_LNE_DEFINE_FILE: u8 = 3;
