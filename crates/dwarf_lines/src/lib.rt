//! Reads the line programs of a `.debug_line` section, versions 2 to 5
//! (DWARF 4 and 5, section 6.2).
//!
//! ```text
//! let table = read_lines(alloc, debug_line, debug_str, debug_line_str)?;
//! let row = table.rows[0];              // its address, line, column and file
//! table.files[row.file? as usize].name  // b"main.c"
//! ```
#![tactic(auto)]

pub mod codes;
mod draft;
mod entries;
mod fields;
mod forms;
mod header;
mod listed;
mod opcode;
mod registers;
mod strings;

ghost use Rattle.std.specs.Prelude.{◌≡◌, ◌≤◌, length, IfOk, Ok};
ghost use Rattle.coz_types.specs.declared.TheConstants.{MAX_PROGRAM};
ghost use Rattle.dwarf_lines.specs.Registers.{Table, view};
ghost use Rattle.failures.specs.declared.Failure.TheVariants.{Fault};
ghost use Rattle.dwarf_lines.specs.declared.LineKind.TheVariants.{Short};
ghost use Rattle.dwarf_lines.specs.Reading.{reading, leb_fault};
ghost use Rattle.failures.specs.Answers.{Gives};
ghost use Rattle.dwarf_lines.specs.Spelling.{IsTable};
ghost use Rattle.dwarf_lines.specs.Law.{HasOne};
ghost use Rattle.dwarf_lines.specs.Names.{strings};

use crate::draft::Draft;
use crate::strings::Sections;
use coz_types::Items;
use failures::Failure;
use leb_cursor::{Cursor, LebFault};
use std::alloc::Global;

/// Why a field of a section `.debug_line` is rejected (DWARF 4 and 5, section 6.2).
#[derive(Clone, Copy, Debug, PartialEq, Eq)]
pub enum LineKind {
    /// The field runs past its bound.
    Short,
    /// A LEB128 number doesn't fit 64 bits.
    Wide,
    /// A unit_length of the 64-bit form, or a reserved one.
    LongForm,
    /// A maximum_operations_per_instruction that isn't 1.
    ManyOps,
    /// A line_range of 0.
    ZeroRange,
    /// An opcode_base of 0.
    OpcodeBaseZero,
    /// A row whose line doesn't fit 32 bits.
    LineOut,
    /// A DW_LNE_set_address that isn't 9 bytes long.
    AddressLength,
    /// A unit that ends within a sequence.
    Unended,
    /// An address_size of version 5 that isn't 8.
    AddressSize,
    /// A segment_selector_size of version 5 that isn't 0.
    SegmentSize,
    /// A DW_FORM code that isn't known, or that its DW_LNCT content may not have.
    FormOut,
    /// A directories_count or a file_names_count above 0 whose format count is 0.
    EmptyEntries,
    /// An offset (DW_FORM_strp or DW_FORM_line_strp) that isn't in its section, or after which no
    /// zero byte follows.
    TextOut,
}

/// A fault, and where in the section it is.
#[derive(Clone, Copy, Debug, PartialEq, Eq)]
pub struct LineFault {
    /// The kind of the fault.
    pub kind: LineKind,
    /// The first byte of the field, from 0 at the section's start.
    pub place: u64,
}

impl From<leb_cursor::Short> for LineFault {
    ghost from_gives = { λ e f. f ≡ record { kind = Short; place = e.place } };

    fn from(e: leb_cursor::Short) -> LineFault {
        LineFault {
            kind: LineKind::Short,
            place: e.place,
        }
    }
}

impl From<LebFault> for LineFault {
    ghost from_gives = { λ e f. f ≡ leb_fault e };

    fn from(e: LebFault) -> LineFault {
        match e {
            LebFault::Short(short) => LineFault {
                kind: LineKind::Short,
                place: short.place,
            },
            LebFault::Wide { place } => LineFault {
                kind: LineKind::Wide,
                place,
            },
        }
    }
}

/// Why a section has no table.
pub type LineError = Failure<LineFault>;

impl From<LineFault> for LineError {
    ghost from_gives = { λ f e. e ≡ Fault f };

    fn from(f: LineFault) -> LineError {
        LineError::Fault(f)
    }
}

/// From this address on the program is of this line, up to the next row of the sequence
/// (DWARF 4, 6.2.2).
#[derive(Clone, Copy, Debug, PartialEq, Eq)]
pub struct Row {
    /// The number of sequences of the section that ended before the row.
    pub sequence: u32,
    /// The address.
    pub address: u64,
    /// The position of its file in the table's files, if the file number has an entry.
    pub file: Option<u32>,
    /// The number of the line in its file; 0 if there is none.
    pub line: u32,
    /// The column in the line, from 1; 0 if it isn't known.
    pub column: u64,
    /// The address begins a statement.
    pub is_stmt: bool,
    /// Whether the row ends its sequence (`end_sequence`).
    pub ends: bool,
}

/// A file by its directory, which may be empty, and its name.
#[derive(Clone, Copy, Drop)]
pub struct FileName<'a> {
    /// The path of its directory.
    pub directory: &'a [u8],
    /// The name of the file, which may be a path itself.
    pub name: &'a [u8],
}

/// The files and rows of a section in its order, and how many units of other versions were
/// passed over.
#[derive(Drop)]
pub struct LineTable<'a> {
    /// The files that its units name.
    pub files: Items<FileName<'a>>,
    /// The rows of its units.
    pub rows: Items<Row>,
    /// The number of units that were skipped.
    pub skipped: u32,
}

/// The rows of a `.debug_line` section, or its first fault. Texts of version 5 may stand in the
/// general section, `.debug_str`, and in that of lines, `.debug_line_str`.
pub fn read_lines<'a>(
    alloc: Global,
    section: &'a [u8],
    general: &'a [u8],
    line: &'a [u8],
) -> Result<LineTable<'a>, LineError>
    requires { length section.now ≤ MAX_PROGRAM }
    // Which table or which fault it is.
    ensures exact { Gives view result (reading (strings general.now line.now) section.now) }
    // What is read is a table of the section.
    ensures found { IfOk result (λ t. IsTable (strings general.now line.now) section.now (view t)) }
    // A table of the section is read, unless memory runs out.
    ensures only { (t : Table) → IsTable (strings general.now line.now) section.now t
        → Gives view result (Ok t) }
    // With given texts each section has exactly one table and no fault,
    // or exactly one fault and no table.
    ensures one { HasOne (strings general.now line.now) section.now }
{
    let mut cursor = Cursor::new(section);
    let mut sections = Sections::new(general, line);
    let mut draft = Draft::new(alloc);
    while cursor.left() > 0 {
        draft.read_unit(alloc, &mut sections, &mut cursor)?;
    }
    Ok(draft.into_table())
}
