//! The table while it is read, unit by unit.

ghost use Rattle.std.specs.Prelude.{◌≡◌, count_by};
ghost use Rattle.coz_types.specs.declared.TheConstants.{MAX_PROGRAM};
ghost use Rattle.dwarf_lines.specs.declared.Row.{Row};

use crate::fields::{address_sizes, announced, half, word};
use crate::header::Header;
use crate::opcode::Operation;
use crate::registers::Registers;
use crate::strings::Sections;
use crate::{FileName, LineError, LineFault, LineKind, LineTable, Row};
use coz_types::Items;
use leb_cursor::Cursor;
use std::alloc::Global;

/// A unit_length from here on is of the 64-bit form, or reserved (DWARF 4, 7.2.2).
const LONG_FORM: u32 = 0xFFFF_FFF0;

/// The table so far.
#[derive(Drop)]
pub struct Draft<'a> {
    files: Vec<FileName<'a>>,
    rows: Vec<Row>,
    skipped: u32,
    /// The number of rows that end their sequence.
    sequences: u32,
    ghost counted: { sequences ≡ count_by (λ (row : Row). row.ends) rows.items },
}

impl<'a> Draft<'a> {
    ghost use Rattle.std.specs.Prelude.{◌+◌, ◌<◌, ◌≤◌, ◌^◌, ◌∷◌, ◌++◌, [], ℕ, suc, length, IfOk, OnOk, Ok, Some, None};
    ghost use Rattle.dwarf_lines.specs.declared.LineKind.TheVariants.{LineOut};
    ghost use Rattle.dwarf_lines.specs.Registers.{empty_table, fits_line, row, state_after, has_line, first_registers, file_of, is_open, view};
    ghost use Rattle.dwarf_lines.specs.Reading.{WalksOver, check, program, finished_table, unit, unit_body};
    ghost use Rattle.failures.specs.Answers.{Gives};
    ghost use Rattle.dwarf_lines.specs.Bounds.{IsLineWithin, weight};
    ghost use Rattle.dwarf_lines.specs.Views.{header_view, operation_view, sections_view, so_far, state_of};

    /// A table of nothing.
    pub fn new(alloc: Global) -> Draft<'a>
        ensures { so_far result ≡ empty_table }
    {
        Draft {
            files: Vec::new(alloc),
            rows: Vec::new(alloc),
            skipped: 0,
            sequences: 0,
        }
    }

    /// The table of what was read.
    pub fn into_table(self) -> LineTable<'a>
        ensures { view result ≡ so_far self.entry }
    {
        LineTable {
            files: Items::new(self.files),
            rows: Items::new(self.rows),
            skipped: self.skipped,
        }
    }

    /// Reads the next unit, or passes over it and counts it.
    /// Err is the unit's first fault, or out of memory.
    #[tactic(auto, unfolding(crate::specs::Reading::unit))]
    pub fn read_unit(
        &mut self,
        alloc: Global,
        sections: &mut Sections<'a>,
        cursor: &mut Cursor<'a>,
    ) -> Result<(), LineError>
        requires { weight (so_far self.old) + length cursor.old.bytes ≤ MAX_PROGRAM }
        ensures exact { WalksOver (λ _. so_far self.new) result cursor.new
            (unit (sections_view sections.old) (so_far self.old) cursor.old) }
        ensures kept { sections_view sections.new ≡ sections_view sections.old }
        ensures room { OnOk result (weight (so_far self.new) + length cursor.new.bytes
            ≤ weight (so_far self.old) + length cursor.old.bytes) }
    {
        let place = cursor.place();
        let size = word(cursor)?;
        if size >= LONG_FORM {
            return Err(LineError::Fault(LineFault {
                kind: LineKind::LongForm,
                place,
            }));
        }
        let mut inside = announced(place, size, cursor)?;
        let version = half(&mut inside)?;
        if 2 <= version && version <= 5 {
            self.read_body(alloc, version, sections, inside)
        } else {
            self.skipped += 1;
            Ok(())
        }
    }

    /// Reads a unit after its version: the header and the program.
    #[tactic(auto, unfolding(crate::specs::Reading::unit_body))]
    fn read_body(
        &mut self,
        alloc: Global,
        version: u16,
        sections: &mut Sections<'a>,
        mut body: Cursor<'a>,
    ) -> Result<(), LineError>
        requires { weight (so_far self.old) + length body.bytes ≤ MAX_PROGRAM }
        ensures exact { Gives (λ _. so_far self.new) result
            (unit_body version (sections_view sections.old) (so_far self.old) body.entry) }
        ensures kept { sections_view sections.new ≡ sections_view sections.old }
        ensures room { OnOk result
            (weight (so_far self.new) ≤ weight (so_far self.old) + length body.entry.bytes) }
    {
        address_sizes(version, &mut body)?;
        let place = body.place();
        let size = word(&mut body)?;
        let fields = announced(place, size, &mut body)?;
        let header = Header::read(alloc, version, sections, fields)?;
        let first_file = self.files.len();
        self.files.extend_from_slice(header.files.as_slice())?;
        self.run(&header, first_file, body)
    }

    /// Runs the program of a unit whose files begin at this position.
    fn run(
        &mut self,
        header: &Header<'a>,
        first_file: usize,
        mut opcodes: Cursor<'a>,
    ) -> Result<(), LineError>
        requires { weight (so_far self.old) + length opcodes.bytes ≤ MAX_PROGRAM }
        ensures exact { Gives (λ _. so_far self.new) result
            (finished_table
            (program (suc (length opcodes.entry.bytes)) (header_view header.now)
            (state_of self.old first_file (first_registers (header_view header.now)))
            opcodes.entry)) }
        ensures room { OnOk result
            (weight (so_far self.new) ≤ weight (so_far self.old) + length opcodes.entry.bytes) }
    {
        let mut registers = Registers::fresh(header);
        while opcodes.left() > 0 {
            let place = opcodes.place();
            let operation = Operation::read(header, &mut opcodes)?;
            registers = self.apply(header, first_file, place, registers, operation)?;
        }
        if self.is_open() {
            return Err(LineError::Fault(LineFault {
                kind: LineKind::Unended,
                place: opcodes.place(),
            }));
        }
        Ok(())
    }

    /// Does the operation at this place, and gives the registers after it.
    fn apply(
        &mut self,
        header: &Header<'a>,
        first_file: usize,
        place: u64,
        before: Registers,
        operation: Operation<'a>,
    ) -> Result<Registers, LineError>
        requires line { IsLineWithin (2 ^ 100) before.line }
        requires room { weight (so_far self.old) < MAX_PROGRAM }
        ensures exact { let s = state_of self.old first_file before in
            Gives (λ r. state_of self.new first_file r) result
            (check (has_line (header_view header.now) (operation_view operation.entry) s)
            LineOut place
            (state_after (header_view header.now) (operation_view operation.entry) s)) }
        ensures line { (n : ℕ) → IsLineWithin n before.line
            → IfOk result (λ r. IsLineWithin (n + 2 ^ 63) r.line) }
        ensures room { OnOk result (weight (so_far self.new) ≤ weight (so_far self.old) + 1) }
    {
        let registers = before.changed(header, &operation);
        match operation {
            Operation::Copy | Operation::Special(_) => {
                self.append(header, first_file, place, registers, false)?;
                Ok(registers)
            }
            Operation::EndSequence => {
                self.append(header, first_file, place, registers, true)?;
                Ok(Registers::fresh(header))
            }
            Operation::DefineFile(file) => {
                self.files.push(file)?;
                Ok(registers)
            }
            Operation::AdvancePc(_)
            | Operation::AdvanceLine(_)
            | Operation::SetFile(_)
            | Operation::SetColumn(_)
            | Operation::NegateStmt
            | Operation::ConstAddPc
            | Operation::FixedAdvancePc(_)
            | Operation::SetAddress(_)
            | Operation::Pass => Ok(registers),
        }
    }

    /// Appends the row of these registers, if its line fits; the opcode is at this place.
    fn append(
        &mut self,
        header: &Header,
        first_file: usize,
        place: u64,
        registers: Registers,
        ends: bool,
    ) -> Result<(), LineError>
        requires { weight (so_far self.old) < MAX_PROGRAM }
        ensures exact { Gives (λ _. so_far self.new) result
            (check (fits_line registers.line) LineOut place (record (so_far self.old) {
              rows = self.old.rows.items
                  ++ row (header_view header.now) (state_of self.old first_file registers)
                  ends registers ∷ [];
            })) }
    {
        let line = match u32::try_from(registers.line) {
            Ok(line) => line,
            Err(_) => {
                return Err(LineError::Fault(LineFault {
                    kind: LineKind::LineOut,
                    place,
                }));
            }
        };
        let file = self.file_of(header, first_file, registers.file);
        self.rows.push(Row {
            sequence: self.sequences,
            address: registers.address,
            file,
            line,
            column: registers.column,
            is_stmt: registers.is_stmt,
            ends,
        })?;
        if ends {
            self.sequences += 1;
        }
        Ok(())
    }

    /// The position of the unit's file of that number, if there is an entry.
    fn file_of(&self, header: &Header, first_file: usize, number: u64) -> Option<u32>
        requires { length self.now.files.items ≤ MAX_PROGRAM }
        ensures { (registers : _) → result
            ≡ file_of (header_view header.now) (state_of self.now first_file registers) number }
    {
        let first_number = if header.version == 5 { 0 } else { 1 };
        if number < first_number {
            return None;
        }
        let position = (first_file as u64).saturating_add(number - first_number);
        if position < self.files.len() as u64 {
            Some(position as u32)
        } else {
            None
        }
    }

    /// Whether the last row doesn't end its sequence.
    fn is_open(&self) -> bool
        ensures { result ≡ is_open self.now.rows.items }
    {
        match self.rows.last() {
            Some(row) => !row.ends,
            None => false,
        }
    }
}
