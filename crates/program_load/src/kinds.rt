//! The names of the kinds of faults.
ghost use Rattle.std.specs.Prelude.{◌≡◌};
ghost use Rattle.program_load.specs.FaultLines.{elf_kind_name, line_kind_name, asm_kind_name};

use dwarf_lines::LineKind;
use elf_load::ElfKind;
use rv_asm::AsmKind;

/// The name of a program's kind of fault.
pub fn elf_kind_name(kind: ElfKind) -> &'static [u8]
    ensures { result.now ≡ elf_kind_name kind }
{
    match kind {
        ElfKind::NotElf => b"NotElf",
        ElfKind::NotClass64 => b"NotClass64",
        ElfKind::NotLittle => b"NotLittle",
        ElfKind::NotExec => b"NotExec",
        ElfKind::NotRiscv => b"NotRiscv",
        ElfKind::Compressed => b"Compressed",
        ElfKind::HeaderOut => b"HeaderOut",
        ElfKind::PackedLines => b"PackedLines",
        ElfKind::Interp => b"Interp",
        ElfKind::SizeOrder => b"SizeOrder",
        ElfKind::AddressOut => b"AddressOut",
        ElfKind::WritableCode => b"WritableCode",
        ElfKind::SharedPage => b"SharedPage",
        ElfKind::TooMuch => b"TooMuch",
        ElfKind::EntryOut => b"EntryOut",
    }
}

/// The name of a line table's kind of fault.
pub fn line_kind_name(kind: LineKind) -> &'static [u8]
    ensures { result.now ≡ line_kind_name kind }
{
    match kind {
        LineKind::Short => b"Short",
        LineKind::Wide => b"Wide",
        LineKind::LongForm => b"LongForm",
        LineKind::ManyOps => b"ManyOps",
        LineKind::ZeroRange => b"ZeroRange",
        LineKind::OpcodeBaseZero => b"OpcodeBaseZero",
        LineKind::LineOut => b"LineOut",
        LineKind::AddressLength => b"AddressLength",
        LineKind::Unended => b"Unended",
        LineKind::AddressSize => b"AddressSize",
        LineKind::SegmentSize => b"SegmentSize",
        LineKind::FormOut => b"FormOut",
        LineKind::EmptyEntries => b"EmptyEntries",
        LineKind::TextOut => b"TextOut",
    }
}

/// The name of a source's kind of fault.
pub fn asm_kind_name(kind: AsmKind) -> &'static [u8]
    ensures { result.now ≡ asm_kind_name kind }
{
    match kind {
        AsmKind::Lines => b"Lines",
        AsmKind::Byte => b"Byte",
        AsmKind::Token => b"Token",
        AsmKind::Twice => b"Twice",
        AsmKind::Name => b"Name",
        AsmKind::Section => b"Section",
        AsmKind::Operand => b"Operand",
        AsmKind::Range => b"Range",
        AsmKind::Much => b"Much",
        AsmKind::Missing => b"Missing",
        AsmKind::Far => b"Far",
        AsmKind::Empty => b"Empty",
    }
}
