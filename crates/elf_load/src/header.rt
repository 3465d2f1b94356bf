//! The header of a file.

ghost use Rattle.std.specs.Prelude.{◌≡◌, Err};
ghost use Rattle.elf_load.specs.Faults.{Judges, first_row, header_rows};

use crate::codes::{
    E_FLAGS, E_MACHINE, E_PHENTSIZE, E_PHNUM, E_PHOFF, E_SHENTSIZE, E_SHNUM, E_SHOFF, E_SHSTRNDX,
    E_TYPE, EF_RISCV_RVC, EHDR_SIZE, EI_CLASS, EI_DATA, ELFCLASS64, ELFDATA2LSB, ELFMAG, EM_RISCV,
    ET_EXEC, PHDR_SIZE, PN_XNUM, SHDR_SIZE,
};
use crate::fields::{double_at, half_at, runs_past, word_at};
use crate::{ElfFault, ElfKind};

fn fault(kind: ElfKind, place: u64) -> Result<(), ElfFault>
    ensures { result ≡ Err (record { kind = kind; place = place }) }
{
    Err(ElfFault { kind, place })
}

/// Checks the header of a file. Err is its first fault.
pub fn check_header(file: &[u8]) -> Result<(), ElfFault>
    ensures { Judges result (first_row (header_rows file.now)) }
{
    if file.len() < EHDR_SIZE {
        return fault(ElfKind::NotElf, file.len() as u64);
    }
    if file[..4] != ELFMAG[..] {
        return fault(ElfKind::NotElf, 0);
    }
    if file[EI_CLASS] != ELFCLASS64 {
        return fault(ElfKind::NotClass64, EI_CLASS as u64);
    }
    if file[EI_DATA] != ELFDATA2LSB {
        return fault(ElfKind::NotLittle, EI_DATA as u64);
    }
    if half_at(file, E_TYPE) != ET_EXEC {
        return fault(ElfKind::NotExec, E_TYPE as u64);
    }
    if half_at(file, E_MACHINE) != EM_RISCV {
        return fault(ElfKind::NotRiscv, E_MACHINE as u64);
    }
    if word_at(file, E_FLAGS) % 2 == EF_RISCV_RVC {
        return fault(ElfKind::Compressed, E_FLAGS as u64);
    }
    let segments = half_at(file, E_PHNUM);
    if segments == PN_XNUM {
        return fault(ElfKind::HeaderOut, E_PHNUM as u64);
    }
    if segments != 0 && half_at(file, E_PHENTSIZE) != PHDR_SIZE as u16 {
        return fault(ElfKind::HeaderOut, E_PHENTSIZE as u64);
    }
    if runs_past(
        file,
        double_at(file, E_PHOFF),
        PHDR_SIZE as u64 * segments as u64,
    ) {
        return fault(ElfKind::HeaderOut, E_PHOFF as u64);
    }
    let sections = half_at(file, E_SHNUM);
    if sections != 0 && half_at(file, E_SHENTSIZE) != SHDR_SIZE as u16 {
        return fault(ElfKind::HeaderOut, E_SHENTSIZE as u64);
    }
    if runs_past(
        file,
        double_at(file, E_SHOFF),
        SHDR_SIZE as u64 * sections as u64,
    ) {
        return fault(ElfKind::HeaderOut, E_SHOFF as u64);
    }
    if sections != 0 && half_at(file, E_SHSTRNDX) >= sections {
        return fault(ElfKind::HeaderOut, E_SHSTRNDX as u64);
    }
    Ok(())
}
