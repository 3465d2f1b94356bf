//! Tests of `elf_load`.
ghost use Rattle.std.specs.Prelude.{◌≤◌};

use crate::checks::check_equal;
use coz_types::{Area, Rights};
use elf_load::ElfKind::*;
use elf_load::codes::{
    E_ENTRY, E_FLAGS, E_MACHINE, E_PHENTSIZE, E_PHNUM, E_PHOFF, E_SHENTSIZE, E_SHNUM, E_SHOFF,
    E_SHSTRNDX, E_TYPE, EHDR_SIZE, EI_CLASS, EI_DATA, ELFCLASS64, ELFDATA2LSB, P_FILESZ, P_FLAGS,
    P_MEMSZ, P_OFFSET, P_TYPE, P_VADDR, PHDR_SIZE, SH_FLAGS, SH_NAME, SH_OFFSET, SH_SIZE, SH_TYPE,
};
use elf_load::{ElfFault, ElfKind, LoadError, load, section};
use std::alloc::{AllocError, Global};
use std::process::Abort;
use std::test::Fail;

/// An offset and the bytes that go there.
type Change = (usize, &'static [u8]);

const ONES: [u8; 8] = [255; 8];

// Fields that nothing reads, of the header of the file and of a program header.
const EI_VERSION: usize = 6;

const E_VERSION: usize = 20;

const E_EHSIZE: usize = 52;

const P_PADDR: usize = 24;

const P_ALIGN: usize = 48;

// The offsets of the program headers: that of the good file, and a second one.
const FIRST_HEADER: usize = EHDR_SIZE;

const SECOND_HEADER: usize = EHDR_SIZE + PHDR_SIZE;

// The offsets of what the good file has after the header of its text: the instructions, the names
// of the sections, the name `.debug_line` among them, and the section headers.
const TEXT: usize = 4096;

const NAMES: usize = 4174;

const NAME_OF_LINES: usize = 4187;

const TEXT_HEADER: usize = 4280;

const DATA_HEADER: usize = 4344;

const LINES_HEADER: usize = 4408;

const NAMES_HEADER: usize = 4472;

/// The good file: what is not zero in 4,536 bytes, which are three instructions at 0x10000 and four
/// sections. The lowest byte of a number is first.
/// By the System V gABI, chapters 4 and 5.
static GOOD: [Change; 44] = [
    (0, b"\x7FELF"),
    (EI_CLASS, &[ELFCLASS64]),
    (EI_DATA, &[ELFDATA2LSB]),
    (EI_VERSION, &[1]),
    (E_TYPE, &[2]),
    (E_MACHINE, &[243]),
    (E_VERSION, &[1]),
    (E_ENTRY, &[0, 0, 1]),
    (E_PHOFF, &[64]),
    (E_SHOFF, &[0x78, 0x10]),
    (E_EHSIZE, &[64]),
    (E_PHENTSIZE, &[56]),
    (E_PHNUM, &[1]),
    (E_SHENTSIZE, &[64]),
    (E_SHNUM, &[5]),
    (E_SHSTRNDX, &[4]),
    // PT_LOAD, with PF_R and PF_X.
    (FIRST_HEADER + P_TYPE, &[1]),
    (FIRST_HEADER + P_FLAGS, &[5]),
    (FIRST_HEADER + P_OFFSET, &[0, 0x10]),
    (FIRST_HEADER + P_VADDR, &[0, 0, 1]),
    (FIRST_HEADER + P_PADDR, &[0, 0, 1]),
    (FIRST_HEADER + P_FILESZ, &[12]),
    (FIRST_HEADER + P_MEMSZ, &[12]),
    (FIRST_HEADER + P_ALIGN, &[0, 0x10]),
    // addi a0, x0, 0; addi a7, x0, 93; ecall.
    (TEXT, &[0x13, 5, 0, 0, 0x93, 8, 0xD0, 5, 0x73]),
    // The unit_length of `.debug_line`.
    (4108, &[62]),
    (NAMES, b"\0.text\0.data\0.debug_line\0.shstrtab\0"),
    // SHT_PROGBITS, with SHF_ALLOC and SHF_EXECINSTR.
    (TEXT_HEADER + SH_NAME, &[1]),
    (TEXT_HEADER + SH_TYPE, &[1]),
    (TEXT_HEADER + SH_FLAGS, &[6]),
    (TEXT_HEADER + SH_OFFSET, &[0, 0x10]),
    (TEXT_HEADER + SH_SIZE, &[12]),
    // SHT_PROGBITS, with SHF_WRITE and SHF_ALLOC, and no bytes.
    (DATA_HEADER + SH_NAME, &[7]),
    (DATA_HEADER + SH_TYPE, &[1]),
    (DATA_HEADER + SH_FLAGS, &[3]),
    (DATA_HEADER + SH_OFFSET, &[0x0C, 0x10]),
    // SHT_PROGBITS.
    (LINES_HEADER + SH_NAME, &[13]),
    (LINES_HEADER + SH_TYPE, &[1]),
    (LINES_HEADER + SH_OFFSET, &[0x0C, 0x10]),
    (LINES_HEADER + SH_SIZE, &[66]),
    // SHT_STRTAB.
    (NAMES_HEADER + SH_NAME, &[25]),
    (NAMES_HEADER + SH_TYPE, &[3]),
    (NAMES_HEADER + SH_OFFSET, &[0x4E, 0x10]),
    (NAMES_HEADER + SH_SIZE, &[35]),
];

// A second program header: a page at 0x20000 that may be written, with one byte of memory.
const SECOND: [Change; 5] = [
    (E_PHNUM, &[2]),
    (SECOND_HEADER + P_TYPE, &[1]),
    (SECOND_HEADER + P_FLAGS, &[2]),
    (SECOND_HEADER + P_VADDR, &[0, 0, 2]),
    (SECOND_HEADER + P_MEMSZ, &[1]),
];

fn put(file: &mut [u8], place: usize, bytes: &[u8]) {
    for (to, from) in file.iter_mut().skip(place).zip(bytes) {
        *to = *from;
    }
}

fn put_each(file: &mut [u8], changes: &[Change]) {
    for &(place, bytes) in changes {
        put(file, place, bytes);
    }
}

/// The good file with these changes.
fn changed(changes: &[Change]) -> [u8; 4536] {
    let mut file = [0; 4536];
    put_each(&mut file, &GOOD);
    put_each(&mut file, changes);
    file
}

fn fault_of(alloc: Global, file: &[u8]) -> Option<LoadError> {
    load(alloc, file).err()
}

fn fault(kind: ElfKind, place: usize) -> Option<LoadError> {
    Some(LoadError::Fault(ElfFault {
        kind,
        place: place as u64,
    }))
}

/// Changes of the good file, and the fault that they make, with its offset.
type Fault = (&'static [Change], ElfKind, usize);

/// Faults of the header and of the sections.
/// These, and those of the next two tables, are by hand, from docs/FORMATS.md, Program file.
static HEADERS: [Fault; 22] = [
    (&[(1, &[0])], NotElf, 0),
    (&[(EI_CLASS, &[1])], NotClass64, EI_CLASS),
    (&[(EI_DATA, &[2])], NotLittle, EI_DATA),
    (&[(E_TYPE, &[3])], NotExec, E_TYPE),
    (&[(E_MACHINE, &[62])], NotRiscv, E_MACHINE),
    (&[(E_FLAGS, &[1])], Compressed, E_FLAGS),
    (&[(E_PHNUM, &[255, 255])], HeaderOut, E_PHNUM),
    (&[(E_PHENTSIZE, &[55])], HeaderOut, E_PHENTSIZE),
    (&[(E_PHNUM, &[80])], HeaderOut, E_PHOFF),
    (&[(E_PHOFF, &ONES)], HeaderOut, E_PHOFF),
    (&[(E_SHENTSIZE, &[63])], HeaderOut, E_SHENTSIZE),
    (&[(E_SHNUM, &[6])], HeaderOut, E_SHOFF),
    // 2^64 - 64, and one header of 64 bytes.
    (
        &[(E_SHOFF, &[192, 255, 255, 255, 255, 255, 255, 255])],
        HeaderOut,
        E_SHOFF,
    ),
    (&[(E_SHSTRNDX, &[5])], HeaderOut, E_SHSTRNDX),
    (
        &[(FIRST_HEADER + P_FILESZ, &[12, 32])],
        HeaderOut,
        FIRST_HEADER,
    ),
    // 2^64 - 4, and 12 bytes.
    (
        &[(
            FIRST_HEADER + P_OFFSET,
            &[252, 255, 255, 255, 255, 255, 255, 255],
        )],
        HeaderOut,
        FIRST_HEADER,
    ),
    (
        &[(LINES_HEADER + SH_SIZE, &[66, 0, 1])],
        HeaderOut,
        LINES_HEADER,
    ),
    (&[(LINES_HEADER + SH_SIZE, &ONES)], HeaderOut, LINES_HEADER),
    // SHF_COMPRESSED.
    (
        &[(LINES_HEADER + SH_FLAGS, &[0, 8])],
        PackedLines,
        LINES_HEADER,
    ),
    // The name counts, though a NOBITS section is not found by it.
    (
        &[
            (LINES_HEADER + SH_TYPE, &[8]),
            (LINES_HEADER + SH_FLAGS, &[0, 8]),
        ],
        PackedLines,
        LINES_HEADER,
    ),
    // The two sections of strings.
    (
        &[
            (NAME_OF_LINES, b".debug_str\0"),
            (LINES_HEADER + SH_FLAGS, &[0, 8]),
        ],
        PackedLines,
        LINES_HEADER,
    ),
    (
        &[
            (NAME_OF_LINES, b".debug_line_str\0"),
            (LINES_HEADER + SH_FLAGS, &[0, 8]),
        ],
        PackedLines,
        LINES_HEADER,
    ),
];

/// Faults of the program headers and of the entry.
static SEGMENTS: [Fault; 13] = [
    // PT_INTERP.
    (&[(FIRST_HEADER + P_TYPE, &[3])], Interp, FIRST_HEADER),
    (&[(FIRST_HEADER + P_MEMSZ, &[11])], SizeOrder, FIRST_HEADER),
    (
        &[
            (E_PHNUM, &[2]),
            (SECOND_HEADER + P_TYPE, &[1]),
            (SECOND_HEADER + P_FILESZ, &[1]),
        ],
        SizeOrder,
        SECOND_HEADER,
    ),
    (
        &[(FIRST_HEADER + P_VADDR, &[0, 0, 0])],
        AddressOut,
        FIRST_HEADER,
    ),
    (
        &[(FIRST_HEADER + P_VADDR, &[0, 0, 1, 0, 32])],
        AddressOut,
        FIRST_HEADER,
    ),
    (&[(FIRST_HEADER + P_VADDR, &ONES)], AddressOut, FIRST_HEADER),
    (
        &[(FIRST_HEADER + P_FLAGS, &[7])],
        WritableCode,
        FIRST_HEADER,
    ),
    (
        &[
            (E_PHNUM, &[2]),
            (SECOND_HEADER + P_TYPE, &[1]),
            (SECOND_HEADER + P_VADDR, &[16, 0, 1]),
            (SECOND_HEADER + P_MEMSZ, &[1]),
        ],
        SharedPage,
        SECOND_HEADER,
    ),
    (
        &[
            (E_PHNUM, &[2]),
            (SECOND_HEADER + P_TYPE, &[1]),
            (SECOND_HEADER + P_VADDR, &[0, 0, 2]),
            (SECOND_HEADER + P_MEMSZ, &[0, 0, 0, 4]),
        ],
        TooMuch,
        SECOND_HEADER,
    ),
    (&[(E_ENTRY, &[2])], EntryOut, E_ENTRY),
    (&[(E_ENTRY, &[12])], EntryOut, E_ENTRY),
    (&[(FIRST_HEADER + P_FLAGS, &[4])], EntryOut, E_ENTRY),
    // The last page that a program may have.
    (
        &[(FIRST_HEADER + P_VADDR, &[0, 240, 255, 255, 31])],
        EntryOut,
        E_ENTRY,
    ),
];

/// Two faults, of which the one of the earlier row of `ElfKind` counts, and else the one of the
/// earlier entry.
static TWO_FAULTS: [Fault; 6] = [
    (
        &[(E_FLAGS, &[1]), (FIRST_HEADER + P_FLAGS, &[7])],
        Compressed,
        E_FLAGS,
    ),
    (
        &[
            (LINES_HEADER + SH_FLAGS, &[0, 8]),
            (FIRST_HEADER + P_TYPE, &[3]),
        ],
        PackedLines,
        LINES_HEADER,
    ),
    (
        &[
            (FIRST_HEADER + P_MEMSZ, &[11]),
            (FIRST_HEADER + P_VADDR, &[0, 0, 0]),
        ],
        SizeOrder,
        FIRST_HEADER,
    ),
    (
        &[(FIRST_HEADER + P_FLAGS, &[7]), (E_ENTRY, &[2])],
        WritableCode,
        FIRST_HEADER,
    ),
    (
        &[
            (E_PHNUM, &[2]),
            (FIRST_HEADER + P_MEMSZ, &[11]),
            (SECOND_HEADER + P_TYPE, &[3]),
        ],
        Interp,
        SECOND_HEADER,
    ),
    (
        &[
            (E_PHNUM, &[2]),
            (FIRST_HEADER + P_MEMSZ, &[11]),
            (SECOND_HEADER + P_TYPE, &[1]),
            (SECOND_HEADER + P_FILESZ, &[1]),
        ],
        SizeOrder,
        FIRST_HEADER,
    ),
];

fn check_faults(rt: &impl Abort, alloc: Global, rows: &[Fault]) {
    for (row, &(changes, kind, place)) in rows.iter().enumerate() {
        let found = fault_of(alloc, &changed(changes));
        check_equal(rt, (row, found), (row, fault(kind, place)));
    }
}

#[test]
fn wrong_files_have_their_fault_and_its_offset(rt: HostRuntime) {
    check_faults(&rt, rt.alloc(), &HEADERS);
    check_faults(&rt, rt.alloc(), &SEGMENTS);
    check_faults(&rt, rt.alloc(), &TWO_FAULTS);
}

/// The fault of the good file that is cut to that length.
fn fault_of_cut(len: usize) -> Option<LoadError> {
    match len {
        0..64 => fault(NotElf, len),
        64..120 => fault(HeaderOut, E_PHOFF),
        _ => fault(HeaderOut, E_SHOFF),
    }
}

#[test]
fn a_file_that_is_cut_has_a_fault(rt: HostRuntime) {
    let file = changed(&[]);
    for len in 0..4536usize {
        let found = fault_of(rt.alloc(), &file[..len]);
        check_equal(&rt, (len, found), (len, fault_of_cut(len)));
    }
}

/// Puts a PT_LOAD with PF_R and PF_X at an offset, with one byte of memory at this address.
fn put_header(file: &mut [u8], place: usize, vaddr: u64)
    requires { place ≤ 3670000 }
{
    put(file, place + P_TYPE, &[1]);
    put(file, place + P_FLAGS, &[5]);
    put(file, place + P_VADDR, &vaddr.to_le_bytes());
    put(file, place + P_MEMSZ, &[1]);
}

/// As many program headers as there may be, each with a page of its own.
fn put_headers(file: &mut [u8]) {
    for index in 0..65534u32 {
        let place = EHDR_SIZE + PHDR_SIZE * index as usize;
        put_header(file, place, 0x1000_0000 - 4096 * index as u64);
    }
}

/// The good file's header with no sections, and those program headers.
fn many_headers(alloc: Global) -> Result<Vec<u8>, AllocError> {
    let mut file = vec![in alloc; 0u8; 64 + 56 * 65534]?;
    for &(place, bytes) in &GOOD {
        if place < EHDR_SIZE {
            put(&mut file, place, bytes);
        }
    }
    put(&mut file, E_PHNUM, &[254, 255]);
    put(&mut file, E_SHENTSIZE, &[0]);
    put(&mut file, E_SHNUM, &[0]);
    put(&mut file, E_SHSTRNDX, &[0]);
    put_headers(&mut file);
    Ok(file)
}

#[test]
fn a_fault_among_65534_program_headers_has_its_offset(rt: HostRuntime) -> Result<(), Fail> {
    let mut file = many_headers(rt.alloc())?;
    let too_much = fault_of(rt.alloc(), &file);
    let last = FIRST_HEADER + PHDR_SIZE * 65533;
    put(&mut file, last + P_VADDR, &0x1000_0000u64.to_le_bytes());
    let shared = fault_of(rt.alloc(), &file);
    let place = FIRST_HEADER + PHDR_SIZE * 16384;
    check_equal(
        &rt,
        (too_much, shared),
        (fault(TooMuch, place), fault(SharedPage, last)),
    );
    Ok(())
}

const FIRST: Area = Area {
    start: 0x10000,
    size: 4096,
    rights: Rights {
        read: true,
        write: false,
        execute: true,
    },
    vaddr: 0x10000,
    offset: 4096,
    filled: 12,
};

const WRITABLE: Area = Area {
    start: 0x20000,
    size: 4096,
    rights: Rights {
        read: true,
        write: true,
        execute: false,
    },
    vaddr: 0x20000,
    offset: 0,
    filled: 0,
};

const WHOLE: Area = Area {
    size: 8192,
    offset: 0,
    filled: 4536,
    ..FIRST
};

const FAR: Area = Area {
    offset: 4536,
    ..WRITABLE
};

const LARGE: Area = Area {
    size: 0x3FFF000,
    ..WRITABLE
};

/// Changes of the good file, its areas, the address of its program headers, and how many
/// bytes of lines it has.
type Loaded = (&'static [Change], &'static [Area], u64, usize);

/// By hand, from the changed fields.
static LOADED: [Loaded; 9] = [
    (&[], &[FIRST], 0, 66),
    (&SECOND, &[FIRST, WRITABLE], 0, 66),
    // The areas have 64 MiB together.
    (
        &[
            (E_PHNUM, &[2]),
            (SECOND_HEADER + P_TYPE, &[1]),
            (SECOND_HEADER + P_FLAGS, &[2]),
            (SECOND_HEADER + P_VADDR, &[0, 0, 2]),
            (SECOND_HEADER + P_MEMSZ, &[0, 240, 255, 3]),
        ],
        &[FIRST, LARGE],
        0,
        66,
    ),
    // The program headers are loaded.
    (
        &[
            (FIRST_HEADER + P_OFFSET, &[0, 0]),
            (FIRST_HEADER + P_FILESZ, &[0xB8, 0x11]),
            (FIRST_HEADER + P_MEMSZ, &[0xB8, 0x11]),
        ],
        &[WHOLE],
        0x10040,
        66,
    ),
    // No bytes of a file are within it, wherever they begin.
    (
        &[
            (E_PHNUM, &[2]),
            (SECOND_HEADER + P_TYPE, &[1]),
            (SECOND_HEADER + P_FLAGS, &[2]),
            (SECOND_HEADER + P_OFFSET, &ONES),
            (SECOND_HEADER + P_VADDR, &[0, 0, 2]),
            (SECOND_HEADER + P_MEMSZ, &[1]),
        ],
        &[FIRST, FAR],
        0,
        66,
    ),
    (&[(E_SHOFF, &ONES), (E_SHNUM, &[0])], &[FIRST], 0, 0),
    (&[(DATA_HEADER + SH_OFFSET, &ONES)], &[FIRST], 0, 66),
    // A name that has no end is none.
    (&[(LINES_HEADER + SH_NAME, &[34])], &[FIRST], 0, 0),
    // The names end with the name of the lines, without its zero byte.
    (&[(NAMES_HEADER + SH_SIZE, &[24])], &[FIRST], 0, 0),
];

fn check_image(rt: &impl Abort, alloc: Global, row: &Loaded) -> Result<(), LoadError> {
    let &(changes, areas, headers, lines) = row;
    let file = changed(changes);
    let image = load(alloc, &file)?;
    let found = match section(&image, b".debug_line") {
        Some(bytes) => bytes.len(),
        None => 0,
    };
    check_equal(
        rt,
        (image.areas(), image.entry(), image.headers(), found),
        (areas, 0x10000, headers, lines),
    );
    drop(image);
    Ok(())
}

#[test]
fn files_without_a_fault_are_loaded(rt: HostRuntime) -> Result<(), Fail> {
    for row in &LOADED {
        check_image(&rt, rt.alloc(), row)?;
    }
    Ok(())
}

/// A name, and the offsets of the first byte and after the last byte of the section of that name
/// in the good file.
/// By hand, from the section headers of the good file.
static SECTIONS: [(&str, Option<(usize, usize)>); 7] = [
    (".text", Some((4096, 4108))),
    (".data", Some((4108, 4108))),
    ("", None),
    (".tex", None),
    (".text\0", None),
    ("text", None),
    (".bss", None),
];

#[test]
fn sections_are_found_by_their_names(rt: HostRuntime) -> Result<(), Fail> {
    let file = changed(&[]);
    let image = load(rt.alloc(), &file)?;
    for &(name, places) in &SECTIONS {
        let expected = match places {
            Some((start, end)) => file.get(start..end),
            None => None,
        };
        let found = section(&image, name.as_bytes());
        check_equal(&rt, (name, found), (name, expected));
    }
    drop(image);
    Ok(())
}
