//! The places of a file's fields and the codes in them (ELF64 object file format; System V ABI;
//! RISC-V ELF psABI).

/// The bytes of a file's header.
pub const EHDR_SIZE: usize = 64;
/// The bytes of a program header.
pub const PHDR_SIZE: usize = 56;
/// The bytes of a section header.
pub const SHDR_SIZE: usize = 64;

// The places of fields in the file's header (gABI, "ELF Header").

/// e_ident[EI_CLASS], the class of the file, one byte.
pub const EI_CLASS: usize = 4;
/// e_ident[EI_DATA], the order of the bytes of a number, one byte.
pub const EI_DATA: usize = 5;
/// e_type, the kind of the file, two bytes.
pub const E_TYPE: usize = 16;
/// e_machine, the machine that it is for, two bytes.
pub const E_MACHINE: usize = 18;
/// e_entry, the address of the first instruction, eight bytes.
pub const E_ENTRY: usize = 24;
/// e_phoff, the offset of the program headers, eight bytes.
pub const E_PHOFF: usize = 32;
/// e_shoff, the offset of the section headers, eight bytes.
pub const E_SHOFF: usize = 40;
/// e_flags, the machine's flags, four bytes.
pub const E_FLAGS: usize = 48;
/// e_phentsize, the bytes of a program header, two bytes.
pub const E_PHENTSIZE: usize = 54;
/// e_phnum, how many program headers there are, two bytes.
pub const E_PHNUM: usize = 56;
/// e_shentsize, the bytes of a section header, two bytes.
pub const E_SHENTSIZE: usize = 58;
/// e_shnum, how many section headers there are, two bytes.
pub const E_SHNUM: usize = 60;
/// e_shstrndx, the number of the section that holds the names, two bytes.
pub const E_SHSTRNDX: usize = 62;

// The codes of these fields.

/// The first four bytes of a file.
pub const ELFMAG: [u8; 4] = [0x7F, b'E', b'L', b'F'];
/// The e_ident[EI_CLASS] of 64-bit files.
pub const ELFCLASS64: u8 = 2;
/// The e_ident[EI_DATA] of numbers that have their lowest byte first.
pub const ELFDATA2LSB: u8 = 1;
/// The kind of a program with fixed addresses.
pub const ET_EXEC: u16 = 2;
/// The machine RISC-V (RISC-V ELF psABI, "File Header").
pub const EM_RISCV: u16 = 243;
/// e_flags: bit 0, the code has compressed instructions (RISC-V ELF psABI, e_flags).
pub const EF_RISCV_RVC: u32 = 1;
/// The e_phnum of a file whose number of program headers does not fit (PN_XNUM).
pub const PN_XNUM: u16 = 0xFFFF;

// The places of fields in a program header (gABI, "Program Header").

/// p_type, what the header describes, four bytes.
pub const P_TYPE: usize = 0;
/// p_flags, the rights, four bytes.
pub const P_FLAGS: usize = 4;
/// p_offset, the offset of its bytes in the file, eight bytes.
pub const P_OFFSET: usize = 8;
/// p_vaddr, their address in memory, eight bytes.
pub const P_VADDR: usize = 16;
/// p_filesz, how many bytes it has in the file, eight bytes.
pub const P_FILESZ: usize = 32;
/// p_memsz, how many it has in memory, eight bytes.
pub const P_MEMSZ: usize = 40;

// The codes of its type.

/// The p_type of bytes that are loaded.
pub const PT_LOAD: u32 = 1;
/// The p_type of the path of an interpreter.
pub const PT_INTERP: u32 = 3;

// The bits of its flags, counted from 0.

/// The bit of p_flags, from 0, by which the bytes may be executed.
pub const PF_X: u32 = 0;
/// The bit of p_flags, from 0, by which the bytes may be written.
pub const PF_W: u32 = 1;
/// The bit of p_flags, from 0, by which the bytes may be read.
pub const PF_R: u32 = 2;

// The places of fields in a section header (gABI, "Sections").

/// sh_name, the offset of the name among the names, four bytes.
pub const SH_NAME: usize = 0;
/// sh_type, what the section holds, four bytes.
pub const SH_TYPE: usize = 4;
/// sh_flags, eight bytes.
pub const SH_FLAGS: usize = 8;
/// sh_offset, the offset of its bytes in the file, eight bytes.
pub const SH_OFFSET: usize = 24;
/// sh_size, how many bytes it has, eight bytes.
pub const SH_SIZE: usize = 32;

// The codes of its type, and a bit of its flags.

/// The sh_type of an unused section header (SHT_NULL).
pub const SHT_NULL: u32 = 0;
/// The sh_type of a section with no bytes in the file.
pub const SHT_NOBITS: u32 = 8;
/// The bit of sh_flags that says that the section is compressed, counted from 0.
pub const SHF_COMPRESSED: u32 = 11;
