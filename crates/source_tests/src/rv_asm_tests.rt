//! Tests of `rv_asm`.
use rv_asm::{AsmError, AsmKind, TEXT_START, assemble};
use std::alloc::Global;
use std::test::Fail;

/// The kind, line and column of a source's fault.
fn fault_of(alloc: Global, source: &[u8]) -> Option<(AsmKind, u32, u32)> {
    if source.len() > 4_194_304 {
        return None;
    }
    match assemble(alloc, source) {
        Err(AsmError::Fault(fault)) => Some((fault.kind, fault.line, fault.column)),
        _ => None,
    }
}

/// The one word of a source's text or the two, the first in the lower half, and its entry.
fn program_of(alloc: Global, source: &[u8]) -> Option<(u64, u64)> {
    if source.len() > 4_194_304 {
        return None;
    }
    match assemble(alloc, source) {
        Ok(made) => match made.text.as_slice() {
            [a, b, c, d] => {
                let word = u32::from_le_bytes([*a, *b, *c, *d]);
                Some((u64::from(word), made.entry))
            }
            [a, b, c, d, e, f, g, h] => {
                let words = u64::from_le_bytes([*a, *b, *c, *d, *e, *f, *g, *h]);
                Some((words, made.entry))
            }
            _ => None,
        },
        _ => None,
    }
}

/// Sources, and the kind, line and column of their first fault. The positions are those
/// of an implementation that was written apart from this one.
static FAULTS: [(&[u8], AsmKind, u32, u32); 22] = [
    (b"    addi a0, x0, 2048", AsmKind::Range, 1, 18),
    (b"", AsmKind::Empty, 1, 1),
    (b"addi a0 x0, 0", AsmKind::Operand, 1, 9),
    (b"foo", AsmKind::Name, 1, 1),
    (b"j nowhere", AsmKind::Missing, 1, 3),
    (b".data\naddi x0, x0, 0", AsmKind::Section, 2, 1),
    (b"nop ; x", AsmKind::Token, 1, 5),
    (b"x: x: nop", AsmKind::Twice, 1, 4),
    (b"nop\nnop # \x01", AsmKind::Byte, 2, 7),
    // two on a line, and two on two lines
    (b"x: x: foo", AsmKind::Twice, 1, 4),
    (b"foo @", AsmKind::Token, 1, 5),
    (b"@ \x7F", AsmKind::Byte, 1, 3),
    (b"j nowhere\nfoo", AsmKind::Name, 2, 1),
    (b".byte 300 x", AsmKind::Section, 1, 1),
    (b".data\n.byte 300 x", AsmKind::Range, 2, 7),
    (b"j a\nj b", AsmKind::Missing, 1, 3),
    (b".data\n.zero 1048576\n.byte 1", AsmKind::Much, 3, 1),
    (
        b".data\n.byte 1\n.align 12\n.zero 1044481",
        AsmKind::Much,
        4,
        1,
    ),
    (b"nop\nj t\n.data\n.zero 1044484\nt:", AsmKind::Far, 2, 3),
    (b"beq x0, x0, t\n.data\n.byte 1\nt:", AsmKind::Far, 1, 13),
    // a distance that is odd
    (
        b"nop\nbeq x0, x0, t\n.data\n.byte 1\nt:",
        AsmKind::Far,
        2,
        13,
    ),
    (b".data\n.dword t", AsmKind::Missing, 2, 8),
];

#[test]
fn the_first_fault_is_reported(rt: HostRuntime) {
    for &(source, kind, line, column) in &FAULTS {
        assert_eq!(rt; fault_of(rt.alloc(), source), Some((kind, line, column)));
    }
}

#[test]
fn lines_are_counted(rt: HostRuntime) -> Result<(), Fail> {
    let lines = vec![in rt.alloc(); b'\n'; 65_537]?;
    let of_all = fault_of(rt.alloc(), &lines);
    assert_eq!(rt; of_all, Some((AsmKind::Lines, 65_537, 1)));
    let of_one_less = fault_of(rt.alloc(), &lines[1..]);
    assert_eq!(rt; of_one_less, Some((AsmKind::Empty, 1, 1)));
    Ok(())
}

/// Statements, the words that the GNU assembler makes of them, the first in the lower half,
/// and where the program begins. The last fills a section up to its limit.
static WORDS: [(&[u8], u64, u64); 19] = [
    (b"add x23, x13, x21", 0x0156_8bb3, TEXT_START),
    (b"ld x4, 1406(x24)", 0x57ec_3203, TEXT_START),
    (b"sd x31, -1(x26)", 0xfffd_3fa3, TEXT_START),
    (b"t: beq x27, x3, t", 0x003d_8063, TEXT_START),
    (b"jalr x22, 0(x31)", 0x000f_8b67, TEXT_START),
    (b"lui x29, 1048575", 0xffff_feb7, TEXT_START),
    (b"auipc x4, 1", 0x0000_1217, TEXT_START),
    (b"lr.w x22, (x6)", 0x1003_2b2f, TEXT_START),
    (b"amoadd.w.aq x0, x8, (x29)", 0x048e_a02f, TEXT_START),
    (b"sc.d.aqrl x13, x6, (x18)", 0x1e69_36af, TEXT_START),
    (b"fence", 0x0ff0_000f, TEXT_START),
    (b"ecall", 0x0000_0073, TEXT_START),
    (b"li a0, -2048", 0x8000_0513, TEXT_START),
    (b"li a0, 2048", 0x8005_051b_0000_1537, TEXT_START),
    (b"mv a0, fp", 0x0004_0513, TEXT_START),
    (b"ret", 0x0000_8067, TEXT_START),
    (b"_start: nop # \" not a text", 0x0000_0013, TEXT_START),
    (b"nop\n_start: nop", 0x0000_0013_0000_0013, TEXT_START + 4),
    (b"nop\n.data\n.zero 1048576", 0x0000_0013, TEXT_START),
];

#[test]
fn statements_assemble_to_their_instructions(rt: HostRuntime) {
    for &(source, words, entry) in &WORDS {
        assert_eq!(rt; program_of(rt.alloc(), source), Some((words, entry)));
    }
}
