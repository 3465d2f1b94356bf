//! A program whose paths have more bytes together than those of small programs.
use crate::files::files_of;
use crate::functions_tests::check_lines;
use crate::programs::Row;
use std::alloc::{AllocError, Global};
use std::test::Fail;

/// The parts of a program, each as often as its number says: the function `main` of 200
/// instructions from 0x10078 on, which are the lines 1 to 200 of a path of 200 bytes.
/// readelf and llvm-dwarfdump print this function and these lines.
static LONG: [(&[u8], usize); 7] = [
    (
        b"\x7FELF\x02\x01\x01\0\0\0\0\0\0\0\0\0\x02\0\xF3\0\x01\0\0\0x\0\x01\0\0\0\0\0@\0\0\0\0\0\
\0\0\xB7\x05\0\0\0\0\0\0\0\0\0\0@\08\0\x01\0@\0\x05\0\x04\0\x01\0\0\0\x05\0\0\0\0\0\0\0\
\0\0\0\0\0\0\x01\0\0\0\0\0\0\0\x01\0\0\0\0\0\x98\x03\0\0\0\0\0\0\x98\x03\0\0\0\0\0\0\0\
\x10\0\0\0\0\0\0",
        1,
    ),
    (b"\x13\0\0\0", 200),
    (
        b"\0\0\0\0\0\0\0\0\0\0\0\0\0\0\0\0\0\0\0\0\0\0\0\0\x01\0\0\0\x12\0\x01\0x\0\x01\0\0\0\0\0 \
\x03\0\0\0\0\0\0\0main\0\xBE\x01\0\0\x04\0\xE0\0\0\0\x01\x01\x01\xFB\x0E\x0D\0\x01\x01\
\x01\x01\0\0\0\x01\0\0\x01\0",
        1,
    ),
    (b"d", 198),
    (b"/m\0\0\0\0\0\0\x09\x02x\0\x01\0\0\0\0\0\x01", 1),
    (b"K", 199),
    (
        b"\x02\x04\0\x01\x01\0.symtab\0.strtab\0.debug_line\0.shstrtab\0\0\0\0\0\0\0\0\0\0\0\0\0\0\
\0\0\0\0\0\0\0\0\0\0\0\0\0\0\0\0\0\0\0\0\0\0\0\0\0\0\0\0\0\0\0\0\0\0\0\0\0\0\0\0\0\0\0\0\
\0\0\0\0\0\0\0\x01\0\0\0\x02\0\0\0\0\0\0\0\0\0\0\0\0\0\0\0\0\0\0\0\x98\x03\0\0\0\0\0\00\
\0\0\0\0\0\0\0\x02\0\0\0\x01\0\0\0\x01\0\0\0\0\0\0\0\x18\0\0\0\0\0\0\0\x09\0\0\0\x03\0\0\
\0\0\0\0\0\0\0\0\0\0\0\0\0\0\0\0\0\xC8\x03\0\0\0\0\0\0\x06\0\0\0\0\0\0\0\0\0\0\0\0\0\0\0\
\x01\0\0\0\0\0\0\0\0\0\0\0\0\0\0\0\x11\0\0\0\x01\0\0\0\0\0\0\0\0\0\0\0\0\0\0\0\0\0\0\0\
\xCE\x03\0\0\0\0\0\0\xC2\x01\0\0\0\0\0\0\0\0\0\0\0\0\0\0\x01\0\0\0\0\0\0\0\0\0\0\0\0\0\0\
\0\x1D\0\0\0\x03\0\0\0\0\0\0\0\0\0\0\0\0\0\0\0\0\0\0\0\x90\x05\0\0\0\0\0\0'\0\0\0\0\0\0\
\0\0\0\0\0\0\0\0\0\x01\0\0\0\0\0\0\0\0\0\0\0\0\0\0\0",
        1,
    ),
];

fn add_times(out: &mut Vec<u8>, part: &[u8], times: usize) -> Result<(), AllocError> {
    for _ in 0..times {
        out.extend_from_slice(part)?;
    }
    Ok(())
}

/// The bytes of parts, each as often as its number says.
fn joined(alloc: Global, parts: &[(&[u8], usize)]) -> Result<Vec<u8>, AllocError> {
    let mut out = Vec::new(alloc);
    for (part, times) in parts {
        add_times(&mut out, *part, *times)?;
    }
    Ok(out)
}

/// The lines of the program are one region. Each of its 200 runs has the path: 40,000 bytes.
/// By hand: docs/FORMATS.md, Programs by function.
static WRITTEN: Row = (
    &["long", "--regions", "m:1-200"],
    0,
    b"skipped 0\ndddddddddddddddddddddddddddddddddddddddddddddddddddddddddddddddddddddd\
dddddddddddddddddddddddddddddddddddddddddddddddddddddddddddddddddddddddddddddddddddddddd\
dddddddddddddddddddddddddddddddddddddddd/m:1\t0x10078\n",
    b"",
);

#[test]
fn a_region_has_a_path_for_each_run_of_its_lines(rt: HostRuntime) -> Result<(), Fail> {
    let program = joined(rt.alloc(), &LONG)?;
    let files = files_of(rt.alloc(), &[("long", &program)])?;
    check_lines(&rt, &files, &WRITTEN)
}
