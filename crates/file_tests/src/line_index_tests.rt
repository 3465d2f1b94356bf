//! Tests of `line_index`.
ghost use Rattle.std.specs.Prelude.{◌≡◌, ◌≤◌, length, IfOk};
ghost use Rattle.coz_types.specs.Image.{IsImage};

use crate::checks::check_equal;
use coz_types::{Address, Area, Image, Items, LineId, Rights};
use dwarf_lines::{FileName, LineTable, Row};
use line_index::{LineIndex, build};
use std::alloc::{AllocError, Global};
use std::process::Abort;
use std::test::Fail;

/// A file without a directory.
pub(crate) const A_S: FileName<'static> = FileName {
    directory: b"",
    name: b"a.s",
};

/// A row that begins a statement, by its sequence, its address, the index of its file, and its
/// line.
pub(crate) type Statement = (u32, Address, u32, u32);

/// The most statements of a table.
const MOST: usize = 16;

fn row((sequence, address, file, line): Statement) -> Row {
    Row {
        sequence,
        address,
        file: Some(file),
        line,
        column: 0,
        is_stmt: true,
        ends: false,
    }
}

fn table_of<'a>(
    alloc: Global,
    files: &[FileName<'a>],
    statements: &[Statement],
) -> Result<LineTable<'a>, AllocError>
    requires { length files.now ≤ 100 }
    ensures files { IfOk result (λ table. length table.files ≤ 100) }
    ensures rows { IfOk result (λ table. length table.rows ≤ 16) }
{
    let mut rows = [row((0, 0, 0, 0)); MOST];
    for (row_at, statement) in rows.iter_mut().zip(statements.iter()) {
        *row_at = row(*statement);
    }
    let count = statements.len().min(MOST);
    Ok(LineTable {
        files: Items::new(Vec::from_slice(alloc, files)?),
        rows: Items::new(Vec::from_slice(alloc, &rows[..count])?),
        skipped: 0,
    })
}

fn index_in(
    alloc: Global,
    image: &Image,
    files: &[FileName],
    statements: &[Statement],
) -> Result<LineIndex, AllocError>
    requires { length files.now ≤ 100 }
{
    let table = table_of(alloc, files, statements)?;
    let index = build(alloc, &table, image);
    // By a call, since a drop in place is proved part by part.
    drop(table);
    index
}

/// A page of zeros.
fn page(start: Address, rights: Rights) -> Area
    ensures { result ≡ record {
      start = start;
      size = 4096;
      rights = rights;
      vaddr = start;
      offset = 0;
      filled = 0;
    } }
{
    Area {
        start,
        size: 4096,
        rights,
        vaddr: start,
        offset: 0,
        filled: 0,
    }
}

/// A page of text, and a page of data behind it.
fn image_of_two_areas(alloc: Global) -> Result<Image<'static>, AllocError> {
    let code = Rights {
        read: true,
        write: false,
        execute: true,
    };
    let data = Rights {
        read: true,
        write: true,
        execute: false,
    };
    let areas = vec![in alloc; page(0x10000, code), page(0x11000, data)]?;
    Ok(Image::new(&[], areas, 0x10000, 0, 0))
}

/// The index of at most 16 statements over a page of text and a page of data behind it.
pub(crate) fn index_of(
    alloc: Global,
    files: &[FileName],
    statements: &[Statement],
) -> Result<LineIndex, AllocError>
    requires { length files.now ≤ 100 }
{
    let image = image_of_two_areas(alloc)?;
    let index = index_in(alloc, &image, files, statements);
    drop(image);
    index
}

/// An index, and what it answers.
struct Case {
    files: &'static [FileName<'static>],
    statements: &'static [Statement],
    /// The label and the entry addresses of each line.
    lines: &'static [(&'static [u8], &'static [Address])],
    /// Addresses and their lines.
    addresses: &'static [(Address, Option<LineId>)],
    /// Paths and numbers, and the lines that are found by them.
    names: &'static [(&'static [u8], u32, Option<LineId>)],
}

const B_S: FileName<'static> = FileName {
    name: b"b.s",
    ..A_S
};

/// By hand, from docs/FORMATS.md: Values, Lines and progress points, and Labels.
static CASES: [Case; 5] = [
    // An address has the line of the first row in the order of the file.
    Case {
        files: &[B_S],
        statements: &[
            (0, 0x10004, 0, 1),
            (0, 0x10008, 0, 1),
            (1, 0x10000, 0, 2),
            (1, 0x10002, 0, 2),
            (1, 0x1000C, 0, 2),
        ],
        lines: &[(b"b.s:1", &[0x10004]), (b"b.s:2", &[0x10000, 0x10008])],
        addresses: &[
            (0x10003, Some(LineId(1))),
            (0x10004, Some(LineId(0))),
            (0x10008, Some(LineId(1))),
            (0x1000C, None),
        ],
        names: &[],
    },
    // Two entries with one path are one file. A row without a path, with a file that has no entry,
    // or with the line 0 has no line, nor has an address after the page of text.
    Case {
        files: &[
            B_S,
            FileName {
                directory: b"d",
                name: b"a, b%.s",
            },
            FileName {
                directory: b"",
                name: b"d/a, b%.s",
            },
            FileName {
                directory: b"",
                name: b"",
            },
        ],
        statements: &[
            (0, 0x10000, 1, 7),
            (0, 0x10004, 2, 7),
            (0, 0x10008, 3, 7),
            (0, 0x1000C, 4, 7),
            (0, 0x10010, 0, 0),
            (0, 0x10014, 0, 9),
            (0, 0x20000, 0, 9),
        ],
        lines: &[(b"b.s:9", &[0x10014]), (b"d/a%2C%20b%25.s:7", &[0x10000])],
        addresses: &[
            (0x10007, Some(LineId(1))),
            (0x10008, None),
            (0x1000C, None),
            (0x10010, None),
            (0x10FFF, Some(LineId(0))),
            (0x11000, None),
        ],
        names: &[(b"a%2C%20b%25.s", 7, Some(LineId(1)))],
    },
    // A row covers no address unless the address of the next row is greater.
    Case {
        files: &[B_S],
        statements: &[
            (0, 0x10008, 0, 1),
            (0, 0x10008, 0, 2),
            (0, 0x10004, 0, 3),
            (0, 0x10010, 0, 4),
        ],
        lines: &[(b"b.s:3", &[0x10004])],
        addresses: &[
            (0x10003, None),
            (0x10004, Some(LineId(0))),
            (0x10008, Some(LineId(0))),
            (0x1000F, Some(LineId(0))),
            (0x10010, None),
        ],
        names: &[],
    },
    // A line is found by its whole path first, and then by an ending after a slash: the first by
    // its path, though not by its path read backwards.
    Case {
        files: &[
            FileName {
                name: b"c/b.s",
                ..A_S
            },
            B_S,
            FileName {
                name: b"a/b.s",
                ..A_S
            },
            FileName {
                name: b"xb.s",
                ..A_S
            },
            FileName {
                name: b"/b.s",
                ..A_S
            },
            FileName {
                name: b"b/a/m.s",
                ..A_S
            },
            FileName {
                name: b"a/b/m.s",
                ..A_S
            },
        ],
        statements: &[
            (0, 0x10000, 0, 9),
            (0, 0x10004, 0, 7),
            (0, 0x10008, 1, 7),
            (0, 0x1000C, 2, 7),
            (0, 0x10010, 3, 9),
            (0, 0x10014, 4, 11),
            (0, 0x10018, 5, 7),
            (0, 0x1001C, 6, 7),
            (0, 0x10020, 0, 1),
        ],
        lines: &[
            (b"/b.s:11", &[0x10014]),
            (b"a/b.s:7", &[0x1000C]),
            (b"a/b/m.s:7", &[0x1001C]),
            (b"b.s:7", &[0x10008]),
            (b"b/a/m.s:7", &[0x10018]),
            (b"c/b.s:7", &[0x10004]),
            (b"c/b.s:9", &[0x10000]),
            (b"xb.s:9", &[0x10010]),
        ],
        addresses: &[],
        names: &[
            (b"b.s", 7, Some(LineId(3))),
            (b"b.s", 9, Some(LineId(6))),
            (b"m.s", 7, Some(LineId(2))),
            (b"b.s", 11, Some(LineId(0))),
            (b"/b.s", 11, Some(LineId(0))),
            (b"a/b.s", 7, Some(LineId(1))),
            (b"/b.s", 7, None),
            (b"b.s", 1, None),
            (b".s", 7, None),
            (b"", 7, None),
        ],
    },
    // Labels are escaped, and in order by path and by number.
    Case {
        files: &[
            FileName {
                name: b" %,\x7F~!\xFF",
                ..A_S
            },
            FileName {
                name: b"a b.s",
                ..A_S
            },
            FileName {
                name: b"a!b.s",
                ..A_S
            },
        ],
        statements: &[
            (0, 0x10000, 1, 1),
            (0, 0x10004, 0, 10),
            (0, 0x10008, 0, 9),
            (0, 0x1000C, 2, 1),
            (0, 0x10010, 0, 1),
        ],
        lines: &[
            (b"%20%25%2C%7F~!%FF:9", &[0x10008]),
            (b"%20%25%2C%7F~!%FF:10", &[0x10004]),
            (b"a!b.s:1", &[0x1000C]),
            (b"a%20b.s:1", &[0x10000]),
        ],
        addresses: &[],
        names: &[(b"a%20b.s", 1, Some(LineId(3))), (b"a b.s", 1, None)],
    },
];

/// The label and the entry addresses of a line, if there is one of that number.
fn line_at(index: &LineIndex, number: usize) -> Option<(&[u8], &[Address])> {
    if number < index.count() as usize {
        let line = LineId(number as u32);
        Some((index.label(line).bytes(), index.entries(line)))
    } else {
        None
    }
}

fn check_lines(rt: &impl Abort, index: &LineIndex, lines: &[(&[u8], &[Address])]) {
    check_equal(rt, index.count() as usize, lines.len());
    for (number, line) in lines.iter().enumerate() {
        check_equal(rt, line_at(index, number), Some(*line));
    }
}

fn check_index(rt: &impl Abort, index: &LineIndex, case: &Case) {
    check_lines(rt, index, case.lines);
    for &(address, line) in case.addresses {
        check_equal(rt, (address, index.line_of(address)), (address, line));
    }
    for &(path, number, line) in case.names {
        let found = index.find(path, number);
        check_equal(rt, (path, number, found), (path, number, line));
    }
}

#[test]
fn an_index_has_the_lines_labels_and_entries_of_its_rows(rt: HostRuntime) -> Result<(), Fail> {
    for case in &CASES {
        if case.files.len() <= 100 {
            let index = index_of(rt.alloc(), case.files, case.statements)?;
            check_index(&rt, &index, case);
            drop(index);
        }
    }
    Ok(())
}
