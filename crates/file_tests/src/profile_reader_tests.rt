//! Tests of `profile_reader`.
use crate::buffer::Buffer;
use crate::checks::check_equal;
use profile_reader::BookField::*;
use profile_reader::{BookError, BookFault, BookField, read_profile};
use std::alloc::Global;

/// An offset in the text, the number of bytes that are left out there, and the bytes that are
/// inserted.
type Change = (usize, usize, &'static [u8]);

/// Two experiments and no point, in 558 bytes.
/// An independent implementation prints it.
const GOOD: &[u8] = b"coz-ticks\tversion=1\tbudget=100000000\tpoints=0\n\
experiment\tselected=one.s:1\tspeedup=0\tend=exited:0\ttime=4200\tdelay=0\tretired=3\tstarts=1\n\
output\tlength=0\tsha256=e3b0c44298fc1c149afbf4c8996fb92427ae41e4649b934ca495991b7852b855\n\
visits\tsha256=e3b0c44298fc1c149afbf4c8996fb92427ae41e4649b934ca495991b7852b855\n\
experiment\tselected=one.s:1\tspeedup=50\tend=exited:0\ttime=4200\tdelay=50\tretired=3\tstarts=1\n\
output\tlength=0\tsha256=e3b0c44298fc1c149afbf4c8996fb92427ae41e4649b934ca495991b7852b855\n\
visits\tsha256=e3b0c44298fc1c149afbf4c8996fb92427ae41e4649b934ca495991b7852b855\n";

const COUNT: &[u8] = b"throughput-point\tindex=0\tdelta=7\n";

/// Changes, and the field and offset of the first fault.
/// By hand, from docs/FORMATS.md, Profile text.
static ROWS: [(&[Change], Option<(BookField, u64)>); 27] = [
    (&[], None),
    (
        &[
            (36, 10, b"\tpoints=1\npoint\tindex=0\tname=a%2Cb:2\n"),
            (83, 13, b"\tend=trapped:break:3:0x10af"),
            (222, 0, COUNT),
            (479, 0, COUNT),
        ],
        None,
    ),
    (&[(0, 558, b"")], Some((Head, 0))),
    (&[(9, 549, b"")], Some((Version, 9))),
    (&[(10, 548, b"")], Some((Version, 9))),
    (&[(45, 513, b"")], Some((Newline, 45))),
    (&[(46, 512, b"")], None),
    (&[(60, 498, b"")], Some((Selected, 56))),
    (&[(72, 1, b"0")], Some((Selected, 56))),
    (&[(19, 17, b"\tbudget=0100000000")], Some((Budget, 19))),
    (&[(36, 9, b"\tpoints=65")], Some((Points, 36))),
    (&[(36, 9, b"\tpoints=1")], Some((Point, 46))),
    (&[(73, 10, b"\tspeedup=00")], Some((Speedup, 73))),
    (&[(83, 13, b"\tend=exited:256")], Some((End, 83))),
    (&[(96, 10, b"\ttime=04200")], Some((Time, 96))),
    (&[(106, 8, b"\tdelay=4201")], Some((Delay, 106))),
    (&[(157, 1, b"E")], Some((Digest, 149))),
    (&[(222, 6, b"visits ")], Some((Visits, 222))),
    // The text ends after the output of the first experiment.
    (&[(222, 336, b"")], Some((Visits, 222))),
    // The second experiment has the speedup of the first.
    (&[(337, 2, b"0")], Some((Speedup, 328))),
    // The two experiments in the other order.
    (
        &[
            (82, 1, b"50"),
            (113, 1, b"50"),
            (337, 2, b"0"),
            (369, 2, b"0"),
        ],
        Some((Speedup, 330)),
    ),
    (&[(57, 16, b"selected=one.s:2")], Some((Selected, 311))),
    (&[(558, 0, b"x")], Some((Experiment, 558))),
    (&[(56, 17, b"\tselected=one%2es:1")], Some((Selected, 56))),
    (&[(557, 1, b"")], Some((Newline, 557))),
    // The first point has the number 1, and the name of the second one is before that of the first.
    (
        &[(36, 10, b"\tpoints=1\npoint\tindex=1\tname=a:1\n")],
        Some((Index, 51)),
    ),
    (
        &[(
            36,
            10,
            b"\tpoints=2\npoint\tindex=0\tname=b:1\npoint\tindex=1\tname=a:1\n",
        )],
        Some((Name, 82)),
    ),
];

/// The good text with these changes.
fn changed(changes: &[Change]) -> Buffer {
    let mut text = Buffer::new();
    let mut at = 0;
    for &(place, length, inserted) in changes {
        text.add(GOOD.get(at..place).unwrap_or(&[]));
        text.add(inserted);
        at = place.saturating_add(length);
    }
    text.add(GOOD.get(at..).unwrap_or(&[]));
    text
}

fn fault_of(alloc: Global, text: &[u8]) -> Option<BookError> {
    read_profile(alloc, text).err()
}

fn expected_fault(fault: Option<(BookField, u64)>) -> Option<BookError> {
    match fault {
        Some((field, place)) => Some(BookError::Fault(BookFault { field, place })),
        None => None,
    }
}

#[test]
fn the_first_fault_of_a_changed_profile_is_found(rt: HostRuntime) {
    for (row, &(changes, fault)) in ROWS.iter().enumerate() {
        let found = fault_of(rt.alloc(), changed(changes).bytes());
        check_equal(&rt, (row, found), (row, expected_fault(fault)));
    }
}

/// The kinds of items, by their names.
/// By hand, from docs/FORMATS.md, Profile text.
static NAMES: [(BookField, &[u8]); 22] = [
    (Head, b"Head"),
    (Version, b"Version"),
    (Budget, b"Budget"),
    (Points, b"Points"),
    (Point, b"Point"),
    (Index, b"Index"),
    (Name, b"Name"),
    (Experiment, b"Experiment"),
    (Selected, b"Selected"),
    (Speedup, b"Speedup"),
    (End, b"End"),
    (Time, b"Time"),
    (Delay, b"Delay"),
    (Retired, b"Retired"),
    (Starts, b"Starts"),
    (Output, b"Output"),
    (Length, b"Length"),
    (Digest, b"Digest"),
    (Throughput, b"Throughput"),
    (Delta, b"Delta"),
    (Visits, b"Visits"),
    (Newline, b"Newline"),
];

#[test]
fn each_kind_of_item_has_its_name(rt: HostRuntime) {
    for &(field, name) in &NAMES {
        check_equal(&rt, (field, field.name()), (field, name));
    }
}
