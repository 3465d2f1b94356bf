//! Tests of `leb_cursor`.
use crate::checks::check_equal;
use leb_cursor::{Cursor, LebFault, Short};

const SHORT: LebFault = LebFault::Short(Short { place: 0 });

const WIDE: LebFault = LebFault::Wide { place: 0 };

/// Bytes, the number that they begin with, and the place of the cursor after it, which is 0 after a
/// fault: the examples of the DWARF standard, padded ones, and the edges of 64 bits.
static UNSIGNED: [(&[u8], Result<u64, LebFault>, u64); 13] = [
    (b"\x02", Ok(2), 1),
    (b"\x7F", Ok(127), 1),
    (b"\x80\x01", Ok(128), 2),
    (b"\x81\x01", Ok(129), 2),
    (b"\x82\x01", Ok(130), 2),
    (b"\xB9\x64", Ok(12857), 2),
    (b"\x87\x80\x00\x55", Ok(7), 3),
    (
        b"\xFF\xFF\xFF\xFF\xFF\xFF\xFF\xFF\xFF\x01",
        Ok(u64::MAX),
        10,
    ),
    (
        b"\x81\x80\x80\x80\x80\x80\x80\x80\x80\x80\x80\x00",
        Ok(1),
        12,
    ),
    (b"\x80\x80\x80\x80\x80\x80\x80\x80\x80\x02", Err(WIDE), 0),
    (
        b"\x81\x80\x80\x80\x80\x80\x80\x80\x80\x80\x01",
        Err(WIDE),
        0,
    ),
    (b"\x87\x80", Err(SHORT), 0),
    (b"", Err(SHORT), 0),
];

/// Signed numbers: the examples of the DWARF standard, padded ones, and the edges of 64 bits,
/// as above.
static SIGNED: [(&[u8], Result<i64, LebFault>, u64); 18] = [
    (b"\x02", Ok(2), 1),
    (b"\x7E", Ok(-2), 1),
    (b"\x3F", Ok(63), 1),
    (b"\x40", Ok(-64), 1),
    (b"\xFF\x00", Ok(127), 2),
    (b"\x81\x7F", Ok(-127), 2),
    (b"\x80\x01", Ok(128), 2),
    (b"\x80\x7F", Ok(-128), 2),
    (b"\x81\x01", Ok(129), 2),
    (b"\xFF\x7E", Ok(-129), 2),
    (b"\xFF\xFF\x7F\x55", Ok(-1), 3),
    (
        b"\xFF\xFF\xFF\xFF\xFF\xFF\xFF\xFF\xFF\x00",
        Ok(i64::MAX),
        10,
    ),
    (
        b"\x80\x80\x80\x80\x80\x80\x80\x80\x80\x7F",
        Ok(i64::MIN),
        10,
    ),
    (b"\x80\x80\x80\x80\x80\x80\x80\x80\x80\x01", Err(WIDE), 0),
    (b"\xFF\xFF\xFF\xFF\xFF\xFF\xFF\xFF\xFF\x7E", Err(WIDE), 0),
    (b"\xFF\xFF\xFF\xFF\xFF\xFF\xFF\xFF\xFF\xFF\x7F", Ok(-1), 11),
    (b"\xFF\xFF", Err(SHORT), 0),
    (b"", Err(SHORT), 0),
];

#[test]
fn unsigned_and_signed_numbers_are_read(rt: HostRuntime) {
    for &(bytes, number, place) in &UNSIGNED {
        let mut cursor = Cursor::new(bytes);
        let found = (bytes, cursor.uleb(), cursor.place(), cursor.left());
        let left = (bytes.len() as u64).saturating_sub(place);
        check_equal(&rt, found, (bytes, number, place, left));
    }
    for &(bytes, number, place) in &SIGNED {
        let mut cursor = Cursor::new(bytes);
        let found = (bytes, cursor.sleb(), cursor.place());
        check_equal(&rt, found, (bytes, number, place));
    }
}

/// Numbers of 1, 2, 4 and 8 bytes, two texts from offset 15 on, two bytes, and from offset 22 on a
/// part and one byte more.
const FIELDS: &[u8] = b"\x01\x02\x03\x04\x05\x06\x07\x08\x09\x0A\x0B\x0C\x0D\x0E\x0Fa.s\0\0??tail";

#[test]
fn the_fields_after_each_other_are_read(rt: HostRuntime) {
    let mut cursor = Cursor::new(FIELDS);
    let found = (cursor.byte(), cursor.half(), cursor.word(), cursor.double());
    let expected = (
        Ok(0x01),
        Ok(0x0302),
        Ok(0x0706_0504),
        Ok(0x0F0E_0D0C_0B0A_0908),
    );
    check_equal(&rt, (found, cursor.place()), (expected, 15));
    let found = (cursor.text(), cursor.text(), cursor.skip(2));
    let expected = (Ok(b"a.s".as_slice()), Ok(b"".as_slice()), Ok(()));
    check_equal(&rt, (found, cursor.place()), (expected, 22));
    if let Ok(mut part) = cursor.part(3) {
        let found = (part.place(), part.half(), part.half(), part.left());
        let short = Err(Short { place: 24 });
        check_equal(&rt, found, (22, Ok(0x6174), short, 1));
    }
    check_equal(&rt, cursor.place(), 25);
}

#[test]
fn a_field_that_is_short_leaves_the_cursor_where_it_is(rt: HostRuntime) {
    let mut cursor = Cursor::new(FIELDS);
    let _skipped = cursor.skip(25);
    let short = Short { place: 25 };
    let found = (cursor.word(), cursor.double(), cursor.text());
    check_equal(&rt, found, (Err(short), Err(short), Err(short)));
    let found = (
        cursor.skip(2),
        cursor.skip(u64::MAX),
        cursor.part(2).is_ok(),
    );
    check_equal(&rt, found, (Err(short), Err(short), false));
    let found = (cursor.left(), cursor.byte(), cursor.byte());
    check_equal(&rt, found, (1, Ok(b'l'), Err(Short { place: 26 })));
}
