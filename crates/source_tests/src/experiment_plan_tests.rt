//! Tests of `experiment_plan`.
use experiment_plan::{first_piece, is_line, is_list, line_parts, number_in};

/// Whether the text is a line of this path and this number.
fn has_parts(text: &[u8], path: &[u8], number: u32) -> bool {
    if !is_line(text) {
        return false;
    }
    let parts = line_parts(text);
    parts.0 == path && parts.1 == number
}

#[test]
fn lines_have_their_path_and_number(rt: HostRuntime) {
    assert!(rt; has_parts(b"one.s:3", b"one.s", 3));
    assert!(rt; has_parts(b"a:b:4294967295", b"a:b", 4294967295));
    assert!(rt; first_piece(b"a:1,b:2,c:3") == (b"a:1".as_slice(), Some(b"b:2,c:3".as_slice())));
    assert!(rt; first_piece(b"a:1,") == (b"a:1".as_slice(), Some(b"".as_slice())));
    assert!(rt; first_piece(b"a:1") == (b"a:1".as_slice(), None));
    assert!(rt; is_list(b"a:1,b:2"));
    assert!(rt; !is_list(b"a:1,b"));
    assert!(rt; number_in(b"0095", 0, 95) == Some(95));
}
