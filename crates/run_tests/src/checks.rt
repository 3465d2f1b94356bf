//! The assertion that the tests share.
use std::fmt::Debug;
use std::process::Abort;

/// Ends the test unless both are equal, and prints them then. Each is mostly a pair of what was
/// asked and what was found or is expected, so that the line of the table shows.
///
/// Each assertion is proved by itself, so the tests share this one.
pub(crate) fn check_equal<T: Debug + PartialEq + Copy>(rt: &impl Abort, found: T, expected: T) {
    assert_eq!(rt; found, expected);
}
