//! Where a line is.

/// Where a line of a program is: a written path and a number.
#[derive(Clone, Copy)]
pub struct Location<'a> {
    /// The path, as labels have it.
    pub path: &'a [u8],
    /// The number of the line.
    pub number: u32,
}
