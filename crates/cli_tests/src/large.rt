//! A large file that is made as it is read.
ghost use Rattle.std.specs.Prelude.{◌≡◌, ◌≢◌, ◌+◌, ◌≤◌, [], length, None};

use coz_files::{FileAnswer, Files};

/// A file of `size` zeros at each path that ends with `big`, and these bytes at every other path.
#[derive(Drop)]
pub(crate) struct Large<'a> {
    pub(crate) size: u64,
    pub(crate) bytes: &'a [u8],
}

/// Appends this many zeros, but no more than `max + 1`.
fn push_zeros(size: u64, max: u64, into: &mut Vec<u8>) -> FileAnswer
    requires { into.old.items ≡ [] }
    ensures whole { result ≡ FileAnswer.Whole → length into.new.items ≤ max }
    ensures longer { result ≡ FileAnswer.Longer → length into.new.items ≡ max + 1 }
    ensures read { result ≢ FileAnswer.Failed }
{
    if size <= max {
        match into.resize(size as usize, 0) {
            Ok(()) => FileAnswer::Whole,
            Err(_) => FileAnswer::Memory,
        }
    } else {
        match into.resize(max as usize + 1, 0) {
            Ok(()) => FileAnswer::Longer,
            Err(_) => FileAnswer::Memory,
        }
    }
}

/// Appends the bytes, but no more than `max + 1`.
pub(crate) fn push_bytes(bytes: &[u8], max: u64, into: &mut Vec<u8>) -> FileAnswer
    requires { into.old.items ≡ [] }
    ensures whole { result ≡ FileAnswer.Whole → length into.new.items ≤ max }
    ensures longer { result ≡ FileAnswer.Longer → length into.new.items ≡ max + 1 }
    ensures read { result ≢ FileAnswer.Failed }
{
    if bytes.len() as u64 <= max {
        match into.extend_from_slice(bytes) {
            Ok(()) => FileAnswer::Whole,
            Err(_) => FileAnswer::Memory,
        }
    } else {
        match into.extend_from_slice(&bytes[..max as usize + 1]) {
            Ok(()) => FileAnswer::Longer,
            Err(_) => FileAnswer::Memory,
        }
    }
}

impl<'a> Files for Large<'a> {
    ghost held = { λ _. None };

    ghost faults = { λ _. 0 };

    fn read_whole(&mut self, path: &str, max: u64, into: &mut Vec<u8>) -> FileAnswer {
        if path.as_bytes().ends_with(b"big") {
            push_zeros(self.size, max, into)
        } else {
            push_bytes(self.bytes, max, into)
        }
    }
}
