//! A buffer in which tests make files.
ghost use Rattle.std.specs.Prelude.{◌≤◌, length};

/// The size of a buffer.
const SIZE: usize = 1024;

/// At most 1,024 bytes.
#[derive(Drop)]
pub(crate) struct Buffer {
    bytes: [u8; SIZE],
    length: usize,
}

impl Buffer {
    pub(crate) fn new() -> Buffer {
        Buffer {
            bytes: [0; SIZE],
            length: 0,
        }
    }

    /// Adds these bytes, or those that fit.
    pub(crate) fn add(&mut self, bytes: &[u8]) {
        let start = self.length.min(SIZE);
        let size = bytes.len().min(SIZE - start);
        self.bytes[start..start + size].copy_from_slice(&bytes[..size]);
        self.length = start + size;
    }

    /// Sets the byte at an offset, if the offset is within the size.
    pub(crate) fn set(&mut self, offset: usize, byte: u8) {
        if offset < SIZE {
            self.bytes[offset] = byte;
        }
    }

    pub(crate) fn bytes(&self) -> &[u8]
        ensures { length result.now ≤ 1024 }
    {
        &self.bytes[..self.length.min(SIZE)]
    }
}
