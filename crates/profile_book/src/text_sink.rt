//! Texts that are written into memory.
ghost use Rattle.std.specs.Prelude.{◌≡◌, ℕ, List, [], Some, IfOk};
ghost use Rattle.coz_files.specs.Gathered.{Gathers};

use coz_files::{PutAnswer, PutBuffer, Sink};
use std::alloc::{AllocError, Global};

/// Keeps all that is put. A put fails only if it is out of memory, and then keeps nothing of it.
#[derive(Drop)]
pub struct TextSink {
    /// The bytes that were put so far.
    pub text: Vec<u8>,
    /// The number of puts that have failed.
    pub faults: u64,
}

impl TextSink {
    /// An empty sink.
    pub fn new(alloc: Global) -> TextSink
        ensures { result.text.items ≡ [] }
    {
        TextSink {
            text: Vec::new(alloc),
            faults: 0,
        }
    }
}

impl Sink for TextSink {
    ghost holds = { λ s. Some s.text.items };

    ghost faults = { λ s. s.faults };

    fn put(&mut self, bytes: &[u8]) -> PutAnswer {
        match self.text.extend_from_slice(bytes) {
            Ok(()) => PutAnswer::Done,
            Err(_) => {
                self.faults = self.faults.saturating_add(1);
                PutAnswer::Failed
            }
        }
    }
}

/// A text that is written into memory, piece by piece. A piece is put with `to` and `out`.
#[derive(Drop)]
pub struct TextWriter {
    /// The buffer before the text.
    pub to: PutBuffer,
    /// The text so far.
    pub out: TextSink,
}

impl TextWriter {
    /// A writer of an empty text.
    pub fn new(alloc: Global) -> TextWriter
        ensures buffer { result.to ≡ Some [] }
        ensures text { result.out.text.items ≡ [] }
    {
        TextWriter {
            to: PutBuffer::new(),
            out: TextSink::new(alloc),
        }
    }

    /// Returns the text: all pieces that were put since it was empty.
    pub fn finish(self) -> Result<Vec<u8>, AllocError>
        ensures { (start : TextWriter) (bytes : List ℕ) →
            start.to ≡ Some [] → start.out.text.items ≡ [] →
            Gathers ⟦<TextSink as Sink>⟧.holds ⟦<TextSink as Sink>⟧.faults
            start.out self.out start.to self.to bytes →
            IfOk result (λ text. text.items ≡ bytes) }
    {
        let TextWriter { to, mut out } = self;
        match to.finish(&mut out) {
            PutAnswer::Done => Ok(out.text),
            PutAnswer::Failed => Err(AllocError),
        }
    }
}
