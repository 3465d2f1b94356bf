//! A buffer before a sink.
ghost use Rattle.std.specs.Prelude.{◌≡◌, Some, []};
ghost use Rattle.coz_files.specs.Gathered.{Fits, Gathers, Ends};
ghost use Rattle.coz_files.specs.declared.put_buffer.TheConstants.{ROOM};

use crate::{PutAnswer, Sink};
use arrayvec::ArrayVec;
use std::marker::Model;

/// The number of bytes that are gathered before they are put.
const ROOM: usize = 4096;

/// Bytes on their way to a sink: they are gathered in a fixed room, and put when it is full.
/// Once a put has failed, nothing more is put. The sink is passed at each call,
/// and is to be the same one.
#[derive(Drop)]
pub struct PutBuffer {
    bytes: ArrayVec<u8, ROOM>,
    answer: PutAnswer,
}

impl Model for PutBuffer {
    ghost use Rattle.coz_files.specs.Gathered.{Rest, rest_at};

    ghost Value = { Rest };

    ghost view = { λ b. rest_at b.answer b.bytes.items };
}

impl PutBuffer {
    /// A buffer with nothing gathered.
    pub fn new() -> PutBuffer
        ensures { result ≡ Some [] }
    {
        PutBuffer {
            bytes: ArrayVec::new(),
            answer: PutAnswer::Done,
        }
    }

    /// Takes a further piece. One that is longer than the whole room is put by itself.
    pub fn push<S: Sink>(&mut self, sink: &mut S, bytes: &[u8])
        ensures gathers { Gathers S.holds S.faults sink.old sink.new self.old self.new bytes.now }
        // The sink is left alone while there is room.
        ensures waits { Fits ROOM self.old bytes.now → sink.new ≡ sink.old }
    {
        if let PutAnswer::Failed = self.answer {
            return;
        }
        if let Ok(()) = self.bytes.try_extend_from_slice(bytes) {
            return;
        }
        self.answer = sink.put(self.bytes.as_slice());
        self.bytes.clear();
        if let PutAnswer::Failed = self.answer {
            return;
        }
        if let Err(_) = self.bytes.try_extend_from_slice(bytes) {
            self.answer = sink.put(bytes);
        }
    }

    /// Puts the bytes that are left, and returns whether all that were pushed are put.
    pub fn finish<S: Sink>(self, sink: &mut S) -> PutAnswer
        ensures { Ends S.holds S.faults sink.old sink.new self result }
    {
        match self.answer {
            PutAnswer::Done => sink.put(self.bytes.as_slice()),
            PutAnswer::Failed => PutAnswer::Failed,
        }
    }
}
