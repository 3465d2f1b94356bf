//! Tests of the buffer of `coz_files`.
use crate::checks::check_equal;
use coz_files::{MemorySink, PutAnswer, PutBuffer};
use std::alloc::{AllocError, Global};
use std::process::Abort;
use std::test::Fail;

/// Two pieces that fill a buffer together, and one that is longer than a buffer.
const WHOLE: usize = 11000;

fn put_pieces(sink: &mut MemorySink, text: &[u8; WHOLE]) -> PutAnswer {
    let mut buffer = PutBuffer::new();
    buffer.push(sink, &text[..3000]);
    buffer.push(sink, &text[3000..6000]);
    buffer.push(sink, &text[6000..]);
    buffer.finish(sink)
}

/// Puts the pieces to a sink with this much room, and compares what it holds with what fits.
fn check_room(rt: &impl Abort, alloc: Global, room: usize) -> Result<(), AllocError> {
    let mut text = [7; WHOLE];
    text[6000..].fill(8);
    let mut sink = MemorySink::new(alloc, room as u64, Vec::new(alloc))?;
    let is_done = put_pieces(&mut sink, &text) == PutAnswer::Done;
    let held = sink.held();
    let found = (is_done, held.len(), text.starts_with(held));
    check_equal(rt, found, (room == WHOLE, room, true));
    drop(sink);
    Ok(())
}

#[test]
fn a_buffer_puts_what_has_room_in_the_sink(rt: HostRuntime) -> Result<(), Fail> {
    for room in [0, 1, 7000, WHOLE] {
        check_room(&rt, rt.alloc(), room)?;
    }
    Ok(())
}
