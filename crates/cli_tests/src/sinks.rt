//! Sinks in memory that are full, or fail.
use coz_files::MemorySink;
use std::alloc::{AllocError, Global};

/// A sink with room for this many bytes, of which the puts with these numbers fail.
#[derive(Clone, Copy)]
pub(crate) struct Room {
    pub(crate) bytes: u64,
    pub(crate) fails: &'static [u64],
}

/// A sink that takes what is put.
pub(crate) const WIDE: Room = Room {
    bytes: 100000,
    fails: &[],
};

/// A sink with room for ten bytes.
pub(crate) const TEN: Room = Room {
    bytes: 10,
    fails: &[],
};

/// A sink of which each put fails.
pub(crate) const SHUT: Room = Room {
    bytes: 10000,
    fails: &[0, 1, 2, 3, 4],
};

/// Sinks of which one put fails, the first, the second and so on.
pub(crate) static ONE_FAILS: [Room; 7] = [
    Room {
        bytes: 10000,
        fails: &[0],
    },
    Room {
        bytes: 10000,
        fails: &[1],
    },
    Room {
        bytes: 10000,
        fails: &[2],
    },
    Room {
        bytes: 10000,
        fails: &[3],
    },
    Room {
        bytes: 10000,
        fails: &[4],
    },
    Room {
        bytes: 10000,
        fails: &[5],
    },
    Room {
        bytes: 10000,
        fails: &[6],
    },
];

fn sink(alloc: Global, room: Room) -> Result<MemorySink, AllocError> {
    MemorySink::new(alloc, room.bytes, room.fails.to_vec(alloc)?)
}

/// The first `count` of some texts, one after another.
pub(crate) fn first_texts(
    alloc: Global,
    texts: &[&[u8]],
    count: usize,
) -> Result<Vec<u8>, AllocError> {
    let mut bytes = Vec::new(alloc);
    for text in texts.iter().take(count) {
        bytes.extend_from_slice(text)?;
    }
    Ok(bytes)
}

/// A sink for what is printed, and one for the line on the error stream.
#[derive(Drop)]
pub(crate) struct Sinks {
    pub(crate) out: MemorySink,
    pub(crate) err: MemorySink,
}

pub(crate) fn two_sinks(alloc: Global, rooms: (Room, Room)) -> Result<Sinks, AllocError> {
    let out = sink(alloc, rooms.0)?;
    let err = sink(alloc, rooms.1)?;
    Ok(Sinks { out, err })
}
