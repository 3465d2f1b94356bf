//! The output of a guest, up to its limit.
ghost use Rattle.std.specs.Prelude.{◌≡◌, ◌+◌, ◌≤◌, ◌%◌, ◌^◌, [], ◌++◌, length, IfOk, IsTrue};
ghost use Rattle.std.specs.Vec.{vec_capacity};
ghost use Rattle.coz_types.specs.declared.TheConstants.{MAX_OUTPUT};
ghost use Rattle.guest_memory.specs.Memory.{is_readable, bytes_at};
ghost use Rattle.guest_calls.specs.Output.{with_bytes_written};
ghost use Rattle.guest_calls.specs.Calls.{is_each_readable, bytes_of, total};

use crate::pieces::Piece;
use coz_types::Address;
use guest_memory::Memory;
use std::alloc::{AllocError, Global};
use std::marker::Model;

/// The output of a guest, up to a limit. Its room is taken by `new`, which alone can be out of
/// memory.
#[derive(Drop)]
pub struct Output {
    places: Vec<u8>,
    limit: usize,
}

impl Model for Output {
    ghost use Rattle.std.specs.Prelude.{◌≤◌, length};
    ghost use Rattle.std.specs.Vec.{vec_capacity};
    ghost use Rattle.coz_types.specs.declared.TheConstants.{MAX_OUTPUT};
    ghost use Rattle.guest_calls.specs.Output.{Written};

    ghost Value = { Written };

    ghost view = { λ o. record { bytes = o.places.items; limit = o.limit } };

    ghost invariant = { λ o. (length o.places.items ≤ o.limit) × (o.limit ≤ MAX_OUTPUT)
        × (o.limit ≤ vec_capacity o.places) };
}

/// Appends bytes of the memory that may be read, in the room that the list has.
fn read_on(places: &mut Vec<u8>, memory: &Memory, address: Address, count: usize)
    requires readable { IsTrue (is_readable memory.now address count) }
    requires room { length places.old.items + count ≤ vec_capacity places.old }
    ensures bytes { places.new.items ≡ places.old.items ++ bytes_at memory.now address count }
    ensures room { vec_capacity places.old ≤ vec_capacity places.new }
{
    let start = places.len();
    let Ok(()) = places.resize(start + count, 0) else {
        unreachable!()
    };
    let Ok(()) = memory.read_at(address, &mut places[start..]) else {
        unreachable!()
    };
}

impl Output {
    /// An empty output with room for `limit` bytes.
    pub fn new(alloc: Global, limit: usize) -> Result<Output, AllocError>
        requires { limit ≤ MAX_OUTPUT }
        ensures { IfOk result (λ output. output ≡ record { bytes = []; limit = limit }) }
    {
        let places = Vec::with_capacity(alloc, limit)?;
        Ok(Output { places, limit })
    }

    /// The bytes that were written.
    pub fn bytes(&self) -> &[u8]
        ensures bytes { result.now ≡ self.now.bytes }
        ensures few { length result.now ≤ MAX_OUTPUT }
    {
        &self.places
    }

    /// Makes this equal to another one of the same limit.
    pub fn copy_from(&mut self, other: &Output)
        requires { self.old.limit ≡ other.now.limit }
        ensures { self.new ≡ other.now }
    {
        self.places.clear();
        let Ok(()) = self.places.extend_from_slice(&other.places) else {
            unreachable!()
        };
    }

    /// Appends bytes of the memory that may be read, as far as there is room.
    pub fn append(&mut self, memory: &Memory, address: Address, count: u64)
        requires { IsTrue (is_readable memory.now address count) }
        ensures { self.new ≡ with_bytes_written (bytes_at memory.now address count) self.old }
    {
        let room = self.limit - self.places.len();
        read_on(
            &mut self.places,
            memory,
            address,
            count.min(room as u64) as usize,
        );
    }

    /// Appends the bytes of pieces that may all be read, in order, as far as there is room.
    /// Gives the sum of their lengths, in 64 bits.
    pub fn append_each(&mut self, memory: &Memory, pieces: &[Piece]) -> u64
        requires { IsTrue (is_each_readable memory.now pieces.now) }
        ensures output { self.new ≡ with_bytes_written (bytes_of memory.now pieces.now) self.old }
        ensures total { result ≡ total pieces.now % 2 ^ 64 }
    {
        let mut total: u64 = 0;
        for piece in pieces {
            self.append(memory, piece.address, piece.length);
            total = total.wrapping_add(piece.length);
        }
        // The invariant of `self` is known to a proof once a field is used, here after the loop.
        let _ = &self.places;
        total
    }
}
