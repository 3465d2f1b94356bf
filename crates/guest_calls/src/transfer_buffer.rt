//! Bytes on their way between the memory and a pipe.
ghost use Rattle.std.specs.Prelude.{◌≡◌, ◌≤◌, ◌+◌, ◌++◌, length, take, false, Some, IsTrue, MatchResult};
ghost use Rattle.coz_types.specs.declared.TheConstants.{HARTS};
ghost use Rattle.guest_memory.specs.Memory.{is_readable, is_writable, with_bytes, bytes_at};
ghost use Rattle.guest_pipes.specs.declared.TheConstants.{PIPE_BYTES};
ghost use Rattle.guest_pipes.specs.declared.ends.PipeEnd.TheVariants.{Reading, Writing};
ghost use Rattle.guest_pipes.specs.Pipes.{kind_at, held, room, woken_for, put};

use coz_types::Address;
use guest_futex::HartList;
use guest_memory::{Access, Memory};
use guest_pipes::{PIPE_BYTES, Pipes};
use std::alloc::{AllocError, Global};
use std::marker::Model;

/// Room for the bytes of a pipe. What stands in it is no part of a guest.
#[derive(Drop)]
pub struct TransferBuffer {
    bytes: Vec<u8>,
}

impl Model for TransferBuffer {
    ghost use Rattle.std.specs.Prelude.{◌≡◌, ℕ, length};
    ghost use Rattle.guest_pipes.specs.declared.TheConstants.{PIPE_BYTES};

    ghost Value = { ℕ };

    ghost view = { λ _. 0 };

    ghost invariant = { λ c. length c.bytes.items ≡ PIPE_BYTES };
}

impl TransferBuffer {
    /// Takes the room. Err: out of memory.
    pub fn new(alloc: Global) -> Result<TransferBuffer, AllocError> {
        Ok(TransferBuffer {
            bytes: vec![in alloc; 0u8; PIPE_BYTES]?,
        })
    }

    /// Copies the first bytes of a pipe into the memory. Err if some byte may not be written; then
    /// nothing is copied.
    pub fn deliver(
        &mut self,
        pipes: &Pipes,
        number: u32,
        count: u32,
        memory: &mut Memory,
        address: Address,
    ) -> Result<(), Access>
        requires reads { kind_at number pipes.now ≡ Some Reading }
        requires few { count ≤ length (held number pipes.now) }
        requires most { count ≤ PIPE_BYTES }
        ensures { MatchResult result
            (λ _. IsTrue (is_writable memory.old address count)
            × (memory.new ≡ with_bytes address (take count (held number pipes.now)) memory.old))
            (λ _. (is_writable memory.old address count ≡ false)
            × (memory.new ≡ memory.old)) }
    {
        let bytes = &mut self.bytes[..count as usize];
        pipes.peek(number, bytes);
        memory.copy_in(address, bytes)
    }

    /// Puts bytes of the memory, which may be read, into a pipe that has room for them. All harts
    /// that wait for its bytes are appended to a list, the oldest first.
    pub fn send(
        &mut self,
        memory: &Memory,
        address: Address,
        count: u32,
        pipes: &mut Pipes,
        number: u32,
        woken: &mut HartList,
    )
        requires readable { IsTrue (is_readable memory.now address count) }
        requires writes { kind_at number pipes.old ≡ Some Writing }
        requires few { count ≤ room number pipes.old }
        requires room { length woken.old + length (woken_for Reading number pipes.old) ≤ HARTS }
        ensures state { pipes.new ≡ put number (bytes_at memory.now address count) pipes.old }
        ensures woken { woken.new ≡ woken.old ++ woken_for Reading number pipes.old }
    {
        let bytes = &mut self.bytes[..count as usize];
        let Ok(()) = memory.read_at(address, bytes) else {
            unreachable!()
        };
        pipes.put(number, bytes, woken);
    }
}
