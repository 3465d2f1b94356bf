//! The pieces of a vectored read or write.
ghost use Rattle.std.specs.Prelude.{◌≡◌, ◌≤◌, ◌+◌, ◌*◌, ◌^◌, IsTrue};
ghost use Rattle.guest_memory.specs.Memory.{is_readable, number_at};
ghost use Rattle.guest_calls.specs.declared.pieces.TheConstants.{PIECES};
ghost use Rattle.guest_calls.specs.Calls.{piece_at, pieces_at, filled_parts, is_each_readable, is_each_writable};

use arrayvec::ArrayVec;
use coz_types::Address;
use guest_memory::Memory;

/// The pieces that one call may name (Linux: UIO_MAXIOV).
pub const PIECES: usize = 1024;

/// A piece of memory: an address and a length (`struct iovec`).
#[derive(Clone, Copy, Default)]
pub struct Piece {
    /// The address of the piece.
    pub address: Address,
    /// The number of bytes of the piece.
    pub length: u64,
}

/// The number of 8 bytes that stands at an address.
pub fn number(memory: &Memory, address: Address) -> u64
    requires { IsTrue (is_readable memory.now address 8) }
    ensures { result ≡ number_at memory.now address 8 }
{
    let Ok(number) = memory.load(address, 8) else {
        unreachable!()
    };
    number
}

/// The piece that the pair at an address names.
fn piece_at(memory: &Memory, address: Address) -> Piece
    requires named { IsTrue (is_readable memory.now address 16) }
    requires low { address + 16 ≤ 2 ^ 64 }
    ensures { result ≡ piece_at memory.now address }
{
    Piece {
        address: number(memory, address),
        length: number(memory, address + 8),
    }
}

/// The pieces of the `count` pairs at an address, each pair an address and a length of 8 bytes.
pub fn pieces_at(memory: &Memory, address: Address, count: u64) -> ArrayVec<Piece, PIECES>
    requires few { count ≤ PIECES }
    requires named { IsTrue (is_readable memory.now address (16 * count)) }
    requires low { address + 16 * count ≤ 2 ^ 64 }
    ensures { result.items ≡ pieces_at memory.now address count }
{
    let mut pieces = ArrayVec::new();
    for i in 0..count {
        pieces.push(piece_at(memory, address + 16 * i));
    }
    pieces
}

/// Whether each byte of all pieces may be read.
pub fn are_readable(memory: &Memory, pieces: &[Piece]) -> bool
    ensures { result ≡ is_each_readable memory.now pieces.now }
{
    pieces
        .iter()
        .all(|piece| memory.readable(piece.address, piece.length))
}

/// Whether the first `count` bytes of the pieces, in order, may be written.
pub fn are_writable(memory: &Memory, pieces: &[Piece], count: u64) -> bool
    ensures { result ≡ is_each_writable memory.now (filled_parts pieces.now count) }
{
    let mut left = count;
    for piece in pieces {
        let count = piece.length.min(left);
        if !memory.writable(piece.address, count) {
            return false;
        }
        left -= count;
    }
    true
}
