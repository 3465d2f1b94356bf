//! The text of blocks.
ghost use Rattle.std.specs.Prelude.{◌≡◌, ◌*◌, ◌≤◌, ◌++◌, length, OnOk, IfOk};
ghost use Rattle.coz_types.specs.declared.TheConstants.{MAX_SIZE};
ghost use Rattle.work_gen.specs.Text.{blocks, text_of_lines};
ghost use Rattle.work_gen.specs.Drawn.{block_text, piece_text};

use crate::kinds::{Block, Piece, drawn_block};
use itoa::Buffer;
use std::alloc::AllocError;

/// A piece of the block of this number, its hole filled.
fn filled<'b>(piece: &Piece, block: &Block, number: u32, buffer: &'b mut Buffer) -> &'b [u8]
    ensures { result.now ≡ piece_text block.now number piece.now }
{
    match *piece {
        Piece::Text(text) => text,
        Piece::Work => block.kind.work,
        Piece::Turns => buffer.format(block.turns).as_bytes(),
        Piece::Number => buffer.format(number).as_bytes(),
    }
}

/// The block of this number.
fn put_block(text: &mut Vec<u8>, block: &Block, number: u32) -> Result<(), AllocError>
    ensures { OnOk result (text.new.items ≡ text.old.items ++ block_text block.now number) }
{
    for piece in block.kind.pieces {
        let mut buffer = Buffer::new();
        text.extend_from_slice(filled(piece, block, number, &mut buffer))?;
    }
    Ok(())
}

/// The blocks, from number 0 on, and how many lines they have.
pub fn put_blocks(text: &mut Vec<u8>, size: u32, seed: u64) -> Result<u32, AllocError>
    requires { size ≤ MAX_SIZE }
    ensures text { OnOk result
        (text.new.items ≡ text.old.items ++ text_of_lines (blocks 0 size seed)) }
    ensures lines { IfOk result (λ lines. lines ≡ length (blocks 0 size seed)) }
    ensures few { IfOk result (λ lines. lines ≤ 21 * size) }
{
    let mut state = seed;
    let mut lines = 0;
    for i in 0..size {
        let block = drawn_block(state);
        put_block(text, &block, i)?;
        lines += block.kind.lines;
        state = block.after;
    }
    Ok(lines)
}
