//! After all lines: the bytes of the pieces, in the order of the source.

ghost use Rattle.std.specs.Prelude.{◌≡◌, ◌≤◌, ◌<◌, ◌+◌, ◌-◌, ◌/◌, ◌^◌, ◌++◌, length, replicate, IfOk, IsTrue, Ok, pos, neg_ℤ, ◌≤ℤ◌};
ghost use Rattle.std.specs.Int.{w32, to_le_bytes};
ghost use Rattle.rv_decode.specs.Fields.{is_signed, is_even};
ghost use Rattle.rv_decode.specs.Instructions.{InRange};
ghost use Rattle.rv_decode.specs.declared.Instr.TheVariants as instr;
ghost use Rattle.rv_decode.specs.declared.UpperOp.TheVariants.{Auipc};
ghost use Rattle.rv_decode.specs.declared.ImmOp.TheVariants.{Addi};
ghost use Rattle.asm_values.specs.Parts.{upper, lower};
ghost use Rattle.rv_asm.specs.Assembled.{address, target, reach, word, load_address, bytes_at, filled_piece, filled_pieces, entry};
ghost use Rattle.failures.specs.Answers.{Gives};
ghost use Rattle.asm_tokens.specs.Views.{GivesLine, with_front};
ghost use Rattle.rv_asm.specs.Views.{Steps, StepsAll, state_of, use_of, piece_of, put_of, with_filled, parts_of, with_next, all_parts};

use crate::lines::error_at;
use crate::operands::NameUse;
use crate::pieces::Piece;
use crate::state::{Location, Put, State};
use crate::{AsmError, AsmKind};
use asm_tokens::{Section, TokenError, number_of};
use asm_values::{data_address, entry_address, lower, text_address, upper};
use rv_decode::{ImmOp, Instr, UpperOp, encode};
use std::alloc::{AllocError, Global};

/// The bytes of both sections, and the line of each word of the text.
#[derive(Drop)]
pub struct Filled {
    /// The bytes of `.text`.
    pub text: Vec<u8>,
    /// The bytes of `.data`.
    pub content: Vec<u8>,
    /// The line of each word of the text, counted from 1.
    pub lines: Vec<u32>,
}

/// The address of a location.
pub fn address(state: &State, location: Location) -> u64
    ensures value { result ≡ address (state_of state.now) location }
    ensures small { result < 2 ^ 34 }
{
    match location.section {
        Section::Text => text_address(location.offset),
        Section::Data => data_address(state.text, location.offset),
    }
}

/// The address of a label.
fn target(state: &State, label: NameUse) -> Result<u64, TokenError>
    ensures value { GivesLine (λ a. a) result (target (state_of state.now) (use_of label.entry)) }
    ensures small { IfOk result (λ a. a < 2 ^ 34) }
{
    match state.labels.get(label.name) {
        None => Err(TokenError::Fault {
            kind: AsmKind::Missing,
            column: label.column,
        }),
        Some(location) => Ok(address(state, *location)),
    }
}

/// The distance of a label from a branch, in bytes.
fn branch_offset(state: &State, label: NameUse, from: u64) -> Result<i32, TokenError>
    requires { from < 2 ^ 34 }
    ensures value { GivesLine (λ far. far) result
        (reach (state_of state.now) 13 (use_of label.entry) from) }
    ensures near { IfOk result (λ far. IsTrue (is_signed 13 far)) }
    ensures even { IfOk result (λ far. IsTrue (is_even far)) }
{
    let far = target(state, label)? as i64 - from as i64;
    if -0x1000 <= far && far < 0x1000 && far % 2 == 0 {
        Ok(far as i32)
    } else {
        Err(far_fault(label.column))
    }
}

/// The distance of a label from a jump, in bytes.
fn jump_offset(state: &State, label: NameUse, from: u64) -> Result<i32, TokenError>
    requires { from < 2 ^ 34 }
    ensures value { GivesLine (λ far. far) result
        (reach (state_of state.now) 21 (use_of label.entry) from) }
    ensures near { IfOk result (λ far. IsTrue (is_signed 21 far)) }
    ensures even { IfOk result (λ far. IsTrue (is_even far)) }
{
    let far = target(state, label)? as i64 - from as i64;
    if -0x10_0000 <= far && far < 0x10_0000 && far % 2 == 0 {
        Ok(far as i32)
    } else {
        Err(far_fault(label.column))
    }
}

/// A label that is out of reach or an odd number of bytes away.
fn far_fault(column: u32) -> TokenError
    ensures { result ≡ TokenError.Fault AsmKind.Far column }
{
    TokenError::Fault {
        kind: AsmKind::Far,
        column,
    }
}

/// Appends these bytes.
fn write_bytes(out: &mut Vec<u8>, bytes: &[u8]) -> Result<(), TokenError>
    ensures { Steps result out.new.items (Ok (out.old.items ++ bytes.now)) }
{
    out.extend_from_slice(bytes)?;
    Ok(())
}

/// Appends an instruction's word.
fn write_instruction(out: &mut Vec<u8>, instr: Instr) -> Result<(), TokenError>
    requires { InRange instr }
    ensures { Steps result out.new.items (Ok (out.old.items ++ word instr)) }
{
    write_bytes(out, &encode(instr).to_le_bytes())
}

/// The first of the two instructions that put an address `far` bytes away into a register: its
/// upper 20 bits.
fn far_upper(rd: u8, far: i128) -> Instr
    requires register { rd < 32 }
    requires low { neg_ℤ (pos (2 ^ 100)) ≤ℤ far }
    requires high { far ≤ℤ pos (2 ^ 100) }
    ensures value { result ≡ instr.Upper Auipc rd (upper far) }
    ensures sound { InRange result }
{
    Instr::Upper {
        op: UpperOp::Auipc,
        rd,
        value: upper(far),
    }
}

/// The second of the two instructions that put an address `far` bytes away into a register: its
/// low 12 bits.
fn far_lower(rd: u8, far: i128) -> Instr
    requires { rd < 32 }
    ensures value { result ≡ instr.Imm Addi rd rd (lower far) }
    ensures sound { InRange result }
{
    Instr::Imm {
        op: ImmOp::Addi,
        rd,
        rs1: rd,
        value: lower(far),
    }
}

/// Appends the two instructions that put an address `far` bytes away into a register.
fn write_address_load(out: &mut Vec<u8>, rd: u8, far: i128) -> Result<(), TokenError>
    requires register { rd < 32 }
    requires low { neg_ℤ (pos (2 ^ 100)) ≤ℤ far }
    requires high { far ≤ℤ pos (2 ^ 100) }
    ensures { Steps result out.new.items (Ok (out.old.items ++ load_address rd far)) }
{
    write_instruction(out, far_upper(rd, far))?;
    write_instruction(out, far_lower(rd, far))
}

/// Appends `count` zeros.
fn write_zeros(out: &mut Vec<u8>, count: u32) -> Result<(), TokenError>
    ensures { Steps result out.new.items (Ok (out.old.items ++ replicate count 0)) }
{
    let length = out.len();
    out.resize(length + count as usize, 0)?;
    Ok(())
}

/// Appends the bytes of a piece that stands at this address.
fn write_piece(out: &mut Vec<u8>, state: &State, from: u64, piece: &Piece) -> Result<(), TokenError>
    requires { from < 2 ^ 34 }
    ensures { Steps result out.new.items
        (with_front out.old.items (bytes_at (state_of state.now) from (piece_of piece.now))) }
{
    match piece {
        Piece::Encoded(word) => write_bytes(out, &word.to_le_bytes()),
        Piece::Branch {
            op,
            rs1,
            rs2,
            label,
        } => {
            let branch = Instr::Branch {
                op: *op,
                rs1: number_of(*rs1),
                rs2: number_of(*rs2),
                offset: branch_offset(state, *label, from)?,
            };
            write_instruction(out, branch)
        }
        Piece::Jump { rd, label } => {
            let jump = Instr::Jal {
                rd: number_of(*rd),
                offset: jump_offset(state, *label, from)?,
            };
            write_instruction(out, jump)
        }
        Piece::LoadAddress { rd, label } => {
            let far = i128::from(target(state, *label)?) - i128::from(from);
            write_address_load(out, number_of(*rd), far)
        }
        Piece::Address(label) => write_bytes(out, &target(state, *label)?.to_le_bytes()),
        Piece::Bytes(bytes) => write_bytes(out, bytes),
        Piece::Zeros(count) => write_zeros(out, *count),
    }
}

/// Appends a line number once for each of its words.
fn push_lines(lines: &mut Vec<u32>, line: u32, words: usize) -> Result<(), AllocError>
    ensures { IfOk result (λ _. lines.new.items ≡ lines.old.items ++ replicate words line) }
{
    for _ in 0..words {
        lines.push(line)?;
    }
    Ok(())
}

/// The bytes of a piece at its location.
fn fill_one(parts: &mut Filled, state: &State, put: &Put) -> Result<(), AsmError>
    ensures { StepsAll result (parts_of parts.new)
        (with_next (parts_of parts.old) (filled_piece (state_of state.now) (put_of put.now))) }
{
    let from = address(state, put.location);
    match put.location.section {
        Section::Text => {
            let before = parts.text.len();
            if let Err(error) = write_piece(&mut parts.text, state, from, &put.piece) {
                return Err(error_at(put.line, error));
            }
            let words = (parts.text.len() - before) / 4;
            if push_lines(&mut parts.lines, put.line, words).is_err() {
                return Err(AsmError::Memory);
            }
            Ok(())
        }
        Section::Data => match write_piece(&mut parts.content, state, from, &put.piece) {
            Err(error) => Err(error_at(put.line, error)),
            Ok(()) => Ok(()),
        },
    }
}

/// The bytes of all pieces in the order of the source.
/// Err is the first label that is missing or too far, or out of memory.
pub fn fill(alloc: Global, state: &State) -> Result<Filled, AsmError>
    ensures { Gives parts_of result
        (all_parts (filled_pieces (state_of state.now) (state_of state.now).puts)) }
{
    let mut parts = Filled {
        text: Vec::new(alloc),
        content: Vec::new(alloc),
        lines: Vec::new(alloc),
    };
    for put in &state.puts {
        fill_one(&mut parts, state, put)?;
    }
    Ok(parts)
}

/// The address at which the program begins.
pub fn entry(state: &State) -> u64
    ensures { result ≡ entry (state_of state.now) }
{
    let start = match state.labels.get(b"_start".as_slice()) {
        Some(location) if matches!(location.section, Section::Text) => Some(location.offset),
        _ => None,
    };
    entry_address(start, state.text)
}
