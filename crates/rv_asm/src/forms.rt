//! The forms of statements: each function reads all operands of one form.
#![tactic(auto, unfolding(crate::specs::Statements::statement))]

ghost use Rattle.std.specs.Prelude.{◌≡◌, ◌≤◌, ◌<◌, ◌-◌, ◌*◌, ◌^◌, ◌++◌, [], ◌∷◌, length, drop, map, IfOk, IsTrue, ℤ, pos, neg_ℤ, ◌≤ℤ◌, Some, None, if◌then◌else◌};
ghost use Rattle.std.specs.Int.{bytes_low_first};
ghost use Rattle.rv_decode.specs.Fields.{twos_complement, is_signed};
ghost use Rattle.rv_decode.specs.Instructions.{amount_bits, InRange, is_second, word_of};
ghost use Rattle.rv_decode.specs.declared.Instr.TheVariants as instr;
ghost use Rattle.rv_decode.specs.declared.UpperOp.TheVariants.{Lui};
ghost use Rattle.asm_tokens.specs.Registers.{number_of};
ghost use Rattle.rv_asm.specs.Statements.{load_number, whole, puts, one, number_item, label_item, item, item_operand, then_item, items, statement, bytes_of, is_wide, is_acquire, is_release, instruction_alone, is_within, BranchTo, JumpTo, AddressTo, Bytes, Zeros, Puts, Aligns, Enters};
ghost use Rattle.asm_tokens.specs.Views.{GivesLine, all_placed, placed_of};
ghost use Rattle.rv_asm.specs.Views.{tokens_left, Takes, Reads, piece_of, statement_of, AlignsWithin};
ghost use Rattle.asm_tokens.specs.declared.form.Form.TheVariants as forms;

use crate::AsmKind;
use crate::operands::{NameUse, Operands, operand_fault};
use crate::pieces::{Piece, Statement};
use crate::state::MAX_SECTION;
use asm_tokens::{
    Alone, Form, Order, Placed, Register, Section, Size, Token, TokenError, Width, number_of,
};
use asm_values::{immediate, low_bits, lower, upper};
use rv_decode::{
    AtomicOp, BranchOp, ImmOp, Instr, LoadOp, RegOp, ShiftOp, StoreOp, UpperOp, encode,
};
use std::alloc::{AllocError, Global};

/// The statement, if nothing is left.
fn whole<'s>(operands: Operands<'_, 's>, what: Statement<'s>) -> Result<Statement<'s>, TokenError>
    ensures value { GivesLine statement_of result
        (whole operands.entry.end (statement_of what.entry) (tokens_left operands.entry)) }
    ensures same { IfOk result (λ x. x ≡ what.entry) }
{
    operands.finish()?;
    Ok(what)
}

/// The statement that puts one piece, if nothing is left.
fn puts<'s>(
    alloc: Global,
    operands: Operands<'_, 's>,
    piece: Piece<'s>,
) -> Result<Statement<'s>, TokenError>
    ensures value { GivesLine statement_of result
        (puts operands.entry.end (piece_of piece.entry ∷ []) (tokens_left operands.entry)) }
    ensures within { IfOk result AlignsWithin }
{
    let pieces = vec![in alloc; piece]?;
    whole(operands, Statement::Puts(pieces))
}

/// The statement that puts one instruction, if nothing is left.
fn one<'s>(
    alloc: Global,
    operands: Operands<'_, 's>,
    instr: Instr,
) -> Result<Statement<'s>, TokenError>
    requires { InRange instr }
    ensures value { GivesLine statement_of result
        (one operands.entry.end instr (tokens_left operands.entry)) }
    ensures within { IfOk result AlignsWithin }
{
    puts(alloc, operands, Piece::Encoded(encode(instr)))
}

/// `add rd, rs1, rs2`
fn register_form<'s>(
    alloc: Global,
    op: RegOp,
    mut operands: Operands<'_, 's>,
) -> Result<Statement<'s>, TokenError>
    ensures value { Reads (forms.Register op) result operands.entry }
    ensures within { IfOk result AlignsWithin }
{
    let rd = operands.register()?;
    let rs1 = operands.then_register()?;
    let rs2 = operands.then_register()?;
    let instr = Instr::Reg {
        op,
        rd: number_of(rd),
        rs1: number_of(rs1),
        rs2: number_of(rs2),
    };
    one(alloc, operands, instr)
}

/// `addi rd, rs1, n`
fn immediate_form<'s>(
    alloc: Global,
    op: ImmOp,
    mut operands: Operands<'_, 's>,
) -> Result<Statement<'s>, TokenError>
    ensures value { Reads (forms.Immediate op) result operands.entry }
    ensures within { IfOk result AlignsWithin }
{
    let rd = operands.register()?;
    let rs1 = operands.then_register()?;
    let value = operands.then_immediate()?;
    let instr = Instr::Imm {
        op,
        rd: number_of(rd),
        rs1: number_of(rs1),
        value,
    };
    one(alloc, operands, instr)
}

/// The greatest amount of a shift.
fn greatest_amount(op: ShiftOp) -> u32
    ensures { result ≡ 2 ^ amount_bits op - 1 }
{
    match op {
        ShiftOp::Slli | ShiftOp::Srli | ShiftOp::Srai => 63,
        ShiftOp::Slliw | ShiftOp::Srliw | ShiftOp::Sraiw => 31,
    }
}

/// `slli rd, rs1, n`
fn shift_form<'s>(
    alloc: Global,
    op: ShiftOp,
    mut operands: Operands<'_, 's>,
) -> Result<Statement<'s>, TokenError>
    ensures value { Reads (forms.Shift op) result operands.entry }
    ensures within { IfOk result AlignsWithin }
{
    let rd = operands.register()?;
    let rs1 = operands.then_register()?;
    let amount = operands.then_up_to(greatest_amount(op))?;
    let instr = Instr::Shift {
        op,
        rd: number_of(rd),
        rs1: number_of(rs1),
        amount: amount as u8,
    };
    one(alloc, operands, instr)
}

/// `ld rd, n(rs1)`
fn load_form<'s>(
    alloc: Global,
    op: LoadOp,
    mut operands: Operands<'_, 's>,
) -> Result<Statement<'s>, TokenError>
    ensures value { Reads (forms.Load op) result operands.entry }
    ensures within { IfOk result AlignsWithin }
{
    let rd = operands.register()?;
    let offset = operands.then_immediate()?;
    let rs1 = operands.base()?;
    let instr = Instr::Load {
        op,
        rd: number_of(rd),
        rs1: number_of(rs1),
        offset,
    };
    one(alloc, operands, instr)
}

/// `jalr rd, n(rs1)`
fn jalr_form<'s>(alloc: Global, mut operands: Operands<'_, 's>) -> Result<Statement<'s>, TokenError>
    ensures value { Reads forms.Jalr result operands.entry }
    ensures within { IfOk result AlignsWithin }
{
    let rd = operands.register()?;
    let offset = operands.then_immediate()?;
    let rs1 = operands.base()?;
    let instr = Instr::Jalr {
        rd: number_of(rd),
        rs1: number_of(rs1),
        offset,
    };
    one(alloc, operands, instr)
}

/// `sd rs2, n(rs1)`
fn store_form<'s>(
    alloc: Global,
    op: StoreOp,
    mut operands: Operands<'_, 's>,
) -> Result<Statement<'s>, TokenError>
    ensures value { Reads (forms.Store op) result operands.entry }
    ensures within { IfOk result AlignsWithin }
{
    let rs2 = operands.register()?;
    let offset = operands.then_immediate()?;
    let rs1 = operands.base()?;
    let instr = Instr::Store {
        op,
        rs1: number_of(rs1),
        rs2: number_of(rs2),
        offset,
    };
    one(alloc, operands, instr)
}

/// `beq rs1, rs2, label`
fn branch_form<'s>(
    alloc: Global,
    op: BranchOp,
    mut operands: Operands<'_, 's>,
) -> Result<Statement<'s>, TokenError>
    ensures value { Reads (forms.Branch op) result operands.entry }
    ensures within { IfOk result AlignsWithin }
{
    let rs1 = operands.register()?;
    let rs2 = operands.then_register()?;
    let label = operands.then_name()?;
    let piece = Piece::Branch {
        op,
        rs1,
        rs2,
        label,
    };
    puts(alloc, operands, piece)
}

/// `jal rd, label`
fn jal_form<'s>(alloc: Global, mut operands: Operands<'_, 's>) -> Result<Statement<'s>, TokenError>
    ensures value { Reads forms.Jal result operands.entry }
    ensures within { IfOk result AlignsWithin }
{
    let rd = operands.register()?;
    let label = operands.then_name()?;
    puts(alloc, operands, Piece::Jump { rd, label })
}

/// `lui rd, n`
fn upper_form<'s>(
    alloc: Global,
    op: UpperOp,
    mut operands: Operands<'_, 's>,
) -> Result<Statement<'s>, TokenError>
    ensures value { Reads (forms.Upper op) result operands.entry }
    ensures within { IfOk result AlignsWithin }
{
    let rd = operands.register()?;
    let value = operands.then_up_to(0xF_FFFF)?;
    let instr = Instr::Upper {
        op,
        rd: number_of(rd),
        value,
    };
    one(alloc, operands, instr)
}

fn is_wide(width: Width) -> bool
    ensures { result ≡ is_wide width }
{
    matches!(width, Width::Double)
}

fn is_acquire(order: Order) -> bool
    ensures { result ≡ is_acquire order }
{
    matches!(order, Order::Acquire | Order::Both)
}

fn is_release(order: Order) -> bool
    ensures { result ≡ is_release order }
{
    matches!(order, Order::Release | Order::Both)
}

/// `amoadd.w rd, rs2, (rs1)`, and `lr.w rd, (rs1)`
fn atomic_form<'s>(
    alloc: Global,
    op: AtomicOp,
    width: Width,
    order: Order,
    mut operands: Operands<'_, 's>,
) -> Result<Statement<'s>, TokenError>
    ensures value { Reads (forms.Atomic op width order) result operands.entry }
    ensures within { IfOk result AlignsWithin }
{
    let rd = operands.register()?;
    let rs2 = operands.then_second(op)?;
    let rs1 = operands.then_base()?;
    let instr = Instr::Atomic {
        op,
        wide: is_wide(width),
        aq: is_acquire(order),
        rl: is_release(order),
        rd: number_of(rd),
        rs1: number_of(rs1),
        rs2: number_of(rs2),
    };
    one(alloc, operands, instr)
}

/// An instruction without operands.
fn instruction_alone(name: Alone) -> Instr
    ensures value { result ≡ instruction_alone name }
    ensures sound { InRange result }
{
    match name {
        Alone::Ecall => Instr::Ecall,
        Alone::Ebreak => Instr::Ebreak,
        Alone::Fence => Instr::Fence {
            rd: 0,
            rs1: 0,
            bits: 0x0FF,
        },
        Alone::Nop => Instr::Imm {
            op: ImmOp::Addi,
            rd: 0,
            rs1: 0,
            value: 0,
        },
        Alone::Ret => Instr::Jalr {
            rd: 0,
            rs1: 1,
            offset: 0,
        },
    }
}

/// `mv rd, rs`
fn move_form<'s>(alloc: Global, mut operands: Operands<'_, 's>) -> Result<Statement<'s>, TokenError>
    ensures value { Reads forms.Move result operands.entry }
    ensures within { IfOk result AlignsWithin }
{
    let rd = operands.register()?;
    let rs1 = operands.then_register()?;
    let instr = Instr::Imm {
        op: ImmOp::Addi,
        rd: number_of(rd),
        rs1: number_of(rs1),
        value: 0,
    };
    one(alloc, operands, instr)
}

/// `j label`
fn jump_form<'s>(alloc: Global, mut operands: Operands<'_, 's>) -> Result<Statement<'s>, TokenError>
    ensures value { Reads forms.Jump result operands.entry }
    ensures within { IfOk result AlignsWithin }
{
    let label = operands.name()?;
    let piece = Piece::Jump {
        rd: Register::X0,
        label,
    };
    puts(alloc, operands, piece)
}

/// The word that adds a number of 12 bits to a register.
fn add(op: ImmOp, rd: u8, rs1: u8, value: i32) -> u32
    requires rd { rd < 32 }
    requires rs1 { rs1 < 32 }
    requires value { IsTrue (is_signed 12 value) }
    ensures { result ≡ word_of (instr.Imm op rd rs1 value) }
{
    let instr = Instr::Imm { op, rd, rs1, value };
    encode(instr)
}

/// The word that puts 20 bits above the lowest 12 of a register.
fn load_upper(rd: u8, value: u32) -> u32
    requires rd { rd < 32 }
    requires value { value < 2 ^ 20 }
    ensures { result ≡ word_of (instr.Upper Lui rd value) }
{
    let instr = Instr::Upper {
        op: UpperOp::Lui,
        rd,
        value,
    };
    encode(instr)
}

/// The instructions that put a number into a register: one if it has 12 bits
/// with its sign, else two.
fn load_number<'s>(alloc: Global, rd: u8, value: i128) -> Result<Vec<Piece<'s>>, AllocError>
    requires register { rd < 32 }
    requires low { neg_ℤ (pos (2 ^ 31)) ≤ℤ value }
    requires high { value ≤ℤ pos (2 ^ 31 - 1) }
    ensures { IfOk result (λ v. map piece_of v.items ≡ load_number rd value) }
{
    if let Some(value) = immediate(value) {
        return Ok(vec![in alloc; Piece::Encoded(add(ImmOp::Addi, rd, 0, value))]?);
    }
    let lui = load_upper(rd, upper(value));
    let addiw = add(ImmOp::Addiw, rd, rd, lower(value));
    Ok(vec![in alloc; Piece::Encoded(lui), Piece::Encoded(addiw)]?)
}

/// `li rd, n`
fn load_number_form<'s>(
    alloc: Global,
    mut operands: Operands<'_, 's>,
) -> Result<Statement<'s>, TokenError>
    ensures value { Reads forms.LoadNumber result operands.entry }
    ensures within { IfOk result AlignsWithin }
{
    let rd = operands.register()?;
    operands.mark(b',')?;
    let value = operands.number(-0x8000_0000, 0x7FFF_FFFF)?;
    let pieces = load_number(alloc, number_of(rd), value)?;
    whole(operands, Statement::Puts(pieces))
}

/// `la rd, label`
fn load_address_form<'s>(
    alloc: Global,
    mut operands: Operands<'_, 's>,
) -> Result<Statement<'s>, TokenError>
    ensures value { Reads forms.LoadAddress result operands.entry }
    ensures within { IfOk result AlignsWithin }
{
    let rd = operands.register()?;
    let label = operands.then_name()?;
    puts(alloc, operands, Piece::LoadAddress { rd, label })
}

/// `.globl name`, which does nothing
fn global_form<'s>(
    alloc: Global,
    mut operands: Operands<'_, 's>,
) -> Result<Statement<'s>, TokenError>
    ensures value { Reads forms.Global result operands.entry }
    ensures within { IfOk result AlignsWithin }
{
    operands.name()?;
    whole(operands, Statement::Puts(Vec::new(alloc)))
}

/// `.ascii "text"`
fn ascii_form<'s>(
    alloc: Global,
    mut operands: Operands<'_, 's>,
) -> Result<Statement<'s>, TokenError>
    ensures value { Reads forms.Ascii result operands.entry }
    ensures within { IfOk result AlignsWithin }
{
    let bytes = operands.text()?;
    let bytes = Vec::from_slice(alloc, bytes)?;
    puts(alloc, operands, Piece::Bytes(bytes))
}

/// `.zero n`
fn zeros_form<'s>(
    alloc: Global,
    mut operands: Operands<'_, 's>,
) -> Result<Statement<'s>, TokenError>
    ensures value { Reads forms.Zeros result operands.entry }
    ensures within { IfOk result AlignsWithin }
{
    let count = operands.number_up_to(MAX_SECTION)?;
    puts(alloc, operands, Piece::Zeros(count))
}

/// `.align n`
fn align_form<'s>(mut operands: Operands<'_, 's>) -> Result<Statement<'s>, TokenError>
    ensures value { Reads forms.Align result operands.entry }
    ensures within { IfOk result AlignsWithin }
{
    let bits = operands.number_up_to(12)?;
    whole(operands, Statement::Aligns(bits))
}

/// The bytes of a number of this size.
fn number_bytes(alloc: Global, size: Size, value: i128) -> Result<Vec<u8>, AllocError>
    ensures { IfOk result (λ v.
        v.items ≡ bytes_low_first 0 (bytes_of size) (twos_complement (8 * bytes_of size) value)) }
{
    match size {
        Size::One => Ok(vec![in alloc; low_bits(value, 8) as u8]?),
        Size::Four => Vec::from_slice(alloc, &(low_bits(value, 32) as u32).to_le_bytes()),
        Size::Eight => Vec::from_slice(alloc, &low_bits(value, 64).to_le_bytes()),
    }
}

/// Whether a number of this size, with or without a sign, can be this.
fn is_in_size(size: Size, value: i128) -> bool
    ensures { result ≡ is_within (neg_ℤ (pos (2 ^ (8 * bytes_of size - 1))))
        (pos (2 ^ (8 * bytes_of size) - 1)) value }
{
    match size {
        Size::One => -0x80 <= value && value <= 0xFF,
        Size::Four => -0x8000_0000 <= value && value <= 0xFFFF_FFFF,
        Size::Eight => -0x8000_0000_0000_0000 <= value && value <= 0xFFFF_FFFF_FFFF_FFFF,
    }
}

/// A number of this size.
fn number_item<'s>(
    alloc: Global,
    end: u32,
    size: Size,
    value: i128,
    column: u32,
) -> Result<Piece<'s>, TokenError>
    ensures { GivesLine piece_of result (number_item end size value column) }
{
    if is_in_size(size, value) {
        Ok(Piece::Bytes(number_bytes(alloc, size, value)?))
    } else {
        Err(TokenError::Fault {
            kind: AsmKind::Range,
            column,
        })
    }
}

/// A label, whose address has eight bytes.
fn label_item<'s>(
    end: u32,
    size: Size,
    name: &'s [u8],
    column: u32,
) -> Result<Piece<'s>, TokenError>
    ensures { GivesLine piece_of result (label_item end size name.now column) }
{
    match size {
        Size::Eight => Ok(Piece::Address(NameUse { name, column })),
        _ => Err(operand_fault(column)),
    }
}

/// A number of this size, or a label if that is eight bytes.
fn item<'s>(
    alloc: Global,
    end: u32,
    size: Size,
    found: &Placed<'s>,
) -> Result<Piece<'s>, TokenError>
    ensures { GivesLine piece_of result (item end size (placed_of found.now)) }
{
    match &found.token {
        Token::Name(name) => label_item(end, size, *name, found.column),
        Token::Number(value) => number_item(alloc, end, size, *value, found.column),
        _ => Err(operand_fault(found.column)),
    }
}

/// The next item.
fn next_item<'s>(
    alloc: Global,
    size: Size,
    operands: &mut Operands<'_, 's>,
) -> Result<Piece<'s>, TokenError>
    ensures { Takes piece_of result operands.old operands.new
        (item_operand operands.old.end size (tokens_left operands.old)) }
{
    let first = operands.token()?;
    item(alloc, operands.end(), size, first)
}

/// The next item after a comma.
fn then_item<'s>(
    alloc: Global,
    size: Size,
    operands: &mut Operands<'_, 's>,
) -> Result<Piece<'s>, TokenError>
    ensures { Takes piece_of result operands.old operands.new
        (then_item operands.old.end size (tokens_left operands.old)) }
{
    operands.mark(b',')?;
    next_item(alloc, size, operands)
}

/// Items with a comma between each two.
fn items<'s>(
    alloc: Global,
    size: Size,
    mut operands: Operands<'_, 's>,
) -> Result<Vec<Piece<'s>>, TokenError>
    ensures { GivesLine (λ v. map piece_of v.items) result
        (items operands.entry.end size (tokens_left operands.entry)) }
{
    let first = next_item(alloc, size, &mut operands)?;
    let mut pieces = vec![in alloc; first]?;
    while operands.finish().is_err() {
        pieces.push(then_item(alloc, size, &mut operands)?)?;
    }
    Ok(pieces)
}

/// `.word n, n`, and its kin of other sizes
fn numbers_form<'s>(
    alloc: Global,
    size: Size,
    operands: Operands<'_, 's>,
) -> Result<Statement<'s>, TokenError>
    ensures value { Reads (forms.Numbers size) result operands.entry }
    ensures within { IfOk result AlignsWithin }
{
    let pieces = items(alloc, size, operands)?;
    Ok(Statement::Puts(pieces))
}

/// The statement of this form whose operands these are.
/// Err is the first wrong operand, or out of memory.
pub fn statement<'s>(
    alloc: Global,
    end: u32,
    form: Form,
    tokens: &[Placed<'s>],
) -> Result<Statement<'s>, TokenError>
    ensures value { GivesLine statement_of result (statement end form (all_placed tokens.now)) }
    ensures within { IfOk result AlignsWithin }
{
    let operands = Operands::new(tokens, end);
    match form {
        Form::Register(op) => register_form(alloc, op, operands),
        Form::Immediate(op) => immediate_form(alloc, op, operands),
        Form::Shift(op) => shift_form(alloc, op, operands),
        Form::Load(op) => load_form(alloc, op, operands),
        Form::Jalr => jalr_form(alloc, operands),
        Form::Store(op) => store_form(alloc, op, operands),
        Form::Branch(op) => branch_form(alloc, op, operands),
        Form::Jal => jal_form(alloc, operands),
        Form::Upper(op) => upper_form(alloc, op, operands),
        Form::Atomic(op, width, order) => atomic_form(alloc, op, width, order, operands),
        Form::Plain(name) => one(alloc, operands, instruction_alone(name)),
        Form::Move => move_form(alloc, operands),
        Form::Jump => jump_form(alloc, operands),
        Form::LoadNumber => load_number_form(alloc, operands),
        Form::LoadAddress => load_address_form(alloc, operands),
        Form::Enter(section) => whole(operands, Statement::Enters(section)),
        Form::Global => global_form(alloc, operands),
        Form::Numbers(size) => numbers_form(alloc, size, operands),
        Form::Ascii => ascii_form(alloc, operands),
        Form::Zeros => zeros_form(alloc, operands),
        Form::Align => align_form(operands),
    }
}
