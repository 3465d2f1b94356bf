//! The statements by their first words, and the registers by their names.

ghost use Rattle.std.specs.Prelude.{◌≡◌, map, option_map};
ghost use Rattle.std.specs.List.{flat_map};
ghost use Rattle.asm_tokens.specs.Table.{register_of, form_of, look_up, plain_rows, order_rows, atomic_rows};
ghost use Rattle.asm_tokens.specs.Registers.{number_of};
ghost use Rattle.asm_tokens.specs.Views.{entry_view};

use crate::form::{Alone, Form, Order, Section, Size, Width};
use crate::register::Register;
use rv_decode::{AtomicOp, BranchOp, ImmOp, LoadOp, RegOp, ShiftOp, StoreOp, UpperOp};

/// The names of the registers.
const REGISTERS: [(&[u8], Register); 65] = [
    (b"x0", Register::X0),
    (b"zero", Register::X0),
    (b"x1", Register::X1),
    (b"ra", Register::X1),
    (b"x2", Register::X2),
    (b"sp", Register::X2),
    (b"x3", Register::X3),
    (b"gp", Register::X3),
    (b"x4", Register::X4),
    (b"tp", Register::X4),
    (b"x5", Register::X5),
    (b"t0", Register::X5),
    (b"x6", Register::X6),
    (b"t1", Register::X6),
    (b"x7", Register::X7),
    (b"t2", Register::X7),
    (b"x8", Register::X8),
    (b"s0", Register::X8),
    (b"fp", Register::X8),
    (b"x9", Register::X9),
    (b"s1", Register::X9),
    (b"x10", Register::X10),
    (b"a0", Register::X10),
    (b"x11", Register::X11),
    (b"a1", Register::X11),
    (b"x12", Register::X12),
    (b"a2", Register::X12),
    (b"x13", Register::X13),
    (b"a3", Register::X13),
    (b"x14", Register::X14),
    (b"a4", Register::X14),
    (b"x15", Register::X15),
    (b"a5", Register::X15),
    (b"x16", Register::X16),
    (b"a6", Register::X16),
    (b"x17", Register::X17),
    (b"a7", Register::X17),
    (b"x18", Register::X18),
    (b"s2", Register::X18),
    (b"x19", Register::X19),
    (b"s3", Register::X19),
    (b"x20", Register::X20),
    (b"s4", Register::X20),
    (b"x21", Register::X21),
    (b"s5", Register::X21),
    (b"x22", Register::X22),
    (b"s6", Register::X22),
    (b"x23", Register::X23),
    (b"s7", Register::X23),
    (b"x24", Register::X24),
    (b"s8", Register::X24),
    (b"x25", Register::X25),
    (b"s9", Register::X25),
    (b"x26", Register::X26),
    (b"s10", Register::X26),
    (b"x27", Register::X27),
    (b"s11", Register::X27),
    (b"x28", Register::X28),
    (b"t3", Register::X28),
    (b"x29", Register::X29),
    (b"t4", Register::X29),
    (b"x30", Register::X30),
    (b"t5", Register::X30),
    (b"x31", Register::X31),
    (b"t6", Register::X31),
];

/// The statements but the atomics, by their first words.
const PLAIN: [(&[u8], Form); 80] = [
    (b"add", Form::Register(RegOp::Add)),
    (b"sll", Form::Register(RegOp::Sll)),
    (b"slt", Form::Register(RegOp::Slt)),
    (b"sltu", Form::Register(RegOp::Sltu)),
    (b"xor", Form::Register(RegOp::Xor)),
    (b"srl", Form::Register(RegOp::Srl)),
    (b"or", Form::Register(RegOp::Or)),
    (b"and", Form::Register(RegOp::And)),
    (b"sub", Form::Register(RegOp::Sub)),
    (b"sra", Form::Register(RegOp::Sra)),
    (b"mul", Form::Register(RegOp::Mul)),
    (b"mulh", Form::Register(RegOp::Mulh)),
    (b"mulhsu", Form::Register(RegOp::Mulhsu)),
    (b"mulhu", Form::Register(RegOp::Mulhu)),
    (b"div", Form::Register(RegOp::Div)),
    (b"divu", Form::Register(RegOp::Divu)),
    (b"rem", Form::Register(RegOp::Rem)),
    (b"remu", Form::Register(RegOp::Remu)),
    (b"addw", Form::Register(RegOp::Addw)),
    (b"sllw", Form::Register(RegOp::Sllw)),
    (b"srlw", Form::Register(RegOp::Srlw)),
    (b"subw", Form::Register(RegOp::Subw)),
    (b"sraw", Form::Register(RegOp::Sraw)),
    (b"mulw", Form::Register(RegOp::Mulw)),
    (b"divw", Form::Register(RegOp::Divw)),
    (b"divuw", Form::Register(RegOp::Divuw)),
    (b"remw", Form::Register(RegOp::Remw)),
    (b"remuw", Form::Register(RegOp::Remuw)),
    (b"addi", Form::Immediate(ImmOp::Addi)),
    (b"slti", Form::Immediate(ImmOp::Slti)),
    (b"sltiu", Form::Immediate(ImmOp::Sltiu)),
    (b"xori", Form::Immediate(ImmOp::Xori)),
    (b"ori", Form::Immediate(ImmOp::Ori)),
    (b"andi", Form::Immediate(ImmOp::Andi)),
    (b"addiw", Form::Immediate(ImmOp::Addiw)),
    (b"slli", Form::Shift(ShiftOp::Slli)),
    (b"srli", Form::Shift(ShiftOp::Srli)),
    (b"srai", Form::Shift(ShiftOp::Srai)),
    (b"slliw", Form::Shift(ShiftOp::Slliw)),
    (b"srliw", Form::Shift(ShiftOp::Srliw)),
    (b"sraiw", Form::Shift(ShiftOp::Sraiw)),
    (b"lb", Form::Load(LoadOp::Lb)),
    (b"lh", Form::Load(LoadOp::Lh)),
    (b"lw", Form::Load(LoadOp::Lw)),
    (b"ld", Form::Load(LoadOp::Ld)),
    (b"lbu", Form::Load(LoadOp::Lbu)),
    (b"lhu", Form::Load(LoadOp::Lhu)),
    (b"lwu", Form::Load(LoadOp::Lwu)),
    (b"jalr", Form::Jalr),
    (b"sb", Form::Store(StoreOp::Sb)),
    (b"sh", Form::Store(StoreOp::Sh)),
    (b"sw", Form::Store(StoreOp::Sw)),
    (b"sd", Form::Store(StoreOp::Sd)),
    (b"beq", Form::Branch(BranchOp::Beq)),
    (b"bne", Form::Branch(BranchOp::Bne)),
    (b"blt", Form::Branch(BranchOp::Blt)),
    (b"bge", Form::Branch(BranchOp::Bge)),
    (b"bltu", Form::Branch(BranchOp::Bltu)),
    (b"bgeu", Form::Branch(BranchOp::Bgeu)),
    (b"jal", Form::Jal),
    (b"lui", Form::Upper(UpperOp::Lui)),
    (b"auipc", Form::Upper(UpperOp::Auipc)),
    (b"ecall", Form::Plain(Alone::Ecall)),
    (b"ebreak", Form::Plain(Alone::Ebreak)),
    (b"fence", Form::Plain(Alone::Fence)),
    (b"nop", Form::Plain(Alone::Nop)),
    (b"mv", Form::Move),
    (b"j", Form::Jump),
    (b"ret", Form::Plain(Alone::Ret)),
    (b"li", Form::LoadNumber),
    (b"la", Form::LoadAddress),
    (b".text", Form::Enter(Section::Text)),
    (b".data", Form::Enter(Section::Data)),
    (b".globl", Form::Global),
    (b".byte", Form::Numbers(Size::One)),
    (b".word", Form::Numbers(Size::Four)),
    (b".dword", Form::Numbers(Size::Eight)),
    (b".ascii", Form::Ascii),
    (b".zero", Form::Zeros),
    (b".align", Form::Align),
];

/// The atomics by their words without an order.
const ATOMICS: [(&[u8], (AtomicOp, Width)); 22] = [
    (b"lr.w", (AtomicOp::Lr, Width::Word)),
    (b"lr.d", (AtomicOp::Lr, Width::Double)),
    (b"sc.w", (AtomicOp::Sc, Width::Word)),
    (b"sc.d", (AtomicOp::Sc, Width::Double)),
    (b"amoadd.w", (AtomicOp::Amoadd, Width::Word)),
    (b"amoadd.d", (AtomicOp::Amoadd, Width::Double)),
    (b"amoswap.w", (AtomicOp::Amoswap, Width::Word)),
    (b"amoswap.d", (AtomicOp::Amoswap, Width::Double)),
    (b"amoxor.w", (AtomicOp::Amoxor, Width::Word)),
    (b"amoxor.d", (AtomicOp::Amoxor, Width::Double)),
    (b"amoor.w", (AtomicOp::Amoor, Width::Word)),
    (b"amoor.d", (AtomicOp::Amoor, Width::Double)),
    (b"amoand.w", (AtomicOp::Amoand, Width::Word)),
    (b"amoand.d", (AtomicOp::Amoand, Width::Double)),
    (b"amomin.w", (AtomicOp::Amomin, Width::Word)),
    (b"amomin.d", (AtomicOp::Amomin, Width::Double)),
    (b"amomax.w", (AtomicOp::Amomax, Width::Word)),
    (b"amomax.d", (AtomicOp::Amomax, Width::Double)),
    (b"amominu.w", (AtomicOp::Amominu, Width::Word)),
    (b"amominu.d", (AtomicOp::Amominu, Width::Double)),
    (b"amomaxu.w", (AtomicOp::Amomaxu, Width::Word)),
    (b"amomaxu.d", (AtomicOp::Amomaxu, Width::Double)),
];

/// The orders by their suffixes in the name of an atomic.
const SUFFIXES: [(&[u8], Order); 4] = [
    (b"", Order::Relaxed),
    (b".aq", Order::Acquire),
    (b".rl", Order::Release),
    (b".aqrl", Order::Both),
];

/// The first entry of that name.
fn look_up<T: Copy>(rows: &[(&[u8], T)], name: &[u8]) -> Option<T>
    ensures { result ≡ look_up name.now (map entry_view rows.now) }
{
    for row in rows.iter() {
        if name == row.0 {
            return Some(row.1);
        }
    }
    None
}

/// The register with this name.
pub fn register_of(name: &[u8]) -> Option<Register>
    ensures { option_map number_of result ≡ register_of name.now }
{
    look_up(&REGISTERS, name)
}

#[tactic(auto, unfolding(crate::specs::Table::plain_rows))]
fn plain_form(name: &[u8]) -> Option<Form>
    ensures { result ≡ look_up name.now plain_rows }
{
    look_up(&PLAIN, name)
}

/// The form of this atomic, if the name is its word with an order's suffix.
fn ordered_form(atomic: &(&[u8], (AtomicOp, Width)), name: &[u8]) -> Option<Form>
    ensures { result ≡ look_up name.now (order_rows (entry_view atomic.now)) }
{
    let suffix = name.strip_prefix(atomic.0)?;
    let order = look_up(&SUFFIXES, suffix)?;
    let (op, width) = atomic.1;
    Some(Form::Atomic(op, width, order))
}

/// The form of the first of these atomics that has that name in some order.
fn look_up_ordered(atomics: &[(&[u8], (AtomicOp, Width))], name: &[u8]) -> Option<Form>
    ensures { result ≡ look_up name.now (flat_map order_rows (map entry_view atomics.now)) }
{
    for atomic in atomics.iter() {
        if let Some(form) = ordered_form(atomic, name) {
            return Some(form);
        }
    }
    None
}

#[tactic(auto, unfolding(crate::specs::Table::atomic_rows))]
fn atomic_form(name: &[u8]) -> Option<Form>
    ensures { result ≡ look_up name.now atomic_rows }
{
    look_up_ordered(&ATOMICS, name)
}

/// The form of the statement that begins with this word.
pub fn form_of(name: &[u8]) -> Option<Form>
    ensures { result ≡ form_of name.now }
{
    match plain_form(name) {
        Some(form) => Some(form),
        None => atomic_form(name),
    }
}
