//! The value of `--costs`: a list of classes and their cycles, such as `ecall=1000,load=4`.
ghost use Rattle.std.specs.Prelude.{◌≡◌, fold};
ghost use Rattle.std.specs.List.{list_all};
ghost use Rattle.std.specs.Option.{option_copied};
ghost use Rattle.experiment_plan.specs.Lists.{pieces};
ghost use Rattle.gain_words.specs.Costs.{class_name, is_class, is_piece, number_of, with_piece, cost_in, costs_in};
ghost use Rattle.gain_words.specs.declared.slot.Slot.TheVariants.{Absent};

use crate::cut::cut;
use crate::slot::{Slot, fill, value_or};
use experiment_plan::{first_piece, number_in};
use timing_model::{Class, Costs, MAX_COST};

/// The name of a class.
fn class_name(class: Class) -> &'static [u8]
    ensures { result.now ≡ class_name class }
{
    match class {
        Class::Integer => b"integer",
        Class::Jump => b"jump",
        Class::Load => b"load",
        Class::Multiply => b"multiply",
        Class::Atomic => b"atomic",
        Class::Divide => b"divide",
        Class::Ecall => b"ecall",
    }
}

/// Whether the name is that of a class.
fn is_class(name: &[u8]) -> bool
    ensures { result ≡ is_class name.now }
{
    name == class_name(Class::Integer)
        || name == class_name(Class::Jump)
        || name == class_name(Class::Load)
        || name == class_name(Class::Multiply)
        || name == class_name(Class::Atomic)
        || name == class_name(Class::Divide)
        || name == class_name(Class::Ecall)
}

/// Whether each piece of a list names a class.
fn are_pieces(list: &[u8]) -> bool
    ensures { result ≡ list_all is_piece (pieces list.now) }
{
    let mut left = Some(list);
    while let Some(list) = left {
        let (piece, rest) = first_piece(list);
        if !is_class(cut(piece).0) {
            return false;
        }
        left = rest;
    }
    true
}

/// The cycles that a piece gives its class. None if it gives none from 1 to 10,000.
fn number_of(value: Option<&[u8]>) -> Option<u16>
    ensures { result ≡ number_of (option_copied value.entry) }
{
    match value {
        Some(value) => match number_in(value, 1, u64::from(MAX_COST)) {
            Some(number) => Some(number as u16),
            None => None,
        },
        None => None,
    }
}

/// What some pieces give a class, and one piece more.
fn with_piece(class: Class, slot: Slot<u16>, piece: &[u8]) -> Slot<u16>
    ensures { result ≡ with_piece class slot piece.now }
{
    let (name, value) = cut(piece);
    if name == class_name(class) {
        fill(slot, number_of(value))
    } else {
        slot
    }
}

/// What the pieces of a list give a class.
fn slot_of(class: Class, list: &[u8]) -> Slot<u16>
    ensures { result ≡ fold (with_piece class) Absent (pieces list.now) }
{
    let mut slot = Slot::Absent;
    let mut left = Some(list);
    while let Some(list) = left {
        let (piece, rest) = first_piece(list);
        slot = with_piece(class, slot, piece);
        left = rest;
    }
    slot
}

/// The cycles of a class, by a list. None if the list gives a wrong number, or two numbers.
fn cost_in(class: Class, list: &[u8]) -> Option<u16>
    ensures { result ≡ cost_in (pieces list.now) class }
{
    value_or(slot_of(class, list), Costs::usual().of(class))
}

/// The costs that a list gives; a class that it does not name has its usual cost. Each piece of the
/// list is the name of a class, `=` and its cycles, from 1 to 10,000, and a comma is between two
/// pieces. None if the list is another, or names a class twice.
pub fn costs_in(list: &[u8]) -> Option<Costs>
    ensures { result ≡ costs_in list.now }
{
    if !are_pieces(list) {
        return None;
    }
    Some(Costs {
        integer: cost_in(Class::Integer, list)?,
        jump: cost_in(Class::Jump, list)?,
        load: cost_in(Class::Load, list)?,
        multiply: cost_in(Class::Multiply, list)?,
        atomic: cost_in(Class::Atomic, list)?,
        divide: cost_in(Class::Divide, list)?,
        ecall: cost_in(Class::Ecall, list)?,
    })
}
