//! The claims and their seats.
ghost use Rattle.std.specs.Prelude.{◌≡◌, []};

use crate::hand::{EachOnce, Hand};
use atomic_table::{Seat, Table};
use std::alloc::Global;

/// A count that begins at 0, from which seats draw numbers, and a bound:
/// the numbers below it are claims.
#[derive(Drop)]
pub struct Claims {
    pub(crate) table: Table<(), Hand, (), EachOnce, Global>,
    pub(crate) bound: u32,
    ghost one_word: { table.shared.table_id.words ≡ 1 },
    ghost no_slot: { table.shared.table_id.slots ≡ 0 },
}

/// The right to draw a number of times from some claims, with the numbers that were drawn by it.
#[derive(Drop)]
pub struct ClaimSeat {
    pub(crate) seat: Seat<(), Hand>,
    ghost bare: { seat.me.1 ≡ [] },
}

fn is_shared<T: Send + Sync>() {}

fn is_sent<T: Send>() {}

// Workers share the claims.
fn claims_are_shared() {
    is_shared::<Claims>()
}

// A worker gets a seat.
fn seat_is_sent() {
    is_sent::<ClaimSeat>()
}
