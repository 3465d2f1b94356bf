//! Reservations of lr and sc (RISC-V unprivileged manual, extension A).
ghost use Rattle.std.specs.Prelude.{◌≡◌, ◌<◌, []};
ghost use Rattle.rv_execute.specs.Reservations.{eight_at, without_own, with_reservation, is_touched, without_touched, is_reserved};

use coz_types::{Address, HARTS, HartId};
use std::marker::Model;

/// The reservations of up to `HARTS` harts: each has at most one, of 8 aligned bytes.
#[derive(Drop)]
pub struct Reservations {
    // Of each hart that has one, its number and the start of its 8 bytes. Few stand at a time,
    // so a store looks at few.
    slots: [(u16, Address); HARTS],
    count: usize,
}

impl Model for Reservations {
    ghost use Rattle.std.specs.Prelude.{◌≤◌, List, ℕ, take};
    ghost use Rattle.coz_types.specs.declared.TheConstants.{HARTS};
    ghost use Rattle.rv_execute.specs.Held.{AreApart};

    ghost Value = { List (ℕ × ℕ) };

    ghost view = { λ r. take r.count r.slots };

    ghost invariant = { λ r. AreApart (take r.count r.slots) × (r.count ≤ HARTS) };
}

/// Whether the 8 bytes at `start` have one of `count` bytes from an address on.
#[inline]
fn touches(address: Address, count: u64, start: Address) -> bool
    ensures { result ≡ is_touched address count start }
{
    if start >= address {
        start - address < count
    } else {
        count > 0 && address - start < 8
    }
}

impl Reservations {
    /// No reservation.
    pub fn new() -> Reservations
        ensures { result ≡ [] }
    {
        Reservations {
            slots: [(0, 0); HARTS],
            count: 0,
        }
    }

    /// Ends each reservation whose 8 bytes have one of `count` bytes from an address on.
    #[inline]
    pub fn end_at(&mut self, address: Address, count: u64)
        ensures { self.new ≡ without_touched address count self.old }
    {
        let mut kept = 0;
        for i in 0..self.count {
            let reservation = self.slots[i];
            self.slots[kept] = reservation;
            kept += usize::from(!touches(address, count, reservation.1));
        }
        self.count = kept;
    }

    /// Ends the hart's own reservation.
    #[inline]
    pub(crate) fn end_own(&mut self, hart: HartId)
        ensures { self.new ≡ without_own hart.0 self.old }
    {
        let mut kept = 0;
        for i in 0..self.count {
            let reservation = self.slots[i];
            self.slots[kept] = reservation;
            kept += usize::from(reservation.0 != hart.0);
        }
        self.count = kept;
    }

    /// Makes the aligned 8 bytes that hold an address the hart's one reservation.
    pub(crate) fn reserve(&mut self, hart: HartId, address: Address)
        requires { hart.0 < HARTS }
        ensures { self.new ≡ with_reservation hart.0 address self.old }
    {
        self.end_own(hart);
        self.slots[self.count] = (hart.0, address / 8 * 8);
        self.count += 1;
    }

    /// Whether the hart has a reservation of the bytes at an address.
    pub(crate) fn is_reserved(&self, hart: HartId, address: Address) -> bool
        ensures { result ≡ is_reserved hart.0 address self.now }
    {
        let start = address / 8 * 8;
        self.slots[..self.count].iter().any(|reservation| reservation.0 == hart.0
            && reservation.1 == start)
    }

    /// Makes these reservations equal to others.
    pub fn copy_from(&mut self, other: &Reservations)
        ensures { self.new ≡ other.now }
    {
        let count = other.count;
        self.slots[..count].copy_from_slice(&other.slots[..count]);
        self.count = count;
    }
}

fn is_sent<T: Send>() {}

// A worker may run on what another has begun.
fn reservations_are_sent() {
    is_sent::<Reservations>()
}
