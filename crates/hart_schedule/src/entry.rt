//! The entry of a hart and its key in one number, whose order is that of the harts that are due.
ghost use Rattle.std.specs.Prelude.{◌≡◌, ◌<◌, ◌^◌};
ghost use Rattle.coz_types.specs.declared.TheConstants.{HARTS};
ghost use Rattle.hart_schedule.specs.Entry.{entry_of, contender_of};

use coz_types::{HARTS, HartId, Tick};

/// A hart in the schedule, with its key.
#[derive(Clone, Copy)]
pub struct Contender {
    /// When it is due.
    pub key: Tick,
    /// The number of the hart.
    pub hart: HartId,
}

/// The numbers of harts that an entry tells apart.
const NUMBERS: u64 = HARTS as u64;

/// The entry of a hart with its key: of two entries the lesser has the lesser key, and of equal
/// keys the lesser number.
#[inline(always)]
pub fn entry_of(key: Tick, hart: HartId) -> u64
    requires key { key < 2 ^ 56 }
    requires hart { hart.0 < HARTS }
    ensures { result ≡ entry_of key hart.0 }
{
    key * NUMBERS + u64::from(hart.0)
}

/// The hart of an entry, with its key.
#[inline(always)]
pub fn contender_of(entry: u64) -> Contender
    ensures { result ≡ contender_of entry }
{
    Contender {
        key: entry / NUMBERS,
        hart: HartId((entry % NUMBERS) as u16),
    }
}
