//! Pages and protections of the mapping calls.
ghost use Rattle.std.specs.Prelude.{ℕ, ◌≡◌, ◌≤◌, ◌^◌};
ghost use Rattle.guest_memory.specs.Regions.{pages_for};
ghost use Rattle.guest_areas.specs.Space.{has_power, rights_of, is_in_run};

use coz_types::{PAGE, Rights};

// The bits of a protection (Linux: mprotect(2)).

/// PROT_READ.
const READ: u64 = 1;
/// PROT_WRITE.
const WRITE: u64 = 2;
/// PROT_EXEC.
const EXECUTE: u64 = 4;

/// The number of pages that hold `length` bytes.
pub fn pages_for(length: u64) -> u64
    ensures value { result ≡ pages_for length }
    ensures low { result ≤ 2 ^ 52 }
{
    length.div_ceil(PAGE)
}

/// Whether a protection asks for the right to execute.
pub fn asks_execute(protection: u64) -> bool
    ensures { result ≡ has_power protection 4 }
{
    protection & EXECUTE != 0
}

/// The rights that a protection gives: to write is to read too.
pub fn rights_of(protection: u64) -> Rights
    ensures { result ≡ rights_of protection }
{
    let write = protection & WRITE != 0;
    Rights {
        read: protection & READ != 0 || write,
        write,
        execute: false,
    }
}

/// Whether `page` is one of the `count` pages from `first` on.
pub fn is_in_run(first: u64, count: u64, page: u64) -> bool
    ensures { result ≡ is_in_run first count page }
{
    first <= page && page - first < count
}
