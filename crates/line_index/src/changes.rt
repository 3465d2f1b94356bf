//! What stands at each address, as the list of where it changes.

ghost use Rattle.std.specs.Prelude.{◌≡◌, ℕ, ◌+◌, ◌≤◌, ◌<◌, ◌^◌, length, IfOk, None};
ghost use Rattle.line_index.specs.Changes.{value_at, IsRising, joined_position, next, least, position_after, ahead_after, place_of, changes_of};

use coz_types::{Address, LineId};
use std::alloc::{AllocError, Global};

/// From this address on, up to the next change, a span, or none.
#[derive(Clone, Copy)]
pub struct Change {
    /// The first address.
    pub address: Address,
    /// The position of the span in the list of spans, if there is one.
    pub position: Option<u32>,
}

/// From this address on, up to the next change, a line, or none.
#[derive(Clone, Copy)]
pub struct LineChange {
    /// The first address.
    pub address: Address,
    /// The line, if there is one.
    pub line: Option<LineId>,
}

/// The rule by which two lists of changes become one.
#[derive(Clone, Copy)]
pub enum Join {
    /// The first's position, and if it has none the second's.
    Over,
    /// The second's position if the first has one.
    Within,
}

impl Join {
    fn position(self, first: Option<u32>, second: Option<u32>) -> Option<u32>
        ensures { result ≡ joined_position self first second }
    {
        match self {
            Join::Over => first.or(second),
            Join::Within => first.and(second),
        }
    }
}

/// A list of changes that is gone through: what stands now, and the changes ahead.
#[derive(Clone, Copy, Drop)]
struct Side<'a> {
    position: Option<u32>,
    ahead: &'a [Change],
}

impl<'a> Side<'a> {
    fn next_address(&self) -> Option<Address>
        ensures { result ≡ next self.now.ahead.now }
    {
        match self.ahead.split_first() {
            Some((change, _)) => Some(change.address),
            None => None,
        }
    }

    /// Goes over the next change if it is at this address.
    fn pass(&mut self, address: Address)
        ensures position { self.new.position
            ≡ position_after address self.old.position self.old.ahead.now }
        ensures ahead { self.new.ahead.now ≡ ahead_after address self.old.ahead.now }
    {
        if let Some((change, rest)) = self.ahead.split_first() {
            if change.address == address {
                self.position = change.position;
                self.ahead = rest;
            }
        }
    }
}

/// The lesser of two addresses, if there are two.
fn least(first: Option<Address>, second: Option<Address>) -> Option<Address>
    ensures { result ≡ least first second }
{
    match (first, second) {
        (None, _) => second,
        (Some(_), None) => first,
        (Some(x), Some(y)) => { if x <= y { first } else { second } }
    }
}

/// Two lists of changes as one.
pub fn merged(
    alloc: Global,
    join: Join,
    first: &[Change],
    second: &[Change],
) -> Result<Vec<Change>, AllocError>
    requires first_rises { IsRising 0 first.now }
    requires second_rises { IsRising 0 second.now }
    ensures values { IfOk result (λ changes. (a : ℕ) → value_at a None changes.items
        ≡ joined_position join (value_at a None first.now) (value_at a None second.now)) }
    ensures rises { IfOk result (λ changes. IsRising 0 changes.items) }
    ensures few { IfOk result (λ changes.
        length changes.items ≤ length first.now + length second.now) }
{
    let mut changes = Vec::new(alloc);
    let mut first = Side {
        position: None,
        ahead: first,
    };
    let mut second = Side {
        position: None,
        ahead: second,
    };
    while let Some(address) = least(first.next_address(), second.next_address()) {
        first.pass(address);
        second.pass(address);
        changes.push(Change {
            address,
            position: join.position(first.position, second.position),
        })?;
    }
    Ok(changes)
}

/// The line that stands at an address. None if none does.
pub fn line_at(changes: &[LineChange], address: Address) -> Option<LineId>
    requires { IsRising 0 (changes_of changes.now) }
    ensures { place_of result ≡ value_at address None (changes_of changes.now) }
{
    let passed = changes.partition_point(|change| change.address <= address);
    if passed == 0 {
        None
    } else {
        changes[passed - 1].line
    }
}
