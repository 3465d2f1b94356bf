//! How much of a critical path each line has.
ghost use Rattle.std.specs.Prelude.{◌≡◌, ◌+◌, ◌^◌, ◌<◌, ◌≤◌, ◌++◌, [], ◌∷◌, ◌==◌, ℕ, map, length, get_or, sum_by, if◌then◌else◌, IfOk, OnOk};
ghost use Rattle.std.specs.List.{filter, range_with_len};
ghost use Rattle.line_index.specs.Index.{position_at};
ghost use Rattle.profile_labels.specs.Sorted.{sorted_by};
ghost use Rattle.path_chains.specs.Path.{event_at, ticks, weight};
ghost use Rattle.path_chains.specs.Shares.{has_more};
ghost use Rattle.path_texts.specs.declared.shares.TheConstants.{KEPT_ADDRESSES};
ghost use Rattle.path_texts.specs.PathText.{events_on, has_some, shares_of, slept_on, work_elsewhere};
ghost use Rattle.path_texts.specs.Shares.{place_in, share_in, AreKept, IsCounted};

use coz_types::{Address, HartId, Items, Tick};
use line_index::LineIndex;
use path_chains::{Event, Share, by_falling_ticks};
use std::alloc::{AllocError, Global};

/// The shares of a path: of each line, of code without a line, and of sleep.
#[derive(Drop)]
pub struct Shares {
    /// The lines that have some of it, by falling ticks, and then in the order of lines.
    pub lines: Items<Share>,
    /// The ticks of work of code without a line.
    pub none: Tick,
    /// The ticks that the path slept.
    pub sleep: Tick,
}

/// The ticks of a path so far.
#[derive(Drop)]
pub struct Sums {
    /// Of work, by places: of each line, of code without a line, and of any other line.
    pub work: Vec<Tick>,
    /// Of sleep.
    pub sleep: Tick,
}

/// The event that replaces one that does not exist.
const NO_EVENT: Event = Event {
    hart: HartId(0),
    address: 0,
    cost: 0,
    slept: 0,
    from: None,
    before: None,
    due: 0,
};

/// The event of a number, and one of all zeros if there is none.
pub fn event_of(events: &[Event], number: u32) -> Event
    ensures { result ≡ event_at events.now number }
{
    match events.get(number as usize) {
        Some(event) => *event,
        None => NO_EVENT,
    }
}

/// The place of an address in the sums: the position of its line, or the one after all lines if
/// it has none.
fn place_of(index: &LineIndex, address: Address) -> usize
    ensures place { result ≡ place_in (length index.now.lines) (position_at index.now address) }
    ensures below { result < length index.now.lines + 2 }
{
    let count = index.count();
    match index.line_of(address) {
        None => count as usize,
        Some(line) if line.0 < count => line.0 as usize,
        Some(_) => count as usize + 1,
    }
}

/// The number of addresses that are kept with their places.
const KEPT_ADDRESSES: u64 = 4096;

/// An address, and its place in the sums.
#[derive(Clone, Copy)]
pub struct Found {
    address: Address,
    place: usize,
}

/// The slot of an address among those that are kept: instructions are four bytes apart.
fn slot_of(address: Address) -> usize
    ensures { result < KEPT_ADDRESSES }
{
    (address / 4 % KEPT_ADDRESSES) as usize
}

/// The place of an address, found by the index and kept in this slot. Few events need it: this is
/// a call, and no part of the loop over events.
#[cold]
#[inline(never)]
fn look_up(index: &LineIndex, found: &mut Vec<Found>, slot: usize, address: Address) -> usize
    requires within { slot < KEPT_ADDRESSES }
    requires kept { AreKept (position_at index.now) (length index.now.lines) found.old.items }
    ensures place { result ≡ place_in (length index.now.lines) (position_at index.now address) }
    ensures kept { AreKept (position_at index.now) (length index.now.lines) found.new.items }
{
    let place = place_of(index, address);
    found[slot] = Found { address, place };
    place
}

/// The place of an address, which the index is asked for only if another address is in its slot.
#[inline(always)]
fn place_at(index: &LineIndex, found: &mut Vec<Found>, address: Address) -> usize
    requires { AreKept (position_at index.now) (length index.now.lines) found.old.items }
    ensures place { result ≡ place_in (length index.now.lines) (position_at index.now address) }
    ensures kept { AreKept (position_at index.now) (length index.now.lines) found.new.items }
{
    let slot = slot_of(address);
    if found[slot].address == address {
        return found[slot].place;
    }
    look_up(index, found, slot, address)
}

/// Adds work to what a place has.
#[inline(always)]
fn add_work(work: &mut Vec<Tick>, place: usize, cost: Tick)
    requires below { place < length work.old.items }
    requires fits { get_or work.old.items place 0 + cost < 2 ^ 64 }
    ensures room { length work.new.items ≡ length work.old.items }
    ensures each { (k : ℕ) → get_or work.new.items k 0
        ≡ get_or work.old.items k 0 + (if place == k then cost else 0) }
{
    work[place] += cost;
}

/// Adds an event, whose address is at this place.
#[inline(always)]
fn add_event(sums: &mut Sums, place: usize, event: &Event)
    requires below { place < length sums.old.work.items }
    requires fits { get_or sums.old.work.items place 0 + event.now.cost < 2 ^ 64 }
    requires sleep { sums.old.sleep + event.now.slept < 2 ^ 64 }
    ensures sleep { sums.new.sleep ≡ sums.old.sleep + event.now.slept }
    ensures room { length sums.new.work.items ≡ length sums.old.work.items }
    ensures each { (k : ℕ) → get_or sums.new.work.items k 0
        ≡ get_or sums.old.work.items k 0 + (if place == k then event.now.cost else 0) }
{
    sums.sleep += event.slept;
    add_work(&mut sums.work, place, event.cost);
}

/// The sums over no event. Fails only if out of memory.
fn no_sums(alloc: Global, index: &LineIndex) -> Result<Sums, AllocError>
    ensures { IfOk result (IsCounted (position_at index.now) (length index.now.lines) []) }
{
    Ok(Sums {
        work: vec![in alloc; 0; index.count() as usize + 2]?,
        sleep: 0,
    })
}

/// Address 0 and its place, in each slot. Fails only if out of memory.
fn first_found(alloc: Global, index: &LineIndex) -> Result<Vec<Found>, AllocError>
    ensures { IfOk result (λ found.
        AreKept (position_at index.now) (length index.now.lines) found.items) }
{
    let first = Found {
        address: 0,
        place: place_of(index, 0),
    };
    vec![in alloc; first; KEPT_ADDRESSES as usize]
}

/// The ticks of a chain of events, whose addresses have the lines of an index.
/// Fails only if out of memory.
fn sums_of(
    alloc: Global,
    index: &LineIndex,
    events: &[Event],
    chain: &[u32],
) -> Result<Sums, AllocError>
    requires { weight events.now chain.now < 2 ^ 64 }
    ensures { IfOk result (IsCounted (position_at index.now) (length index.now.lines)
        (events_on events.now chain.now)) }
{
    let mut sums = no_sums(alloc, index)?;
    let mut found = first_found(alloc, index)?;
    for number in chain {
        let event = event_of(events, *number);
        let place = place_at(index, &mut found, event.address);
        add_event(&mut sums, place, &event);
    }
    Ok(sums)
}

/// The ticks of all events of a run, whose addresses have the lines of an index.
/// Fails only if out of memory.
fn sums_of_all(alloc: Global, index: &LineIndex, events: &[Event]) -> Result<Sums, AllocError>
    requires { sum_by ticks events.now < 2 ^ 64 }
    ensures { IfOk result (IsCounted (position_at index.now) (length index.now.lines) events.now) }
{
    let mut sums = no_sums(alloc, index)?;
    let mut found = first_found(alloc, index)?;
    for event in events {
        let place = place_at(index, &mut found, event.address);
        add_event(&mut sums, place, event);
    }
    Ok(sums)
}

/// Appends a share, if it has some ticks. Fails only if out of memory.
fn push_share(shares: &mut Vec<Share>, share: Share) -> Result<(), AllocError>
    ensures { OnOk result (shares.new.items
        ≡ shares.old.items ++ (if has_some share then share ∷ [] else [])) }
{
    if share.ticks > 0 {
        shares.push(share)?;
    }
    Ok(())
}

/// The lines that have ticks, of the first `count` lines, in order. Fails only if out of memory.
fn shares_in(alloc: Global, count: u32, lines: &[Tick]) -> Result<Vec<Share>, AllocError>
    requires { count ≤ length lines.now }
    ensures { IfOk result (λ shares. shares.items
        ≡ filter has_some (map (share_in lines.now) (range_with_len 0 count))) }
{
    let mut shares = Vec::new(alloc);
    for line in 0..count {
        let ticks = lines[line as usize];
        push_share(&mut shares, Share { line, ticks })?;
    }
    Ok(shares)
}

/// The shares of the sums over the lines of an index. Fails only if out of memory.
fn shares_in_order(alloc: Global, index: &LineIndex, sums: Sums) -> Result<Shares, AllocError>
    requires { length sums.work.items ≡ length index.now.lines + 2 }
    ensures lines { IfOk result (λ shares. shares.lines ≡ sorted_by has_more (filter has_some
        (map (share_in sums.work.items) (range_with_len 0 (length index.now.lines))))) }
    ensures none { IfOk result (λ shares. shares.none
        ≡ get_or sums.work.items (length index.now.lines) 0) }
    ensures sleep { IfOk result (λ shares. shares.sleep ≡ sums.sleep) }
{
    let mut shares = shares_in(alloc, index.count(), &sums.work)?;
    by_falling_ticks(&mut shares)?;
    Ok(Shares {
        lines: Items::new(shares),
        none: sums.work[index.count() as usize],
        sleep: sums.sleep,
    })
}

/// The share of a chain of events that each line of an index has. It takes eight bytes a line
/// beside the shares. Fails only if out of memory.
pub fn shares_of_path(
    alloc: Global,
    index: &LineIndex,
    events: &[Event],
    chain: &[u32],
) -> Result<Shares, AllocError>
    requires { weight events.now chain.now < 2 ^ 64 }
    ensures lines { IfOk result (λ shares. shares.lines
        ≡ shares_of (position_at index.now) (length index.now.lines)
        (events_on events.now chain.now)) }
    ensures none { IfOk result (λ shares. shares.none
        ≡ work_elsewhere (position_at index.now) (events_on events.now chain.now)) }
    ensures sleep { IfOk result (λ shares. shares.sleep
        ≡ slept_on (events_on events.now chain.now)) }
{
    let sums = sums_of(alloc, index, events, chain)?;
    shares_in_order(alloc, index, sums)
}

/// The share of all events of a run that each line of an index has. The events are read in order,
/// with no list of their numbers. Fails only if out of memory.
fn shares_of_run(alloc: Global, index: &LineIndex, events: &[Event]) -> Result<Shares, AllocError>
    requires { sum_by ticks events.now < 2 ^ 64 }
    ensures lines { IfOk result (λ shares. shares.lines
        ≡ shares_of (position_at index.now) (length index.now.lines) events.now) }
    ensures none { IfOk result (λ shares. shares.none
        ≡ work_elsewhere (position_at index.now) events.now) }
    ensures sleep { IfOk result (λ shares. shares.sleep ≡ slept_on events.now) }
{
    let sums = sums_of_all(alloc, index, events)?;
    shares_in_order(alloc, index, sums)
}

/// The share of a chain of events that each line of an index has. A chain of all events is not
/// read. Fails only if out of memory.
pub fn shares_of_chain(
    alloc: Global,
    index: &LineIndex,
    events: &[Event],
    chain: &[u32],
) -> Result<Shares, AllocError>
    requires light { weight events.now chain.now < 2 ^ 64 }
    requires whole { length chain.now ≡ length events.now
        → events_on events.now chain.now ≡ events.now }
    ensures lines { IfOk result (λ shares. shares.lines
        ≡ shares_of (position_at index.now) (length index.now.lines)
        (events_on events.now chain.now)) }
    ensures none { IfOk result (λ shares. shares.none
        ≡ work_elsewhere (position_at index.now) (events_on events.now chain.now)) }
    ensures sleep { IfOk result (λ shares. shares.sleep
        ≡ slept_on (events_on events.now chain.now)) }
{
    if chain.len() == events.len() {
        return shares_of_run(alloc, index, events);
    }
    shares_of_path(alloc, index, events, chain)
}
