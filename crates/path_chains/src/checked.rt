//! Whether a chain shows how long a run was.
ghost use Rattle.std.specs.Prelude.{◌≡◌, ◌↔◌, ◌≤◌, ◌<◌, List, ℕ, length, All, EachIndex, IsTrue, IsSome, Some, slice_get, ◌-◌, ◌^◌};
ghost use Rattle.path_chains.specs.Path.{event_at, last_of, ticks, weight, Follows, IsChain, IsBehind, IsTimely, Sound};

use crate::Event;

/// The ticks that an event adds to a chain.
fn ticks(event: &Event) -> u128
    ensures value { result ≡ ticks event.now }
    ensures small { result < 2 ^ 65 }
{
    event.cost as u128 + event.slept as u128
}

/// Whether the event may come after that number in a chain.
fn follows(event: &Event, number: u32) -> bool
    ensures { IsTrue result ↔ Follows event.now number }
{
    event.from == Some(number) || event.before == Some(number)
}

/// Whether an event with a lower number is due no later than the event of `number` less its ticks.
fn is_behind(events: &[Event], number: usize, earlier: u32) -> bool
    requires { number < length events.now }
    ensures { IsTrue result ↔ IsBehind events.now number earlier }
{
    let earlier = earlier as usize;
    earlier < number
        && events[earlier].due as u128 + ticks(&events[number]) <= events[number].due as u128
}

/// Whether an event is due no sooner than what it waited for allows.
fn is_timely(events: &[Event], number: usize) -> bool
    requires { number < length events.now }
    ensures { IsTrue result ↔ IsTimely events.now number }
{
    match (events[number].from, events[number].before) {
        (None, None) => ticks(&events[number]) <= events[number].due as u128,
        (Some(from), None) => is_behind(events, number, from),
        (None, Some(before)) => is_behind(events, number, before),
        (Some(from), Some(before)) => {
            is_behind(events, number, from) && is_behind(events, number, before)
        }
    }
}

/// Whether each event is due no sooner than what it waited for allows.
fn are_timely(events: &[Event]) -> bool
    ensures { IsTrue result ↔ EachIndex events.now (IsTimely events.now) }
{
    for number in 0..events.len() {
        if !is_timely(events, number) {
            return false;
        }
    }
    true
}

/// Whether no event is due later than the moment `last`.
fn is_latest(events: &[Event], last: u64) -> bool
    ensures { IsTrue result ↔ All (λ e. e.due ≤ last) events.now }
{
    events.iter().all(|event| event.due <= last)
}

/// Whether the list is a chain.
fn is_chain(events: &[Event], chain: &[u32]) -> bool
    ensures { IsTrue result ↔ IsChain events.now chain.now }
{
    let Some((first, rest)) = chain.split_first() else {
        return false;
    };
    if *first as usize >= events.len() {
        return false;
    }
    let mut ahead = *first;
    for number in rest {
        let there = *number as usize;
        if there >= events.len() {
            return false;
        }
        if !follows(&events[there], ahead) {
            return false;
        }
        ahead = *number;
    }
    true
}

/// The weight of a chain.
fn weight(events: &[Event], chain: &[u32]) -> u128
    requires { All (λ i. i < length events.now) chain.now }
    ensures { result ≡ weight events.now chain.now }
{
    let mut sum = 0u128;
    for number in chain {
        sum += ticks(&events[*number as usize]);
    }
    sum
}

/// Whether the last number of a chain is that of the last event.
fn ends(events: &[Event], chain: &[u32]) -> bool
    requires { 1 ≤ length events.now }
    ensures { IsTrue result
        ↔ (slice_get chain.now (length chain.now - 1) ≡ Some (last_of events.now)) }
{
    match chain.last() {
        None => false,
        Some(last) => *last as usize == events.len() - 1,
    }
}

/// Whether a chain shows how long a run of these events was: it is a chain, it ends with the last
/// event, no event is due sooner than what it waited for allows, none is due later than the last,
/// and the chain's weight is that moment.
pub fn check(events: &[Event], chain: &[u32]) -> bool
    ensures exact { IsTrue result ↔ Sound events.now chain.now }
    ensures heaviest { IsTrue result → (other : List ℕ) → IsChain events.now other
        → weight events.now other ≤ weight events.now chain.now }
{
    let Some(last) = events.last() else {
        return false;
    };
    if !ends(events, chain) {
        return false;
    }
    if !is_chain(events, chain) {
        return false;
    }
    if !are_timely(events) {
        return false;
    }
    if !is_latest(events, last.due) {
        return false;
    }
    weight(events, chain) == last.due as u128
}
