//! Tests of `critical_path` and `path_chains`: the heaviest chain of a run, and checks of chains.
ghost use Rattle.std.specs.Prelude.{IfOk};
ghost use Rattle.path_chains.specs.Path.{Linked};

use crate::checks::check_equal;
use crate::guests::{Check, Program, SMALL, WAIT, check_source};
use coz_types::{HartId, Image};
use critical_path::walk;
use path_chains::{Event, Trace, check, longest};
use std::alloc::{AllocError, Global};
use std::process::Abort;
use std::test::Fail;

/// The cost of an event, its sleep, its `from`, its `before` and when it is due.
type Fields = (u64, u64, Option<u32>, Option<u32>, u64);

/// The greatest number.
const MOST: u64 = 0xFFFF_FFFF_FFFF_FFFF;

/// Events, a chain of them, and whether the chain is sound.
/// By hand, from docs/FORMATS.md, Critical path.
static CHAINS: [(&[Fields], &[u32], bool); 9] = [
    (&[], &[], false),
    (&[(MOST, 0, None, None, MOST)], &[0], true),
    // a sum that would wrap
    (&[(MOST, MOST, None, None, MOST)], &[0], false),
    (
        &[
            (MOST, 0, None, None, MOST),
            (1, MOST, Some(0), Some(0), MOST),
        ],
        &[0, 1],
        false,
    ),
    // a `from` that is the event itself, and one that is later
    (&[(0, 0, Some(0), None, 0)], &[0], false),
    (
        &[(1, 0, Some(1), None, 1), (1, 0, None, None, 1)],
        &[1],
        false,
    ),
    // an event that is due later than the last
    (&[(5, 0, None, None, 5), (3, 0, None, None, 3)], &[1], false),
    (&[(3, 0, None, None, 3), (5, 0, None, None, 5)], &[1], true),
    // an end that is as heavy as the last event
    (&[(5, 0, None, None, 5), (5, 0, None, None, 5)], &[0], false),
];

fn trace_of(alloc: Global, image: &Image) -> Result<Trace, AllocError>
    ensures { IfOk result (λ trace. Linked trace.events) }
{
    walk(alloc, image, &[], 100, 10, SMALL)
}

/// Checks that the chain is sound, and that no change of it is: without its last event, without its
/// first one, with no event, with its last event twice, and with one more event of this number.
fn check_changes<R: Abort>(
    rt: &R,
    events: &[Event],
    chain: &mut Vec<u32>,
    number: u32,
) -> Result<(), AllocError> {
    let count = chain.len();
    let whole = check(events, chain);
    let cut = check(events, chain.get(..count.saturating_sub(1)).unwrap_or(&[]));
    let late = check(events, chain.get(1..).unwrap_or(&[]));
    let empty = check(events, &[]);
    chain.push(chain.last().copied().unwrap_or(0))?;
    let twice = check(events, chain);
    let _last = chain.pop();
    chain.push(number)?;
    let after = check(events, chain);
    let found = (count > 1, whole, (cut, late, empty, twice, after));
    check_equal(rt, found, (true, true, (false, false, false, false, false)));
    Ok(())
}

fn check_chain<R: Abort>(rt: &R, alloc: Global, trace: &Trace) -> Result<(), AllocError>
    requires { Linked trace.now.events }
{
    let mut chain = longest(alloc, trace)?;
    let count = trace.events.len() as u32;
    let checked = check_changes(rt, trace.events.as_slice(), &mut chain, count);
    // By a call, since a drop in place is proved part by part.
    drop(chain);
    checked
}

/// Any program.
struct Chain;

impl Check for Chain {
    fn check<R: Abort>(&self, rt: &R, alloc: Global, program: &Program) -> Option<()> {
        let trace = trace_of(alloc, program.image).ok()?;
        let checked = check_chain(rt, alloc, &trace);
        // By a call, since a drop in place is proved part by part.
        drop(trace);
        checked.ok()
    }
}

#[test]
fn the_chain_of_a_run_is_sound_and_no_change_of_it_is(rt: HostRuntime) {
    check_equal(&rt, check_source(&rt, rt.alloc(), WAIT, &Chain), Some(()));
}

fn events_of(alloc: Global, fields: &[Fields]) -> Result<Vec<Event>, AllocError> {
    let mut events = Vec::new(alloc);
    for &(cost, slept, from, before, due) in fields {
        events.push(Event {
            hart: HartId(0),
            address: 0,
            cost,
            slept,
            from,
            before,
            due,
        })?;
    }
    Ok(events)
}

#[test]
fn a_check_of_a_chain_takes_any_events(rt: HostRuntime) -> Result<(), Fail> {
    for (row, &(fields, chain, is_sound)) in CHAINS.iter().enumerate() {
        let events = events_of(rt.alloc(), fields)?;
        check_equal(&rt, (row, check(&events, chain)), (row, is_sound));
    }
    Ok(())
}
