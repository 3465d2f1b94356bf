//! Tests of `hart_schedule`.
use crate::checks::check_equal;
use coz_types::{HartId, Tick};
use hart_schedule::Schedule;
use std::process::Abort;
use std::test::Fail;

/// Checks that the hart is due first and has this key, and takes it.
fn check_taken(rt: &impl Abort, schedule: &mut Schedule, hart: u16, key: Tick) {
    let least = schedule.least();
    let taken = schedule.take(HartId(hart));
    check_equal(rt, (least, taken), (Some(HartId(hart)), Some(key)));
}

#[test]
fn the_hart_of_the_least_key_and_then_of_the_least_number_is_due_first(
    rt: HostRuntime,
) -> Result<(), Fail> {
    let mut first = Schedule::new(rt.alloc(), 8)?;
    let mut schedule = Schedule::new(rt.alloc(), 8)?;
    first.put(HartId(4), 90);
    first.put(HartId(2), 90);
    first.put(HartId(7), 100);
    schedule.put(HartId(0), 1);
    schedule.copy_from(&first);
    let found = [
        schedule.key(HartId(7)),
        schedule.key(HartId(0)),
        schedule.key(HartId(8)),
        schedule.take(HartId(8)),
    ];
    check_equal(&rt, found, [Some(100), None, None, None]);
    check_taken(&rt, &mut schedule, 2, 90);
    check_taken(&rt, &mut schedule, 4, 90);
    check_taken(&rt, &mut schedule, 7, 100);
    let again = [
        schedule.take(HartId(2)),
        schedule.take(HartId(4)),
        schedule.take(HartId(7)),
    ];
    check_equal(&rt, (schedule.least(), again), (None, [None; 3]));
    let taken = first.take(HartId(2));
    first.rekey(HartId(7), 80);
    check_equal(&rt, taken, Some(90));
    check_taken(&rt, &mut first, 7, 80);
    Ok(())
}

#[test]
fn harts_of_one_key_are_taken_by_number(rt: HostRuntime) -> Result<(), Fail> {
    let mut schedule = Schedule::new(rt.alloc(), 256)?;
    for hart in 0u16..256 {
        schedule.rekey(HartId(255 - hart), 7);
    }
    for hart in 0u16..256 {
        check_taken(&rt, &mut schedule, hart, 7);
    }
    check_equal(&rt, schedule.least(), None);
    Ok(())
}

#[test]
fn harts_of_falling_keys_are_taken_from_the_last(rt: HostRuntime) -> Result<(), Fail> {
    let mut schedule = Schedule::new(rt.alloc(), 256)?;
    for hart in 0u16..256 {
        schedule.put(HartId(hart), Tick::from(1000 - hart));
    }
    for taken in 0u16..256 {
        check_taken(&rt, &mut schedule, 255 - taken, Tick::from(745 + taken));
    }
    check_equal(&rt, schedule.least(), None);
    Ok(())
}

/// Checks that the harts of the four least keys are taken, and that this hart is due then.
fn check_least_four(rt: &impl Abort, schedule: &mut Schedule, next: u16) {
    check_taken(rt, schedule, 0, 1);
    check_taken(rt, schedule, 2, 2);
    check_taken(rt, schedule, 5, 3);
    check_taken(rt, schedule, 6, 4);
    check_equal(rt, schedule.least(), Some(HartId(next)));
}

// The heap is 1, 10 2, 11 12 3 4. Its last key takes the place of 10 and sinks, or of 11 and rises.
#[test]
fn what_takes_the_place_of_a_taken_hart_rises_or_sinks(rt: HostRuntime) -> Result<(), Fail> {
    let mut schedule = Schedule::new(rt.alloc(), 8)?;
    let mut other = Schedule::new(rt.alloc(), 8)?;
    schedule.put(HartId(0), 1);
    schedule.put(HartId(1), 10);
    schedule.put(HartId(2), 2);
    schedule.put(HartId(3), 11);
    schedule.put(HartId(4), 12);
    schedule.put(HartId(5), 3);
    schedule.put(HartId(6), 4);
    other.copy_from(&schedule);
    check_equal(&rt, schedule.take(HartId(1)), Some(10));
    check_least_four(&rt, &mut schedule, 3);
    check_equal(&rt, other.take(HartId(3)), Some(11));
    check_least_four(&rt, &mut other, 1);
    Ok(())
}
