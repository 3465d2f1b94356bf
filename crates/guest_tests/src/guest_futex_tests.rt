//! Tests of `guest_futex`.
ghost use Rattle.std.specs.Prelude.{◌≡◌, ◌≢◌, ◌+◌, ◌<◌, ◌≤◌, length, All};
ghost use Rattle.guest_futex.specs.Waiters.{with_waiter, woken_harts, waiters_left};

use crate::checks::check_equal;
use coz_types::HartId;
use guest_futex::{HartList, Queue};
use std::alloc::AllocError;
use std::test::Fail;

const HERE: u64 = 0x11000;

const THERE: u64 = 0x11004;

#[test]
fn the_oldest_waiters_of_an_address_are_woken(rt: HostRuntime) -> Result<(), Fail> {
    let mut queue = Queue::new(rt.alloc())?;
    let mut other = Queue::new(rt.alloc())?;
    queue.wait(HERE, HartId(3));
    queue.wait(HERE, HartId(5));
    queue.wait(THERE, HartId(255));
    queue.wait(HERE, HartId(2));
    other.wait(HERE, HartId(9));
    other.copy_from(&queue);
    let mut woken = HartList::new();
    other.wake(HERE, 2, &mut woken);
    check_equal(&rt, woken.harts(), &[HartId(3), HartId(5)]);
    other.wake(HERE, 9, &mut woken);
    other.wake(HERE, 1, &mut woken);
    other.wake(0x20000, 1, &mut woken);
    check_equal(&rt, woken.harts(), &[HartId(3), HartId(5), HartId(2)]);
    woken.clear();
    // Nobody waits after the first of these.
    other.wake(THERE, 9, &mut woken);
    other.wake(THERE, 9, &mut woken);
    check_equal(&rt, woken.harts(), &[HartId(255)]);
    woken.clear();
    queue.wake(THERE, u32::MAX, &mut woken);
    check_equal(&rt, woken.harts(), &[HartId(255)]);
    woken.clear();
    queue.wake(HERE, 0, &mut woken);
    queue.wake(HERE, 1, &mut woken);
    woken.push(HartId(8));
    check_equal(&rt, woken.harts(), &[HartId(3), HartId(8)]);
    Ok(())
}
