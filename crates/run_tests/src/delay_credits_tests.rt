//! Tests of `delay_credits`.
use crate::checks::check_equal;
use coz_types::HartId;
use delay_credits::Credits;
use std::test::Fail;

const FIRST: HartId = HartId(0);

const SECOND: HartId = HartId(1);

#[test]
fn the_other_hart_pauses_for_a_raise_and_a_woken_hart_is_credited(
    rt: HostRuntime,
) -> Result<(), Fail> {
    let mut credits = Credits::new(rt.alloc(), 2)?;
    let mut other = Credits::new(rt.alloc(), 2)?;
    credits.start(FIRST, 0);
    credits.start(SECOND, 0);
    credits.raise(FIRST, 2, 0);
    let early = (
        credits.account(SECOND, 1).paused,
        credits.pause(SECOND, 1),
        credits.pause(FIRST, 1),
    );
    let late = (
        credits.account(SECOND, 3).paused,
        credits.pause(SECOND, 3),
        credits.pause(FIRST, 3),
    );
    let raised = (credits.raised(), credits.account(FIRST, 3).own);
    check_equal(&rt, (raised, early, late), ((2, 2), (1, 1, 0), (2, 0, 0)));
    other.copy_from(&credits);
    other.stop(SECOND, 3);
    other.raise(FIRST, 7, 4);
    other.take_credit(SECOND, FIRST);
    let credited = (other.account(SECOND, 5).credited, other.pause(SECOND, 5));
    check_equal(&rt, credited, (7, 0));
    // The other hart has paid one of four when three more are raised.
    credits.raise(FIRST, 4, 4);
    credits.raise(FIRST, 3, 5);
    other.copy_from(&credits);
    other.raise(FIRST, 2, 6);
    let raised = (credits.pause(SECOND, 5), other.pause(SECOND, 6));
    check_equal(&rt, raised, (6, 7));
    Ok(())
}
