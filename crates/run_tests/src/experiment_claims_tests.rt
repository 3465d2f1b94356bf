//! Tests of `experiment_claims`.
use crate::checks::check_equal;
use experiment_claims::Claims;
use std::test::Fail;

#[test]
fn two_seats_draw_each_number_below_two_once(rt: HostRuntime) -> Result<(), Fail> {
    let (claims, first) = Claims::new(rt.alloc(), 2)?;
    let (mut a, mut b) = claims.split(first, 1);
    let drawn = [
        claims.draw(&mut a),
        claims.draw(&mut b),
        claims.draw(&mut a),
    ];
    let whole = claims.join(a, b);
    let count = claims.finish(whole);
    check_equal(&rt, (drawn, count), ([Some(0), Some(1), None], 3));
    Ok(())
}
