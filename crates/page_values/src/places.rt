//! Where values stand in a picture.
ghost use Rattle.std.specs.Prelude.{◌≡◌};
ghost use Rattle.page_values.specs.Places.{IsTop, distance, height, is_cut, place_across, reaches};

/// The greatest size that is drawn, in hundredths of a per cent.
pub const MAX_SIZE: u128 = 10000;

fn distance(top: u64, size: u128) -> u64
    requires { IsTop top }
    ensures { result ≡ distance top size }
{
    size.min(MAX_SIZE) as u64 * 400 / top
}

/// The place of a value from above, over an axis with this upper end. The lower end is a quarter
/// of that, and a value beyond an end stands at the end.
pub fn height(top: u64, value: i128) -> u64
    requires { IsTop top }
    ensures { result ≡ height top value }
{
    let distance = distance(top, value.unsigned_abs());
    if value < 0 {
        440 + distance.min(100)
    } else {
        440 - distance.min(400)
    }
}

/// The place of a speedup from the left.
pub fn across(speedup: u8) -> u64
    ensures { result ≡ place_across speedup }
{
    200 + speedup as u64 * 57 / 5
}

/// Whether the value is above the upper end of the axis, or below the lower end,
/// which is a quarter of that.
pub fn is_cut(top: u64, value: i128) -> bool
    ensures { result ≡ is_cut top value }
{
    let end = if value < 0 { top / 4 } else { top };
    value.unsigned_abs() > end as u128
}

/// Whether the size of the value is at least a hundredth of the axis.
pub fn reaches(top: u64, value: Option<i128>) -> bool
    ensures { result ≡ reaches top value }
{
    match value {
        Some(value) => value.unsigned_abs() >= (top / 100) as u128,
        None => false,
    }
}
