//! The blocks of one label.
ghost use Rattle.std.specs.Prelude.{◌≡◌, ◌<◌, ◌≤◌, ◌∷◌, length, take, drop};
ghost use Rattle.std.specs.Str.{bytes_eq};
ghost use Rattle.profile_labels.specs.Groups.{groups};

use coz_types::Summary;

fn have_one_label(a: &Summary, b: &Summary) -> bool
    ensures { result ≡ bytes_eq a.now.selected b.now.selected }
{
    a.selected.bytes() == b.selected.bytes()
}

/// Returns how many blocks, from the first one on, have the label of the first one.
pub fn group_length(summaries: &[Summary]) -> usize
    requires { 0 < length summaries.now }
    ensures some { 0 < result }
    ensures within { result ≤ length summaries.now }
    ensures group { groups summaries.now
        ≡ take result summaries.now ∷ groups (drop result summaries.now) }
{
    for i in 1..summaries.len() {
        if !have_one_label(&summaries[i - 1], &summaries[i]) {
            return i;
        }
    }
    summaries.len()
}
