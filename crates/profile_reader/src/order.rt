//! The orders of labels and blocks.
ghost use Rattle.std.specs.Prelude.{◌≡◌, option_copied};
ghost use Rattle.profile_reader.specs.Grammar.{comes_after, not_before, goes_on};
ghost use Rattle.profile_reader.specs.Reading.{selected_of, speedup_of};

use coz_types::{Label, Summary};
use profile_labels::is_before;

/// Whether a name comes after the last one.
pub fn comes_after(last: Option<&Label>, label: &[u8]) -> bool
    ensures { result ≡ comes_after (option_copied last.entry) label.now }
{
    match last {
        None => true,
        Some(last) => is_before(last.bytes(), label),
    }
}

/// Whether a label isn't before that of the last block.
pub fn not_before(last: Option<&Summary>, label: &[u8]) -> bool
    ensures { result ≡ not_before (selected_of (option_copied last.entry)) label.now }
{
    match last {
        None => true,
        Some(last) => is_before(last.selected.bytes(), label) || last.selected.bytes() == label,
    }
}

/// Whether a block of this label and speedup may follow the last block.
pub fn goes_on(last: Option<&Summary>, label: &[u8], speedup: u64) -> bool
    ensures { result
        ≡ goes_on (selected_of (option_copied last.entry)) (speedup_of (option_copied last.entry))
        label.now speedup }
{
    match last {
        None => true,
        Some(last) => is_before(last.selected.bytes(), label) || (last.speedup as u64) < speedup,
    }
}
