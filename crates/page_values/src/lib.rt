//! What a page says of lines and runs: costs, least values, the shapes of curves and their order,
//! how runs ended, the bytes of labels, source files, where the blocks and curves of a line stand,
//! and where values stand in a picture.
#![tactic(auto)]

ghost use Rattle.std.specs.Prelude.{◌≡◌};
ghost use Rattle.page_values.specs.declared.ranks.TheConstants.{MIN_SIZE};
ghost use Rattle.page_values.specs.declared.shapes.TheConstants.{MAX_DROP, MAX_SMOOTH, MAX_VALUE, MIN_SPEEDUPS};
ghost use Rattle.page_values.specs.declared.sources.TheConstants.{MAX_SOURCE};

mod cost;
mod endings;
mod harm;
mod label;
mod lines;
mod places;
mod ranks;
mod shapes;
mod sources;
mod table_lines;

pub use cost::cost_of;
pub use endings::{count_of, others_of};
pub use harm::worst_of;
pub use label::{no_markup, reference_of};
pub use lines::{LinePlaces, places_of_blocks, places_of_curves};
pub use places::{MAX_SIZE, across, height, is_cut, reaches};
pub use ranks::{by_mean, folded, greatest_gain, is_folded, listed, standing};
pub use shapes::{flat_from, is_rough, mean_of};
pub use sources::{MAX_SOURCE, look_up, read_source};

/// The numbers that the definitions of this crate cite by name. In hundredths of a per cent: the
/// size from which a value is not small, the greatest size of a value that counts, the range that a
/// curve which goes up and down exceeds, and the most by which a value is below the gain at which
/// its curve stays. The least number of speedups of a curve that goes up and down. And the most
/// bytes of a source file.
pub fn sizes()
    ensures not_small { MIN_SIZE ≡ 20 }
    ensures greatest_value { MAX_VALUE ≡ 100000000 }
    ensures range { MAX_SMOOTH ≡ 100 }
    ensures below_gain { MAX_DROP ≡ 10 }
    ensures speedups { MIN_SPEEDUPS ≡ 10 }
    ensures source { MAX_SOURCE ≡ 16777216 }
{}
